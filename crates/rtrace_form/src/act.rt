// The act that a record reports.
ghost use Rattle.std.specs.Prelude.{◌≡◌, ◌<◌, IfOk, IfErr, true, length};
ghost use Rattle.csv.specs.Records.{fields_of};
ghost use Rattle.rset.specs.declared.TheConstants.{RESOURCES};
ghost use Rattle.rvalue.specs.Acts.{place_of};
ghost use Rattle.rtrace_form.specs.Lines.{Does};
ghost use Rattle.rtrace_form.specs.Told.{IsOf, Says, IsWrong, is_act, act_by, names_by};

use crate::fault::Code;
use crate::numbers::number_of;
use crate::record::field_of;
use crate::word::Word;
use csv::ByteRecord;
use rset::NameTable;
use rvalue::{Act, Edit};

/// The act in the record of an act, by the names that are declared. No memory is taken.
///
/// # Errors
///
/// `BadField` where the field for its number is not a number, else `UnknownName` where its resource is not declared.
pub fn act_of(
    resources: &NameTable,
    tasks: &NameTable,
    word: Word,
    fields: &ByteRecord,
) -> Result<Act<Edit>, Code>
    requires form { IsOf word (fields_of fields.now) }
    requires act { is_act word ≡ true }
    ensures told { IfOk result (λ act. Says (names_by resources.now tasks.now) word (fields_of fields.now) (Does act)) }
    ensures below { IfOk result (λ act. place_of act < length resources.now) }
    ensures few { IfOk result (λ act. place_of act < RESOURCES) }
    ensures wrong { IfErr result (λ code. IsWrong (names_by resources.now tasks.now) word (fields_of fields.now) code) }
{
    let Some(number) = number_of(field_of(fields, 2)) else {
        return Err(Code::BadField);
    };
    let Some(place) = resources.number_of(field_of(fields, 1)) else {
        return Err(Code::UnknownName);
    };
    Ok(act_by(word, place, number))
}

// The act of this word, on a resource and with a number.
fn act_by(word: Word, place: u8, number: u64) -> Act<Edit>
    ensures act { result ≡ act_by word place number }
    ensures place { place_of result ≡ place }
{
    match word {
        Word::Add { done } => Act::Edited {
            place,
            edit: Edit::Add(number),
            done,
        },
        Word::Take { done } => Act::Edited {
            place,
            edit: Edit::Take(number),
            done,
        },
        Word::Put { done } => Act::Edited {
            place,
            edit: Edit::Set(number),
            done,
        },
        _ => Act::Shown { place, number },
    }
}

// The wait that a record reports.
ghost use Rattle.std.specs.Prelude.{◌≡◌, IfOk, IfErr, option_map};
ghost use Rattle.csv.specs.Records.{fields_of};
ghost use Rattle.rtrace_form.specs.Bounds.{numbers_in};
ghost use Rattle.rtrace_form.specs.Told.{IsOf, Says, IsWrong, names_by};
ghost use Rattle.rtrace_form.specs.WaitRecords.{numbers_told, line_told};

use crate::fault::Code;
use crate::numbers::number_of;
use crate::record::field_of;
use crate::word::{Stage, Word};
use csv::ByteRecord;
use rbound::Bound;
use rset::NameTable;

// The place of the first number of a cover: after its task and its stage. Those of the bound follow its three.
const FIRST_OF_COVER: u8 = 3;

const FIRST_OF_BOUND: u8 = 6;

/// What the record of a wait says of its cover.
#[derive(Clone, Copy, Debug, PartialEq, Eq)]
pub struct CoverTold {
    /// The number of sections that count as reads.
    pub reads: u64,
    /// The number of sections that count as writes.
    pub writes: u64,
    /// The sum of their lengths, in the units of the requests.
    pub units: u64,
}

/// What the record of a wait says.
#[derive(Clone, Copy)]
pub struct WaitTold {
    /// The seat whose request waited.
    pub seat: u8,
    /// Which wait of the request it was.
    pub stage: Stage,
    /// What covered it.
    pub cover: CoverTold,
    /// The reported bound.
    pub bound: Bound,
}

/// The wait in a record of this stage, by the names that are declared. No memory is taken.
///
/// # Errors
///
/// `BadField` where one of its six numbers is not a number, else `UnknownName` where its task is not declared.
pub fn wait_of(
    resources: &NameTable,
    tasks: &NameTable,
    stage: Stage,
    fields: &ByteRecord,
) -> Result<WaitTold, Code>
    requires { IsOf (Word.Wait stage) (fields_of fields.now) }
    ensures told { IfOk result (λ wait. Says (names_by resources.now tasks.now) (Word.Wait stage) (fields_of fields.now) (line_told wait)) }
    ensures wrong { IfErr result (λ code. IsWrong (names_by resources.now tasks.now) (Word.Wait stage) (fields_of fields.now) code) }
{
    let Some(cover) = numbers_at(fields, FIRST_OF_COVER) else {
        return Err(Code::BadField);
    };
    let Some(bound) = numbers_at(fields, FIRST_OF_BOUND) else {
        return Err(Code::BadField);
    };
    match tasks.number_of(field_of(fields, 1)) {
        Some(seat) => Ok(WaitTold {
            seat,
            stage,
            cover: CoverTold {
                reads: cover.reads,
                writes: cover.writes,
                units: cover.units,
            },
            bound,
        }),
        None => Err(Code::UnknownName),
    }
}

// The three numbers in the fields from this place on; None where one is not a number.
fn numbers_at(fields: &ByteRecord, at: u8) -> Option<Bound>
    ensures { option_map numbers_in result ≡ numbers_told (fields_of fields.now) at }
{
    let at = usize::from(at);
    let reads = number_of(field_of(fields, at))?;
    let writes = number_of(field_of(fields, at + 1))?;
    let units = number_of(field_of(fields, at + 2))?;
    Some(Bound {
        reads,
        writes,
        units,
    })
}

// The lines that follow from the lock: changes of a status, grants, and the ledgers at the end.
ghost use Rattle.std.specs.Prelude.{◌≡◌, IfOk, IfErr, true};
ghost use Rattle.csv.specs.Records.{fields_of};
ghost use Rattle.rtrace_form.specs.Lines.{Grants, Leaves};
ghost use Rattle.rtrace_form.specs.Reports.{status_line};
ghost use Rattle.rtrace_form.specs.Told.{IsOf, Says, IsWrong, is_status, change_by, names_by};

use crate::fault::Code;
use crate::numbers::number_of;
use crate::record::field_of;
use crate::sets::set_of;
use crate::word::Word;
use csv::ByteRecord;
use rclaim::{Status, StatusChange};
use rset::{NameTable, ResourceSet};
use rvalue::Ledger;

/// The change in the record of a change of a status, by the names that are declared. No memory is taken.
///
/// # Errors
///
/// `UnknownName` where its task is not declared.
pub fn change_of(
    resources: &NameTable,
    tasks: &NameTable,
    word: Word,
    fields: &ByteRecord,
) -> Result<StatusChange, Code>
    requires form { IsOf word (fields_of fields.now) }
    requires change { is_status word ≡ true }
    ensures told { IfOk result (λ change. Says (names_by resources.now tasks.now) word (fields_of fields.now) (status_line change)) }
    ensures change { IfOk result (λ change. change ≡ change_by word change.seat) }
    ensures wrong { IfErr result (λ code. IsWrong (names_by resources.now tasks.now) word (fields_of fields.now) code) }
{
    match tasks.number_of(field_of(fields, 1)) {
        Some(seat) => Ok(change_by(word, seat)),
        None => Err(Code::UnknownName),
    }
}

// The change of a seat's status that a record of this word reports.
fn change_by(word: Word, seat: u8) -> StatusChange
    ensures { result ≡ change_by word seat }
{
    let (write_half, status) = match word {
        Word::Entitled { write_half } => (write_half, Status::Entitled),
        Word::Satisfied { write_half } => (write_half, Status::Satisfied),
        _ => (false, Status::Satisfied),
    };
    StatusChange {
        seat,
        write_half,
        status,
    }
}

/// What the record of a grant says.
#[derive(Clone, Copy)]
pub struct GrantTold {
    /// The seat whose request it is.
    pub seat: u8,
    /// All that it holds, for reading or for writing.
    pub set: ResourceSet,
}

/// The seat and the set in the record of a grant, by the names that are declared. No memory is taken.
///
/// # Errors
///
/// `UnknownName` where its task or a resource is not declared.
pub fn grant_of(
    resources: &NameTable,
    tasks: &NameTable,
    fields: &ByteRecord,
) -> Result<GrantTold, Code>
    requires { IsOf Word.Grant (fields_of fields.now) }
    ensures told { IfOk result (λ grant. Says (names_by resources.now tasks.now) Word.Grant (fields_of fields.now) (Grants grant.seat grant.set)) }
    ensures wrong { IfErr result (λ code. IsWrong (names_by resources.now tasks.now) Word.Grant (fields_of fields.now) code) }
{
    let Some(seat) = tasks.number_of(field_of(fields, 1)) else {
        return Err(Code::UnknownName);
    };
    match set_of(resources, field_of(fields, 2)) {
        Some(set) => Ok(GrantTold { seat, set }),
        None => Err(Code::UnknownName),
    }
}

/// The resource and the ledger in the record of a ledger, by the names that are declared. No memory is taken.
///
/// # Errors
///
/// `BadField` where its balance or its count of edits is not a number, else `UnknownName` where its resource is not
/// declared.
pub fn ledger_of(
    resources: &NameTable,
    tasks: &NameTable,
    fields: &ByteRecord,
) -> Result<(u8, Ledger), Code>
    requires { IsOf Word.Ledger (fields_of fields.now) }
    ensures told { IfOk result (λ left. Says (names_by resources.now tasks.now) Word.Ledger (fields_of fields.now) (Leaves left.0 left.1)) }
    ensures wrong { IfErr result (λ code. IsWrong (names_by resources.now tasks.now) Word.Ledger (fields_of fields.now) code) }
{
    let Some(balance) = number_of(field_of(fields, 2)) else {
        return Err(Code::BadField);
    };
    let Some(edits) = number_of(field_of(fields, 3)) else {
        return Err(Code::BadField);
    };
    match resources.number_of(field_of(fields, 1)) {
        Some(place) => Ok((place, Ledger { balance, edits })),
        None => Err(Code::UnknownName),
    }
}

// The statement that a record says.
ghost use Rattle.std.specs.Prelude.{◌≡◌, IfOk, IfErr, Some, true};
ghost use Rattle.csv.specs.Records.{fields_of};
ghost use Rattle.rset.specs.declared.TheConstants.{RESOURCES};
ghost use Rattle.rscript.specs.Causes.{request_code};
ghost use Rattle.rscript.specs.Words.{word_in};
ghost use Rattle.rscript.specs.Told.{is_edit, is_statement, edit_by, HasPlace, Tells, IsWrong, is_of_fields};

use crate::code::ScriptCode;
use crate::statement::Statement;
use crate::word::ScriptWord;
use csv::ByteRecord;
use rclaim::{Kind, RequestErr};
use rset::NameTable;
use rtrace_form::{field_of, lengths_of, number_of, request_of, set_of, sets_of};
use rvalue::Edit;

// The place of the first set in the record that begins a section: after the kind.
const FIRST_SET: u8 = 1;

/// The statement that a record says, by the declared resources. No memory is taken.
///
/// # Errors
///
/// In this order: `UnknownName` if it names a resource that is not declared, `BadNumber` if one of its numbers is not a
/// number or is above its limit, and what refuses its request whatever read groups there are.
pub fn statement_of(
    resources: &NameTable,
    word: ScriptWord,
    fields: &ByteRecord,
) -> Result<Statement, ScriptCode>
    requires form { word_in (fields_of fields.now) ≡ Some word }
    requires kind { is_statement word ≡ true }
    ensures told { IfOk result (λ statement. Tells resources.now word (fields_of fields.now) statement) }
    ensures place { IfOk result (HasPlace RESOURCES) }
    ensures wrong { IfErr result (IsWrong resources.now word (fields_of fields.now)) }
    ensures fields { IfErr result (λ code. is_of_fields code ≡ true) }
{
    match word {
        ScriptWord::Begin(kind) => begin_of(resources, kind, fields),
        ScriptWord::Show => show_of(resources, fields),
        ScriptWord::Add => edit_of(resources, word, fields),
        ScriptWord::Take => edit_of(resources, word, fields),
        ScriptWord::Put => edit_of(resources, word, fields),
        ScriptWord::Ask => ask_of(resources, fields),
        ScriptWord::Rise => Ok(Statement::Rise),
        _ => Ok(Statement::Finish),
    }
}

// The beginning of a section of this kind, as a record says it.
fn begin_of(resources: &NameTable, kind: Kind, fields: &ByteRecord) -> Result<Statement, ScriptCode>
    requires { word_in (fields_of fields.now) ≡ Some (ScriptWord.Begin kind) }
    ensures told { IfOk result (λ statement. Tells resources.now (ScriptWord.Begin kind) (fields_of fields.now) statement) }
    ensures place { IfOk result (HasPlace RESOURCES) }
    ensures wrong { IfErr result (IsWrong resources.now (ScriptWord.Begin kind) (fields_of fields.now)) }
    ensures fields { IfErr result (λ code. is_of_fields code ≡ true) }
{
    let Some(sets) = sets_of(resources, kind, fields, FIRST_SET) else {
        return Err(ScriptCode::UnknownName);
    };
    let Some(lengths) = lengths_of(kind, fields, FIRST_SET) else {
        return Err(ScriptCode::BadNumber);
    };
    match request_of(kind, &sets, &lengths) {
        Ok(request) => Ok(Statement::Begin(request)),
        Err(cause) => Err(request_code(cause)),
    }
}

/// The code of a request that is refused.
pub fn request_code(cause: RequestErr) -> ScriptCode
    ensures { result ≡ request_code cause }
{
    match cause {
        RequestErr::EmptyRequest => ScriptCode::EmptyRequest,
        RequestErr::Undeclared => ScriptCode::Undeclared,
        RequestErr::FirstOutside => ScriptCode::FirstOutside,
    }
}

// The show that a record says.
fn show_of(resources: &NameTable, fields: &ByteRecord) -> Result<Statement, ScriptCode>
    requires { word_in (fields_of fields.now) ≡ Some ScriptWord.Show }
    ensures told { IfOk result (λ statement. Tells resources.now ScriptWord.Show (fields_of fields.now) statement) }
    ensures place { IfOk result (HasPlace RESOURCES) }
    ensures wrong { IfErr result (IsWrong resources.now ScriptWord.Show (fields_of fields.now)) }
    ensures fields { IfErr result (λ code. is_of_fields code ≡ true) }
{
    match resources.number_of(field_of(fields, 1)) {
        Some(place) => Ok(Statement::Show { place }),
        None => Err(ScriptCode::UnknownName),
    }
}

// The edit that a record says.
fn edit_of(
    resources: &NameTable,
    word: ScriptWord,
    fields: &ByteRecord,
) -> Result<Statement, ScriptCode>
    requires form { word_in (fields_of fields.now) ≡ Some word }
    requires edit { is_edit word ≡ true }
    ensures told { IfOk result (λ statement. Tells resources.now word (fields_of fields.now) statement) }
    ensures place { IfOk result (HasPlace RESOURCES) }
    ensures wrong { IfErr result (IsWrong resources.now word (fields_of fields.now)) }
    ensures fields { IfErr result (λ code. is_of_fields code ≡ true) }
{
    let Some(place) = resources.number_of(field_of(fields, 1)) else {
        return Err(ScriptCode::UnknownName);
    };
    let Some(number) = number_of(field_of(fields, 2)) else {
        return Err(ScriptCode::BadNumber);
    };
    Ok(Statement::Edit {
        place,
        edit: edit_by(word, number),
    })
}

// The edit of this word with this number.
fn edit_by(word: ScriptWord, number: u64) -> Edit
    ensures { result ≡ edit_by word number }
{
    match word {
        ScriptWord::Add => Edit::Add(number),
        ScriptWord::Take => Edit::Take(number),
        _ => Edit::Set(number),
    }
}

// The ask that a record says.
fn ask_of(resources: &NameTable, fields: &ByteRecord) -> Result<Statement, ScriptCode>
    requires { word_in (fields_of fields.now) ≡ Some ScriptWord.Ask }
    ensures told { IfOk result (λ statement. Tells resources.now ScriptWord.Ask (fields_of fields.now) statement) }
    ensures place { IfOk result (HasPlace RESOURCES) }
    ensures wrong { IfErr result (IsWrong resources.now ScriptWord.Ask (fields_of fields.now)) }
    ensures fields { IfErr result (λ code. is_of_fields code ≡ true) }
{
    match set_of(resources, field_of(fields, 1)) {
        Some(set) => Ok(Statement::Ask { set }),
        None => Err(ScriptCode::UnknownName),
    }
}

// The sets of resources that fields name.
ghost use Rattle.std.specs.Prelude.{◌≡◌, ◌==◌, IfSome, IfOk, IfErr, IsTrue, length, codes, false};
ghost use Rattle.std.specs.List.{list_any};
ghost use Rattle.std.specs.Str.{bytes_eq};
ghost use Rattle.csv.specs.Records.{fields_of};
ghost use Rattle.rset.specs.Sets.{all_below};
ghost use Rattle.rtrace_form.specs.SetFields.{set_told};
ghost use Rattle.rtrace_form.specs.Lines.{HasGroup};
ghost use Rattle.rtrace_form.specs.Told.{IsOf, Says, IsWrong, names_by};

use crate::fault::Code;
use crate::record::field_of;
use crate::word::Word;
use csv::ByteRecord;
use rset::{NameTable, ResourceSet};

/// The set of resources that a field names; None where a piece of it is not a declared name.
pub fn set_of(names: &NameTable, field: &[u8]) -> Option<ResourceSet>
    ensures value { result ≡ set_told names.now field.now }
    ensures below { IfSome result (λ set. IsTrue (all_below (length names.now) set)) }
{
    if field == b"-".as_slice() {
        return Some(ResourceSet::empty());
    }
    if is_joined(field) {
        return joined_of(names, field);
    }
    Some(ResourceSet::one(names.number_of(field)?))
}

// Whether a field joins several names.
#[inline]
fn is_joined(field: &[u8]) -> bool
    ensures { result ≡ list_any (λ b. b == 43) field.now }
{
    field.iter().any(|byte| *byte == b'+')
}

// The set that several names give; None where one is not declared. It is kept out of the path of a single name.
#[inline(never)]
fn joined_of(names: &NameTable, field: &[u8]) -> Option<ResourceSet>
    requires { bytes_eq field.now (codes "-") ≡ false }
    ensures value { result ≡ set_told names.now field.now }
    ensures below { IfSome result (λ set. IsTrue (all_below (length names.now) set)) }
{
    let mut set = ResourceSet::empty();
    for name in field.split(|byte| *byte == b'+') {
        set = set.with(names.number_of(name)?);
    }
    Some(set)
}

/// The set in the record of a group, by the names that are declared. No memory is taken.
///
/// # Errors
///
/// `UnknownName` where one of its resources is not declared.
pub fn group_of(
    resources: &NameTable,
    tasks: &NameTable,
    fields: &ByteRecord,
) -> Result<ResourceSet, Code>
    requires { IsOf Word.Group (fields_of fields.now) }
    ensures told { IfOk result (λ set. Says (names_by resources.now tasks.now) Word.Group (fields_of fields.now) (HasGroup set)) }
    ensures below { IfOk result (λ set. IsTrue (all_below (length resources.now) set)) }
    ensures wrong { IfErr result (λ code. IsWrong (names_by resources.now tasks.now) Word.Group (fields_of fields.now) code) }
{
    match set_of(resources, field_of(fields, 1)) {
        Some(set) => Ok(set),
        None => Err(Code::UnknownName),
    }
}

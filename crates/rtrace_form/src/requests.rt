// The sets and the lengths of a request, from the fields of its record.
ghost use Rattle.std.specs.Prelude.{◌≡◌, ◌≤◌, IfSome, IsTrue, length};
ghost use Rattle.csv.specs.Records.{fields_of};
ghost use Rattle.rclaim.specs.declared.TheConstants.{LENGTH_LIMIT};
ghost use Rattle.rset.specs.Sets.{all_below};
ghost use Rattle.rtrace_form.specs.Requests.{request_sets, request_lengths, length_field, later_told, IsMade};

use crate::numbers::length_of;
use crate::record::field_of;
use crate::sets::set_of;
use csv::ByteRecord;
use rclaim::{Kind, LENGTH_LIMIT, Request, RequestErr};
use rset::{NameTable, ResourceSet};

/// The sets that the record of a request names.
#[derive(Drop)]
pub struct RequestSets {
    /// What it reads; where it names only one set, that set.
    pub reads: ResourceSet,
    /// What it writes; where it names only one set, that set.
    pub writes: ResourceSet,
    /// The first part of a nested request; else empty.
    pub first: ResourceSet,
}

/// The lengths in the record of a request.
#[derive(Drop)]
pub struct RequestLengths {
    /// The length of its section.
    pub len: u32,
    /// The later length of an upgrade; else 0.
    pub later: u32,
}

/// The sets that the record of a request of this kind names, the first in the field at the place `at`; None where a
/// piece of one is not a declared name. A mixed request has two fields with sets, a nested one three, any other kind
/// one.
pub fn sets_of(names: &NameTable, kind: Kind, fields: &ByteRecord, at: u8) -> Option<RequestSets>
    ensures value { result ≡ request_sets names.now kind at (fields_of fields.now) }
    ensures reads { IfSome result (λ sets. IsTrue (all_below (length names.now) sets.reads)) }
    ensures writes { IfSome result (λ sets. IsTrue (all_below (length names.now) sets.writes)) }
{
    let at = usize::from(at);
    let reads = set_of(names, field_of(fields, at))?;
    let none = ResourceSet::empty();
    let (writes, first) = match kind {
        Kind::Read | Kind::Write | Kind::Upgrade => (reads, none),
        Kind::Mixed => (set_of(names, field_of(fields, at + 1))?, none),
        Kind::Nested => {
            let writes = set_of(names, field_of(fields, at + 1))?;
            (writes, set_of(names, field_of(fields, at + 2))?)
        }
    };
    Some(RequestSets {
        reads,
        writes,
        first,
    })
}

/// The lengths in the record of a request of this kind, after its sets, the first of which is at the place `at`; None
/// where a length is not a number or is above the limit. Only an upgrade has two fields with lengths.
pub fn lengths_of(kind: Kind, fields: &ByteRecord, at: u8) -> Option<RequestLengths>
    ensures value { result ≡ request_lengths kind at (fields_of fields.now) }
    ensures len { IfSome result (λ lengths. lengths.len ≤ LENGTH_LIMIT) }
    ensures later { IfSome result (λ lengths. lengths.later ≤ LENGTH_LIMIT) }
{
    let len = length_of(length_field(kind, fields, at))?;
    let later = later_of(kind, fields, at)?;
    Some(RequestLengths { len, later })
}

// The field with the length of a request of this kind.
fn length_field(kind: Kind, fields: &ByteRecord, at: u8) -> &[u8]
    ensures { result.now ≡ length_field kind at (fields_of fields.now) }
{
    let at = usize::from(at);
    match kind {
        Kind::Read | Kind::Write | Kind::Upgrade => field_of(fields, at + 1),
        Kind::Mixed => field_of(fields, at + 2),
        Kind::Nested => field_of(fields, at + 3),
    }
}

// The later length in the record of a request of this kind: 0 for every kind but an upgrade.
fn later_of(kind: Kind, fields: &ByteRecord, at: u8) -> Option<u32>
    ensures value { result ≡ later_told kind at (fields_of fields.now) }
    ensures bound { IfSome result (λ later. later ≤ LENGTH_LIMIT) }
{
    match kind {
        Kind::Upgrade => length_of(field_of(fields, usize::from(at) + 2)),
        Kind::Read | Kind::Write | Kind::Mixed | Kind::Nested => Some(0),
    }
}

/// The request of this kind for these sets and lengths.
///
/// # Errors
///
/// What refuses it whatever read groups there are: the errors of [`Request::new`], in their order.
pub fn request_of(
    kind: Kind,
    sets: &RequestSets,
    lengths: &RequestLengths,
) -> Result<Request, RequestErr>
    requires len { lengths.now.len ≤ LENGTH_LIMIT }
    requires later { lengths.now.later ≤ LENGTH_LIMIT }
    ensures { IsMade kind sets.now lengths.now result }
{
    Request::new(
        kind,
        sets.reads,
        sets.writes,
        sets.first,
        lengths.len,
        lengths.later,
    )
}

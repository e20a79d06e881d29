// The event that a record reports.
ghost use Rattle.std.specs.Prelude.{◌≡◌, IfOk, IfErr, true, List};
ghost use Rattle.csv.specs.Records.{fields_of};
ghost use Rattle.rset.specs.Sets.{Set};
ghost use Rattle.rclaim.specs.Requests.{IsNormal};
ghost use Rattle.rclaim.specs.declared.event.Event.{Event};
ghost use Rattle.rtrace_form.specs.Lines.{Happens};
ghost use Rattle.rtrace_form.specs.Told.{IsOf, Says, IsWrong, IsTold, is_event, is_plain, names_by};

use crate::fault::Code;
use crate::numbers::length_of;
use crate::record::field_of;
use crate::requests::{RequestLengths, RequestSets, lengths_of, request_of, sets_of};
use crate::sets::set_of;
use crate::word::Word;
use csv::ByteRecord;
use rclaim::{Event, Kind, RequestErr};
use rset::{NameTable, ResourceSet};

// The place of the first set in the record of an issue: after its task and its kind.
const FIRST_SET: u8 = 3;

/// What the record of an event says.
#[derive(Clone, Copy)]
pub enum EventTold {
    /// This event.
    Event(Event),
    /// An issue whose request is refused whatever read groups there are.
    Refused(RequestErr),
}

/// What the record of an event says, by the names that are declared. No memory is taken.
///
/// # Errors
///
/// `BadField` where a length is not a number or is above its limit, else `UnknownName` where its task or a resource is
/// not declared.
pub fn event_of(
    resources: &NameTable,
    tasks: &NameTable,
    word: Word,
    fields: &ByteRecord,
) -> Result<EventTold, Code>
    requires form { IsOf word (fields_of fields.now) }
    requires event { is_event word ≡ true }
    ensures told { IfOk result (λ told. (e : Event) × Says (names_by resources.now tasks.now) word (fields_of fields.now) (Happens e) × IsTold told e) }
    ensures wrong { IfErr result (λ code. IsWrong (names_by resources.now tasks.now) word (fields_of fields.now) code) }
{
    if let Word::Issue(kind) = word {
        return issue_of(resources, tasks, kind, fields);
    }
    let Some(seat) = tasks.number_of(field_of(fields, 1)) else {
        return Err(Code::UnknownName);
    };
    match word {
        Word::Finish => Ok(EventTold::Event(Event::Finish { seat })),
        Word::Rise => Ok(EventTold::Event(Event::Rise { seat })),
        _ => match set_of(resources, field_of(fields, 2)) {
            Some(set) => Ok(EventTold::Event(Event::Ask { seat, set })),
            None => Err(Code::UnknownName),
        },
    }
}

/// The seat in the record of a finish, by the names that are declared. No memory is taken.
///
/// # Errors
///
/// `UnknownName` where its task is not declared.
#[inline]
pub fn finish_of(resources: &NameTable, tasks: &NameTable, fields: &ByteRecord) -> Result<u8, Code>
    requires { IsOf Word.Finish (fields_of fields.now) }
    ensures told { IfOk result (λ seat. Says (names_by resources.now tasks.now) Word.Finish (fields_of fields.now) (Happens (Event.Finish seat))) }
    ensures wrong { IfErr result (λ code. IsWrong (names_by resources.now tasks.now) Word.Finish (fields_of fields.now) code) }
{
    match tasks.number_of(field_of(fields, 1)) {
        Some(seat) => Ok(seat),
        None => Err(Code::UnknownName),
    }
}

// What the record of an issue of this kind says.
fn issue_of(
    resources: &NameTable,
    tasks: &NameTable,
    kind: Kind,
    fields: &ByteRecord,
) -> Result<EventTold, Code>
    requires { IsOf (Word.Issue kind) (fields_of fields.now) }
    ensures told { IfOk result (λ told. (e : Event) × Says (names_by resources.now tasks.now) (Word.Issue kind) (fields_of fields.now) (Happens e) × IsTold told e) }
    ensures wrong { IfErr result (λ code. IsWrong (names_by resources.now tasks.now) (Word.Issue kind) (fields_of fields.now) code) }
{
    if is_plain(kind) {
        return plain_issue_of(resources, tasks, kind, fields);
    }
    let Some(lengths) = lengths_of(kind, fields, FIRST_SET) else {
        return Err(Code::BadField);
    };
    let Some(seat) = tasks.number_of(field_of(fields, 1)) else {
        return Err(Code::UnknownName);
    };
    let Some(sets) = sets_of(resources, kind, fields, FIRST_SET) else {
        return Err(Code::UnknownName);
    };
    match request_of(kind, &sets, &lengths) {
        Ok(request) => Ok(EventTold::Event(Event::Issue { seat, request })),
        Err(cause) => Ok(EventTold::Refused(cause)),
    }
}

// Whether the record of a request of this kind has one set and one length.
#[inline]
fn is_plain(kind: Kind) -> bool
    ensures { result ≡ is_plain kind }
{
    match kind {
        Kind::Read | Kind::Write => true,
        Kind::Mixed | Kind::Upgrade | Kind::Nested => false,
    }
}

// The same for an issue whose record has one set and one length, as most do: each field has its place here, and the
// kind is not asked.
#[inline]
fn plain_issue_of(
    resources: &NameTable,
    tasks: &NameTable,
    kind: Kind,
    fields: &ByteRecord,
) -> Result<EventTold, Code>
    requires form { IsOf (Word.Issue kind) (fields_of fields.now) }
    requires plain { is_plain kind ≡ true }
    ensures told { IfOk result (λ told. (e : Event) × Says (names_by resources.now tasks.now) (Word.Issue kind) (fields_of fields.now) (Happens e) × IsTold told e) }
    ensures wrong { IfErr result (λ code. IsWrong (names_by resources.now tasks.now) (Word.Issue kind) (fields_of fields.now) code) }
{
    let Some(len) = length_of(field_of(fields, 4)) else {
        return Err(Code::BadField);
    };
    let Some(seat) = tasks.number_of(field_of(fields, 1)) else {
        return Err(Code::UnknownName);
    };
    let Some(set) = set_of(resources, field_of(fields, 3)) else {
        return Err(Code::UnknownName);
    };
    let sets = RequestSets {
        reads: set,
        writes: set,
        first: ResourceSet::empty(),
    };
    let lengths = RequestLengths { len, later: 0 };
    match request_of(kind, &sets, &lengths) {
        Ok(request) => Ok(EventTold::Event(Event::Issue { seat, request })),
        Err(cause) => Ok(EventTold::Refused(cause)),
    }
}

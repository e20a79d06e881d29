// What is wrong with a text that is not an event list or not a report.
use rclaim::RequestErr;
use rmodel::Refused;

/// Why an event is refused.
#[derive(Clone, Copy, Debug, PartialEq, Eq)]
pub enum Refusal {
    /// By its request alone.
    Request(RequestErr),
    /// By the lock, in the state after the events before it.
    Step(Refused),
}

/// What is wrong with a record. Of several causes the first in this order is reported.
#[derive(Clone, Copy, Debug, PartialEq, Eq)]
pub enum Code {
    /// It is not a record of this kind of input; a name that it declares is bad, repeated or past the limit; a group
    /// has no member or is past the limit; or one of its numbers is not a number or is outside its limits.
    BadField,
    /// It names a task or a resource that is not declared.
    UnknownName,
    /// It may not come at this place.
    BadOrder,
    /// Its event is refused.
    Refused(Refusal),
    /// A line of a change or a wait is due and it is not that line, or it is such a line and none is due.
    WrongChange,
    /// It is an act whose number or answer is wrong, or that the section may not do there.
    WrongShow,
    /// It is a ledger and not the one that is due, or it is the end and a ledger is due.
    WrongLedger,
    /// The records end without `end`.
    NoEnd,
    /// The bound on the line of a wait is not its bound. It is reported only where no record has another fault.
    WrongBound,
}

/// The first fault of a text.
#[derive(Clone, Copy, Debug, PartialEq, Eq)]
pub struct Fault<C = Code> {
    /// The number of the faulty record, counted from 1; where the end is missing, the number of records plus 1.
    pub line: u64,
    /// The first thing that is wrong with it.
    pub code: C,
}

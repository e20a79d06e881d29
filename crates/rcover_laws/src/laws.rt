//! What holds of every wait, over every list of accepted events. Each function is a theorem: it does nothing, and its
//! contract is the law.
ghost use Rattle.rcover_laws.specs.Promises.{ReadsAreCovered, WritesAreCovered, AsksAreCovered, WaitsAreWithinBounds, EachWaitIsBounded};
ghost use Rattle.rcover_laws.specs.EndedCovers.{EndedWaitsAreCovered};

/// *Read waits are covered*: while a read claim waits, one and the same write keeps it waiting. A section that reads what that
/// write writes goes on until the write is satisfied; then the write's own section goes on.
pub fn reads_are_covered()
    ensures { ReadsAreCovered }
{}

/// *Write waits are covered*: while a write claim waits, the least claim of its line only rises, and each such least claim but
/// the claim itself belongs to a different task. For each, a read section goes on until it is satisfied; then its own section
/// goes on.
pub fn writes_are_covered()
    ensures { WritesAreCovered }
{}

/// *Asks are covered*: while an ask is pending, one section goes on that reads what the asker asks to write.
pub fn asks_are_covered()
    ensures { AsksAreCovered }
{}

/// *No wait goes above its bound*: for each wait, ended or not, no number of its cover is above that of the bound of its request,
/// by the needs of any history that begins with the events so far.
pub fn waits_are_within_bounds()
    ensures { WaitsAreWithinBounds }
{}

/// *Each wait is bounded*: for each claim of each state that accepted events lead to, the wait that the state shows is covered
/// over its moments so far, and no number of its cover is above that of its bound.
pub fn each_wait_is_bounded()
    ensures { EachWaitIsBounded }
{}

/// *What is reported of a wait is its cover*: for each wait that an event ends, the numbers are those of sections that cover it. At
/// each moment of the wait one of these sections goes on.
pub fn ended_waits_are_covered()
    ensures { EndedWaitsAreCovered }
{}

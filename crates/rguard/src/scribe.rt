//! A turn that reads the history.
ghost use Rattle.std.specs.Prelude.{◌≡◌, ◌≤◌, ◌++◌, [], map, drop, length, IfOk, IfErr, OnOk, OnErr};
ghost use Rattle.rguard.specs.Seats.{Goes, IsOneTurn};
ghost use Rattle.rguard.specs.Scribes.{IsScribeOf, HasReadLawful, events_from};

use crate::counted::CountedGate;
use rclaim::Event;
use rlock::Pass;
use rmodel::Machine;
use rstate::State;
use rvalue::{Editable, Entry};
use std::alloc::AllocError;
use std::sync::Wait;

/// A pass at the gate of a runtime that is no seat: a right to read the history.
pub type Scribe<T, M> = Pass<State<T, M>>;

/// Reads, in one turn, the events of the history from a position on that the scribe has seen.
///
/// # Errors
///
/// Out of memory. Nothing was read, and the scribe comes back, having seen the history as it was at the turn.
pub fn read_on<R: Wait, T: Editable, M: Machine>(
    lock: &CountedGate<State<T, M>, T>,
    rt: &R,
    scribe: Scribe<T, M>,
    from: usize,
    into: &mut Vec<Event>,
) -> Result<Scribe<T, M>, (Scribe<T, M>, AllocError)>
    requires of { IsScribeOf lock.now scribe }
    requires from { from ≤ length scribe.seen }
    ensures of { IfOk result (IsScribeOf lock.now) }
    ensures goes { IfOk result (Goes scribe []) }
    ensures turn { IfOk result (IsOneTurn scribe []) }
    ensures lawful { IfOk result (HasReadLawful T.after T.taken T.number) }
    ensures read { IfOk result (λ s. into.new.items ≡ into.old.items ++ events_from from s.seen) }
    ensures of_err { IfErr result (λ e. IsScribeOf lock.now e.0) }
    ensures goes_err { IfErr result (λ e. Goes scribe [] e.0) }
    ensures lawful_err { IfErr result (λ e. HasReadLawful T.after T.taken T.number e.0) }
    ensures err { OnErr result (into.new.items ≡ into.old.items) }
{
    let mut turn = lock.gate.enter(rt, scribe);
    let state = turn.state();
    let done = add_events(state.history().entries(), from, into);
    let scribe = lock.gate.leave(turn);
    match done {
        Ok(()) => Ok(scribe),
        Err(e) => Err((scribe, e)),
    }
}

// Adds the events of the entries from a position on.
fn add_events<E>(entries: &[Entry<E>], from: usize, into: &mut Vec<Event>) -> Result<(), AllocError>
    requires { from ≤ length entries.now }
    ensures ok { OnOk result (into.new.items ≡ into.old.items ++ events_from from entries.now) }
    ensures err { OnErr result (into.new.items ≡ into.old.items) }
{
    let more = &entries[from..];
    into.reserve(more.len())?;
    for entry in more {
        into.push_reserved(entry.event);
    }
    Ok(())
}

//! Two threads that make sections at a watched runtime.
ghost use Rattle.std.specs.Prelude.{◌≡◌, ℕ, ◌*◌, ◌<◌, [], ◌∷◌, IfSome, IfOk, Some, length, slice_get};
ghost use Rattle.rvalue.specs.declared.ledger.Edit.{Edit};
ghost use Rattle.rguard.specs.Seats.{SeatOf};
ghost use Rattle.watched_example.specs.Sections.{IsAtRest, HasMade, IsNew};
ghost use Rattle.watched_example.specs.Watching.{HaveSeen, IsEnd};

use crate::section::make_all;
use rexpand::Groups;
use rguard::{Rnlp, Seat};
use rmodel::Machine;
use rplain::Plain;
use rset::RESOURCES;
use rvalue::Ledger;
use rwatch::Audience;
use rwatching::Watching;
use std::alloc::{AllocError, Global};
use std::sync::Wait;
use std::thread;
use std::thread::Threads;

// A runtime that this audience watches.
type Watched<A> = Rnlp<Ledger, Watching<Plain, A>>;

// A seat at it.
type Place<A> = Seat<Ledger, Watching<Plain, A>>;

// A runtime over a ledger for each resource, which this audience watches, and its two seats, which have done nothing.
fn opened<A: Audience>(
    alloc: Global,
    audience: A,
) -> Result<(Watched<A>, Vec<Place<A>>), AllocError>
    ensures passes { IfOk result (λ r. r.0.passes ≡ 2) }
    ensures count { IfOk result (λ r. length r.1.items ≡ 2) }
    ensures new { IfOk result (λ r. (k : ℕ) (seat : SeatOf Ledger Edit) → k < 2 → slice_get r.1.items k ≡ Some seat → IsNew (A.all audience) r.0 k seat) }
{
    let groups = Groups::new(alloc, RESOURCES as u8)?;
    let machine = Plain::new(alloc, groups, 2, 2)?;
    let values = vec![in alloc; Ledger::new(); RESOURCES as usize]?;
    let (lock, seats) = Watched::<A>::new_watched(alloc, machine, values, 2, audience)?;
    Ok((lock, seats))
}

// The two seats.
fn two_of<M: Machine>(mut seats: Vec<Seat<Ledger, M>>) -> Option<(Seat<Ledger, M>, Seat<Ledger, M>)>
    requires { length seats.items ≡ 2 }
    ensures first { IfSome result (λ r. slice_get seats.items 0 ≡ Some r.0) }
    ensures second { IfSome result (λ r. slice_get seats.items 1 ≡ Some r.1) }
{
    let second = seats.pop()?;
    let first = seats.pop()?;
    Some((first, second))
}

// Both seats make this many sections, each on a thread of its own. None if a section was not made.
fn both<R: Threads + Wait + Sync, M: Machine>(
    rt: &R,
    alloc: Global,
    lock: &Rnlp<Ledger, M>,
    first: Seat<Ledger, M>,
    second: Seat<Ledger, M>,
    times: u32,
) -> Option<(Seat<Ledger, M>, Seat<Ledger, M>)>
    requires first { IsAtRest lock.now first }
    requires second { IsAtRest lock.now second }
    ensures rest { IfSome result (λ r. IsAtRest lock.now r.0 × IsAtRest lock.now r.1) }
    ensures made { IfSome result (λ r. HasMade times first r.0 × HasMade times second r.1) }
{
    let (first, second) = thread::join(
        rt,
        || -> Option<Seat<Ledger, M>>
            requires { IsAtRest lock.now first }
            ensures { IfSome result (λ later. IsAtRest lock.entry.now later × HasMade times first later) }
        { make_all(rt, alloc, lock, first, times) },
        || -> Option<Seat<Ledger, M>>
            requires { IsAtRest lock.now second }
            ensures { IfSome result (λ later. IsAtRest lock.entry.now later × HasMade times second later) }
        { make_all(rt, alloc, lock, second, times) },
    );
    Some((first?, second?))
}

// The two seats in a list.
fn pair_of<M: Machine>(
    alloc: Global,
    first: Seat<Ledger, M>,
    second: Seat<Ledger, M>,
) -> Result<Vec<Seat<Ledger, M>>, AllocError>
    ensures { IfOk result (λ v. v.items ≡ first ∷ second ∷ []) }
{
    let mut seats = Vec::new(alloc);
    seats.push(first)?;
    seats.push(second)?;
    Ok(seats)
}

// Closes the runtime with its two seats: the audience, which was given the steps of its history. None if memory ran out.
fn closed<A: Audience>(
    alloc: Global,
    lock: Watched<A>,
    first: Place<A>,
    second: Place<A>,
) -> Option<A>
    requires passes { lock.passes ≡ 2 }
    requires first { IsAtRest lock first × (first.number ≡ 0) }
    requires second { IsAtRest lock second × (second.number ≡ 1) }
    ensures { IfSome result (λ audience. IsEnd first second (A.all audience)) }
{
    let Ok(seats) = pair_of(alloc, first, second) else {
        return None;
    };
    let (_, audience) = lock.close_watched(seats);
    audience
}

/// Two threads make this many sections each at a runtime that an audience watches: the audience afterwards. It was given
/// just the steps of the history, of which two times as many are issues. None if a section was not made or memory ran out.
pub fn watched<R: Threads + Wait + Sync, A: Audience>(
    rt: &R,
    alloc: Global,
    audience: A,
    times: u32,
) -> Option<A>
    ensures { IfSome result (λ after. HaveSeen (2 * times) (A.all audience) (A.all after)) }
{
    let Ok((lock, seats)) = opened(alloc, audience) else {
        return None;
    };
    let (first, second) = two_of(seats)?;
    let (first, second) = both(rt, alloc, &lock, first, second, times)?;
    closed(alloc, lock, first, second)
}

//! Out of memory, call by call: each call that found no memory is made again, and the end is as if it had found some.
ghost use Rattle.std.specs.Prelude.{◌≡◌, true, All, IfOk, OnOk};
ghost use Rattle.std.specs.FinSet.{contains};
ghost use Rattle.rguard.specs.Resting.{Rests, all_with};

use crate::closing::{Left, closed, ledger_of};
use crate::nesting::nest_in;
use crate::rising::{rise_in, write_one};
use crate::sections::{OPENING, Place, Runtime, opened, pop_seat, push_seat};
use rmodel::Machine;
use rplain::Plain;
use rset::ResourceSet;
use rvalue::{Edit, Ledger};
use std::alloc::{AllocError, Global};
use std::process::Abort;
use std::sync::Wait;
use std::test::Fail;

// Whether a write, a nested section and an upgrade, one after another over two resources, read and wrote what they should.
fn are_made<R: Wait + Abort, M: Machine>(
    rt: &R,
    alloc: Global,
    lock: &Runtime<M>,
    group: ResourceSet,
    seats: &mut Vec<Place<M>>,
) -> Result<bool, AllocError>
    requires rest { All (Rests (all_with group) lock.now) seats.old.items }
    requires first { contains group 0 ≡ true }
    ensures { OnOk result (All (Rests (all_with group) lock.now) seats.new.items) }
{
    let one = pop_seat(rt, lock, group, seats);
    let zero = pop_seat(rt, lock, group, seats);
    let (zero, written) = write_one(rt, alloc, lock, zero, group, 0, Edit::Add(5));
    let (one, nested) = nest_in(rt, alloc, lock, one, group, 0, 1);
    let (zero, risen) = rise_in(rt, alloc, lock, zero, group, 0, Edit::Take(2));
    push_seat(lock, group, seats, zero)?;
    push_seat(lock, group, seats, one)?;
    Ok(written && nested == Some(OPENING + 1) && risen == Some(OPENING + 6))
}

// A runtime with two seats, made a second time if there was no memory at first.
fn opened_again(
    alloc: Global,
    group: ResourceSet,
) -> Result<(Runtime<Plain>, Vec<Place<Plain>>), AllocError>
    ensures count { IfOk result (λ r. r.0.passes ≡ 2) }
    ensures seats { IfOk result (λ r. All (Rests (all_with group) r.0) r.1.items) }
{
    match opened(alloc, group, 2) {
        Ok(made) => Ok(made),
        Err(_) => opened(alloc, group, 2),
    }
}

// Whether these sections at a runtime of their own read and wrote what they should, and what is left of the runtime.
fn left_by_sections<R: Wait + Abort>(
    rt: &R,
    alloc: Global,
) -> Result<(bool, Left<Ledger>), AllocError> {
    let both = ResourceSet::one(0).with(1);
    let (lock, mut seats) = opened_again(alloc, both)?;
    let right = are_made(rt, alloc, &lock, both, &mut seats)?;
    Ok((right, closed(rt, lock, both, seats, 2)))
}

#[test]
fn each_call_is_made_again_that_found_no_memory(rt: HostRuntime) -> Result<(), Fail> {
    let (right, left) = left_by_sections(&rt, rt.alloc())?;
    let (first, second) = (ledger_of(&rt, &left, 0), ledger_of(&rt, &left, 1));
    assert!(rt;
        right
            && left.history.len() == 8
            && first.balance == OPENING + 4
            && first.edits == 3
            && second.balance == OPENING + 1
            && second.edits == 1
    );
    Ok(())
}

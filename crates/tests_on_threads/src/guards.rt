//! Guards on one thread.
ghost use Rattle.std.specs.Prelude.{◌≡◌, All, OnOk};
ghost use Rattle.rguard.specs.Resting.{IsAt, Rests, all_with};

use crate::closing::{Left, closed, ledger_of};
use crate::looks::{begin_to_read, look_to_read, wait_to_read};
use crate::sections::{
    OPENING, Place, Runtime, edit_each, ended, opened, pop_seat, push_seat, sum_of, to_write,
};
use rguard::WriteGuard;
use rmodel::Machine;
use rset::ResourceSet;
use rvalue::{Edit, Ledger};
use std::alloc::{AllocError, Global};
use std::process::Abort;
use std::sync::Wait;
use std::test::Fail;

// What a reader reads that begins to wait while another adds 5 to what is declared together, and ends that section with
// its acts or without them; and how often the reader looked too early. None if there was no memory.
fn read_behind<R: Wait, M: Machine>(
    rt: &R,
    alloc: Global,
    lock: &Runtime<M>,
    writer: Place<M>,
    reader: Place<M>,
    group: ResourceSet,
    keep: bool,
) -> (Place<M>, Place<M>, Option<(u64, u32)>)
    requires writer { Rests (all_with group) lock.now writer }
    requires reader { Rests (all_with group) lock.now reader }
    ensures writer { Rests (all_with group) lock.now result.0 }
    ensures reader { Rests (all_with group) lock.now result.1 }
{
    let mut guard = match to_write(rt, alloc, lock, writer, group, group) {
        Ok(guard) => guard,
        Err(writer) => return (writer, reader, None),
    };
    let _ = edit_each(alloc, &mut guard, group, Edit::Add(5));
    let wait = match begin_to_read(rt, alloc, lock, reader, group) {
        Ok(wait) => wait,
        Err(reader) => return (guard.discard(rt), reader, None),
    };
    match look_to_read(rt, lock, wait, group) {
        Ok(early) => (guard.discard(rt), early.discard(rt), None),
        Err(wait) => {
            let (writer, _) = spent(rt, alloc, lock, group, guard, keep);
            let (guard, early) = wait_to_read(rt, lock, wait.rest(rt), group);
            let sum = sum_of(&guard, group);
            (writer, guard.finish(rt), Some((sum, early)))
        }
    }
}

// Ends a section with its acts, or without them.
fn spent<R: Wait, M: Machine>(
    rt: &R,
    alloc: Global,
    lock: &Runtime<M>,
    group: ResourceSet,
    guard: WriteGuard<'_, Ledger, M>,
    keep: bool,
) -> (Place<M>, bool)
    requires { IsAt (all_with group) lock.now guard.seat }
    ensures { Rests (all_with group) lock.now result.0 }
{
    if keep {
        ended(rt, alloc, lock, group, guard, true)
    } else {
        (guard.discard(rt), true)
    }
}

// Two readings after a writer, which ends its section the first time with its acts, and the second time without them.
fn read_twice<R: Wait + Abort, M: Machine>(
    rt: &R,
    alloc: Global,
    lock: &Runtime<M>,
    group: ResourceSet,
    seats: &mut Vec<Place<M>>,
) -> Result<(Option<(u64, u32)>, Option<(u64, u32)>), AllocError>
    requires { All (Rests (all_with group) lock.now) seats.old.items }
    ensures { OnOk result (All (Rests (all_with group) lock.now) seats.new.items) }
{
    let one = pop_seat(rt, lock, group, seats);
    let zero = pop_seat(rt, lock, group, seats);
    let (zero, one, kept) = read_behind(rt, alloc, lock, zero, one, group, true);
    let (zero, one, dropped) = read_behind(rt, alloc, lock, zero, one, group, false);
    push_seat(lock, group, seats, zero)?;
    push_seat(lock, group, seats, one)?;
    Ok((kept, dropped))
}

// Whether both readings at a runtime of their own gave what the writer had kept, and what is left of the runtime.
fn left_by_readings<R: Wait + Abort>(
    rt: &R,
    alloc: Global,
) -> Result<(bool, Left<Ledger>), AllocError> {
    let a = ResourceSet::one(0);
    let (lock, mut seats) = opened(alloc, a, 2)?;
    let (kept, dropped) = read_twice(rt, alloc, &lock, a, &mut seats)?;
    let read = Some((OPENING + 5, 0));
    let right = kept == read && dropped == read;
    Ok((right, closed(rt, lock, a, seats, 2)))
}

#[test]
fn readers_wait_for_a_writer(rt: HostRuntime) -> Result<(), Fail> {
    let (right, left) = left_by_readings(&rt, rt.alloc())?;
    let ledger = ledger_of(&rt, &left, 0);
    assert!(rt; right && left.history.len() == 8 && ledger.edits == 1);
    Ok(())
}

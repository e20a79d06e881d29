//! Sections that add 1 to the record.
ghost use Rattle.std.specs.Prelude.{◌≡◌, ◌++◌, IsTrue, IfSome};
ghost use Rattle.rguard.specs.Resting.{MayWriteAll};
ghost use Rattle.rguard.specs.Sections.{write_of, HasEntered, MadeSection};
ghost use Rattle.watched_example.specs.Sections.{the_record, one_added, IsAtRest, HasMade};

use rclaim::{Kind, Request};
use rguard::{Guard, Rnlp, Seat, WriteGuard};
use rmodel::Machine;
use rset::ResourceSet;
use rvalue::{Edit, Ledger};
use std::alloc::Global;
use std::sync::Wait;

// The number of the record that all sections write.
const RECORD: u8 = 0;

// A guard to write the record. None if there was no memory.
fn to_write<'a, R: Wait, M: Machine>(
    rt: &R,
    alloc: Global,
    lock: &'a Rnlp<Ledger, M>,
    seat: Seat<Ledger, M>,
) -> Option<WriteGuard<'a, Ledger, M>>
    requires { IsAtRest lock.now seat }
    ensures writes { IfSome result (λ guard. MayWriteAll the_record guard.seat) }
    ensures entered { IfSome result (HasEntered (write_of the_record) seat) }
{
    let none = ResourceSet::empty();
    let set = ResourceSet::one(RECORD);
    // Reading a set shows the proof that it is a set of resources.
    let _ = set.len();
    let Ok(request) = Request::new(Kind::Write, none, set, none, 1, 0) else {
        return None;
    };
    match lock.acquire(rt, alloc, seat, request) {
        Ok(Guard::Write(guard)) => {
            // Reading its seat shows the proof what is known about every seat.
            let _ = guard.seat();
            Some(guard)
        }
        Err(_) => None,
        _ => unreachable!(),
    }
}

// Adds 1 to the record, and answers whether it took that.
fn add_one<M: Machine>(alloc: Global, guard: &mut WriteGuard<'_, Ledger, M>) -> bool
    requires { MayWriteAll the_record guard.old.seat }
    ensures seat { guard.new.seat ≡ guard.old.seat }
    ensures acts { IsTrue result → guard.new.acts ≡ guard.old.acts ++ one_added }
{
    match guard.edit(alloc, RECORD, Edit::Add(1)) {
        Ok(true) => true,
        _ => false,
    }
}

// One section: adds 1 to the record. None if there was no memory, or the record did not take it.
fn add_in<R: Wait, M: Machine>(
    rt: &R,
    alloc: Global,
    lock: &Rnlp<Ledger, M>,
    seat: Seat<Ledger, M>,
) -> Option<Seat<Ledger, M>>
    requires { IsAtRest lock.now seat }
    ensures rests { IfSome result (IsAtRest lock.now) }
    ensures made { IfSome result (MadeSection (write_of the_record) one_added seat) }
{
    let mut guard = to_write(rt, alloc, lock, seat)?;
    if !add_one(alloc, &mut guard) {
        guard.discard(rt);
        return None;
    }
    match guard.finish(rt, alloc) {
        Ok(seat) => Some(seat),
        Err((guard, _)) => {
            guard.discard(rt);
            None
        }
    }
}

/// This many sections of a seat, each of which adds 1 to the record: the seat afterwards. None if a section was not made,
/// because memory ran out or the record did not take its 1.
pub fn make_all<R: Wait, M: Machine>(
    rt: &R,
    alloc: Global,
    lock: &Rnlp<Ledger, M>,
    seat: Seat<Ledger, M>,
    times: u32,
) -> Option<Seat<Ledger, M>>
    requires { IsAtRest lock.now seat }
    ensures rests { IfSome result (IsAtRest lock.now) }
    ensures made { IfSome result (HasMade times seat) }
{
    let mut seat = seat;
    for _made in 0..times {
        match add_in(rt, alloc, lock, seat) {
            Some(next) => seat = next,
            None => return None,
        }
    }
    Some(seat)
}

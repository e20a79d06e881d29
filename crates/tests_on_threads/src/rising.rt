//! Sections of a write request and of an upgrade, where each call that found no memory is made again.
ghost use Rattle.std.specs.Prelude.{◌≡◌, true, IfOk, IfErr};
ghost use Rattle.std.specs.FinSet.{contains};
ghost use Rattle.rguard.specs.Guards.{Holding, HoldingToWrite};
ghost use Rattle.rguard.specs.Resting.{IsAt, Rests, HoldsAll, MayWriteAll, all_with};
ghost use Rattle.tests_on_threads.specs.Begun.{raising, HasBegunLast};

use crate::sections::{Place, Runtime, ended, to_write};
use rclaim::{Kind, Request};
use rguard::{Guard, RiseGuard, WriteGuard};
use rmodel::Machine;
use rset::ResourceSet;
use rvalue::{Edit, Ledger};
use std::alloc::Global;
use std::sync::Wait;

/// A guard that reads what is declared together, and may rise; or the seat, if there was no memory.
fn to_rise<'a, R: Wait, M: Machine>(
    rt: &R,
    alloc: Global,
    lock: &'a Runtime<M>,
    seat: Place<M>,
    group: ResourceSet,
) -> Result<RiseGuard<'a, Ledger, M>, Place<M>>
    requires { Rests (all_with group) lock.now seat }
    ensures at { IfOk result (λ guard. IsAt (all_with group) lock.entry.now guard.seat) }
    ensures begun { IfOk result (λ guard. HasBegunLast (raising group) guard.seat) }
    ensures reads { IfOk result (λ guard. HoldsAll group guard.seat) }
    ensures err { IfErr result (Rests (all_with group) lock.entry.now) }
{
    let _ = group.len();
    let Ok(request) = Request::new(Kind::Upgrade, group, group, group, 1, 1) else {
        return Err(seat);
    };
    match lock.acquire(rt, alloc, seat, request) {
        Ok(Guard::Rise(guard)) => {
            let _ = guard.seat();
            Ok(guard)
        }
        Err((seat, _)) => Err(seat),
        _ => unreachable!(),
    }
}

// The same, a second time if there was no memory at first.
fn to_rise_again<'a, R: Wait, M: Machine>(
    rt: &R,
    alloc: Global,
    lock: &'a Runtime<M>,
    seat: Place<M>,
    group: ResourceSet,
) -> Result<RiseGuard<'a, Ledger, M>, Place<M>>
    requires { Rests (all_with group) lock.now seat }
    ensures at { IfOk result (λ guard. IsAt (all_with group) lock.entry.now guard.seat) }
    ensures begun { IfOk result (λ guard. HasBegunLast (raising group) guard.seat) }
    ensures reads { IfOk result (λ guard. HoldsAll group guard.seat) }
    ensures err { IfErr result (Rests (all_with group) lock.entry.now) }
{
    match to_rise(rt, alloc, lock, seat, group) {
        Ok(guard) => Ok(guard),
        Err(seat) => to_rise(rt, alloc, lock, seat, group),
    }
}

// A guard to write what is declared together, a second time if there was no memory at first.
fn to_write_again<'a, R: Wait, M: Machine>(
    rt: &R,
    alloc: Global,
    lock: &'a Runtime<M>,
    seat: Place<M>,
    group: ResourceSet,
) -> Result<WriteGuard<'a, Ledger, M>, Place<M>>
    requires { Rests (all_with group) lock.now seat }
    ensures at { IfOk result (λ guard. IsAt (all_with group) lock.entry.now guard.seat) }
    ensures writes { IfOk result (λ guard. MayWriteAll group guard.seat) }
    ensures err { IfErr result (Rests (all_with group) lock.entry.now) }
{
    match to_write(rt, alloc, lock, seat, group, group) {
        Ok(guard) => Ok(guard),
        Err(seat) => to_write(rt, alloc, lock, seat, group, group),
    }
}

// Shows a resource, a second time if there was no memory at first.
fn shown<M: Machine>(alloc: Global, guard: &mut RiseGuard<'_, Ledger, M>, place: u8) -> Option<u64>
    requires { Holding guard.old.seat place }
    ensures { guard.new.seat ≡ guard.old.seat }
{
    match guard.show(alloc, place) {
        Ok(number) => Some(number),
        Err(_) => guard.show(alloc, place).ok(),
    }
}

// Rises, and waits to write what was read.
fn risen<'a, R: Wait, M: Machine>(
    rt: &R,
    lock: &Runtime<M>,
    guard: RiseGuard<'a, Ledger, M>,
    group: ResourceSet,
) -> WriteGuard<'a, Ledger, M>
    requires at { IsAt (all_with group) lock.now guard.seat }
    requires begun { HasBegunLast (raising group) guard.seat }
    ensures at { IsAt (all_with group) lock.now result.seat }
    ensures writes { MayWriteAll group result.seat }
{
    let _ = lock;
    let _ = group.len();
    let guard = guard.rise(rt);
    let _ = guard.seat();
    guard
}

// Edits a resource, a second time if there was no memory at first. Whether the edit was taken.
fn edited<M: Machine>(
    alloc: Global,
    guard: &mut WriteGuard<'_, Ledger, M>,
    place: u8,
    edit: Edit,
) -> bool
    requires { HoldingToWrite guard.old.seat place }
    ensures { guard.new.seat ≡ guard.old.seat }
{
    match guard.edit(alloc, place, edit) {
        Ok(done) => done,
        Err(_) => matches!(guard.edit(alloc, place, edit), Ok(true)),
    }
}

// Edits a resource and ends the section, each a second time if there was no memory at first. Whether both were done.
fn edited_last<R: Wait, M: Machine>(
    rt: &R,
    alloc: Global,
    lock: &Runtime<M>,
    group: ResourceSet,
    guard: WriteGuard<'_, Ledger, M>,
    place: u8,
    edit: Edit,
) -> (Place<M>, bool)
    requires at { IsAt (all_with group) lock.now guard.seat }
    requires writes { HoldingToWrite guard.seat place }
    ensures { Rests (all_with group) lock.now result.0 }
{
    let mut guard = guard;
    let done = edited(alloc, &mut guard, place, edit);
    match guard.finish(rt, alloc) {
        Ok(seat) => (seat, done),
        Err((guard, _)) => ended(rt, alloc, lock, group, guard, done),
    }
}

/// One section that edits one of the resources that are declared together. Each call is made a second time if it found
/// no memory. Answers whether all was done.
pub fn write_one<R: Wait, M: Machine>(
    rt: &R,
    alloc: Global,
    lock: &Runtime<M>,
    seat: Place<M>,
    group: ResourceSet,
    place: u8,
    edit: Edit,
) -> (Place<M>, bool)
    requires rests { Rests (all_with group) lock.now seat }
    requires there { contains group place ≡ true }
    ensures { Rests (all_with group) lock.now result.0 }
{
    match to_write_again(rt, alloc, lock, seat, group) {
        Ok(guard) => edited_last(rt, alloc, lock, group, guard, place, edit),
        Err(seat) => (seat, false),
    }
}

/// One section that shows one of the resources that are declared together, rises, and edits it: what was shown. Each
/// call is made a second time if it found no memory; None if it found none again.
pub fn rise_in<R: Wait, M: Machine>(
    rt: &R,
    alloc: Global,
    lock: &Runtime<M>,
    seat: Place<M>,
    group: ResourceSet,
    place: u8,
    edit: Edit,
) -> (Place<M>, Option<u64>)
    requires rests { Rests (all_with group) lock.now seat }
    requires there { contains group place ≡ true }
    ensures { Rests (all_with group) lock.now result.0 }
{
    match to_rise_again(rt, alloc, lock, seat, group) {
        Ok(mut guard) => {
            let number = shown(alloc, &mut guard, place);
            let guard = risen(rt, lock, guard, group);
            let (seat, done) = edited_last(rt, alloc, lock, group, guard, place, edit);
            (seat, number.filter(|_| done))
        }
        Err(seat) => (seat, None),
    }
}

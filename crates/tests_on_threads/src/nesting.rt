//! A section of a nested request, where each call that found no memory is made again.
ghost use Rattle.std.specs.Prelude.{◌≡◌, ◌<◌, IfOk, IfErr};
ghost use Rattle.rset.specs.declared.TheConstants.{RESOURCES};
ghost use Rattle.rguard.specs.Guards.{HoldingToWrite};
ghost use Rattle.rguard.specs.Resting.{IsAt, Rests, all_with};
ghost use Rattle.tests_on_threads.specs.Begun.{nesting, HasBegunLast};

use crate::sections::{Place, Runtime};
use rclaim::{Kind, Request};
use rguard::{Guard, NestGuard};
use rmodel::Machine;
use rset::ResourceSet;
use rvalue::{Edit, Ledger};
use std::alloc::Global;
use std::sync::Wait;

/// A guard that holds one resource for writing, and may ask for the other; or the seat, if there was no memory.
fn to_nest<'a, R: Wait, M: Machine>(
    rt: &R,
    alloc: Global,
    lock: &'a Runtime<M>,
    seat: Place<M>,
    group: ResourceSet,
    one: u8,
    other: u8,
) -> Result<NestGuard<'a, Ledger, M>, Place<M>>
    requires rests { Rests (all_with group) lock.now seat }
    requires one { one < RESOURCES }
    requires other { other < RESOURCES }
    ensures at { IfOk result (λ guard. IsAt (all_with group) lock.entry.now guard.seat) }
    ensures begun { IfOk result (λ guard. HasBegunLast (nesting one other) guard.seat) }
    ensures writes { IfOk result (λ guard. HoldingToWrite guard.seat one) }
    ensures err { IfErr result (Rests (all_with group) lock.entry.now) }
{
    let _ = group.len();
    let first = ResourceSet::one(one);
    let all = first.union(ResourceSet::one(other));
    let none = ResourceSet::empty();
    let Ok(request) = Request::new(Kind::Nested, none, all, first, 1, 0) else {
        return Err(seat);
    };
    match lock.acquire(rt, alloc, seat, request) {
        Ok(Guard::Nest(guard)) => {
            let _ = guard.seat();
            Ok(guard)
        }
        Err((seat, _)) => Err(seat),
        _ => unreachable!(),
    }
}

/// Asks for the other resource, and waits for it; or gives back the guard, if there was no memory.
fn asked<'a, R: Wait, M: Machine>(
    rt: &R,
    alloc: Global,
    lock: &Runtime<M>,
    group: ResourceSet,
    guard: NestGuard<'a, Ledger, M>,
    one: u8,
    other: u8,
) -> Result<NestGuard<'a, Ledger, M>, NestGuard<'a, Ledger, M>>
    requires one { one < RESOURCES }
    requires other { other < RESOURCES }
    requires at { IsAt (all_with group) lock.now guard.seat }
    requires begun { HasBegunLast (nesting one other) guard.seat }
    ensures at { IfOk result (λ later. IsAt (all_with group) lock.now later.seat) }
    ensures writes { IfOk result (λ later. HoldingToWrite later.seat other) }
    ensures still { IfErr result (λ later. IsAt (all_with group) lock.now later.seat) }
    ensures begun { IfErr result (λ later. HasBegunLast (nesting one other) later.seat) }
{
    let _ = lock;
    let _ = group.len();
    let part = ResourceSet::one(other);
    let _ = guard.seat();
    match guard.ask(rt, alloc, part) {
        Ok(guard) => {
            let _ = guard.seat();
            Ok(guard)
        }
        Err((guard, _)) => Err(guard),
    }
}

// Edits a resource, a second time if there was no memory at first. Whether the edit was taken.
fn edited<M: Machine>(
    alloc: Global,
    guard: &mut NestGuard<'_, Ledger, M>,
    place: u8,
    edit: Edit,
) -> bool
    requires { HoldingToWrite guard.old.seat place }
    ensures { guard.new.seat ≡ guard.old.seat }
{
    match guard.edit(alloc, place, edit) {
        Ok(done) => done,
        Err(_) => matches!(guard.edit(alloc, place, edit), Ok(true)),
    }
}

// Shows a resource, a second time if there was no memory at first.
fn shown<M: Machine>(alloc: Global, guard: &mut NestGuard<'_, Ledger, M>, place: u8) -> Option<u64>
    requires { HoldingToWrite guard.old.seat place }
    ensures { guard.new.seat ≡ guard.old.seat }
{
    match guard.show(alloc, place) {
        Ok(number) => Some(number),
        Err(_) => guard.show(alloc, place).ok(),
    }
}

// The guard, a second time if there was no memory at first.
fn to_nest_again<'a, R: Wait, M: Machine>(
    rt: &R,
    alloc: Global,
    lock: &'a Runtime<M>,
    seat: Place<M>,
    group: ResourceSet,
    one: u8,
    other: u8,
) -> Result<NestGuard<'a, Ledger, M>, Place<M>>
    requires rests { Rests (all_with group) lock.now seat }
    requires one { one < RESOURCES }
    requires other { other < RESOURCES }
    ensures at { IfOk result (λ guard. IsAt (all_with group) lock.entry.now guard.seat) }
    ensures begun { IfOk result (λ guard. HasBegunLast (nesting one other) guard.seat) }
    ensures writes { IfOk result (λ guard. HoldingToWrite guard.seat one) }
    ensures err { IfErr result (Rests (all_with group) lock.entry.now) }
{
    match to_nest(rt, alloc, lock, seat, group, one, other) {
        Ok(guard) => Ok(guard),
        Err(seat) => to_nest(rt, alloc, lock, seat, group, one, other),
    }
}

// Ends the section, a second time if there was no memory at first. Whether it ended with its acts.
fn finished<R: Wait, M: Machine>(
    rt: &R,
    alloc: Global,
    lock: &Runtime<M>,
    group: ResourceSet,
    guard: NestGuard<'_, Ledger, M>,
) -> (Place<M>, bool)
    requires { IsAt (all_with group) lock.now guard.seat }
    ensures { Rests (all_with group) lock.now result.0 }
{
    let _ = lock;
    let _ = group.len();
    match guard.finish(rt, alloc) {
        Ok(seat) => (seat, true),
        Err((guard, _)) => match guard.finish(rt, alloc) {
            Ok(seat) => (seat, true),
            Err((guard, _)) => (guard.discard(rt), false),
        },
    }
}

// The same, a second time if there was no memory at first.
fn asked_again<'a, R: Wait, M: Machine>(
    rt: &R,
    alloc: Global,
    lock: &Runtime<M>,
    group: ResourceSet,
    guard: NestGuard<'a, Ledger, M>,
    one: u8,
    other: u8,
) -> Result<NestGuard<'a, Ledger, M>, NestGuard<'a, Ledger, M>>
    requires one { one < RESOURCES }
    requires other { other < RESOURCES }
    requires at { IsAt (all_with group) lock.now guard.seat }
    requires begun { HasBegunLast (nesting one other) guard.seat }
    ensures at { IfOk result (λ later. IsAt (all_with group) lock.now later.seat) }
    ensures writes { IfOk result (λ later. HoldingToWrite later.seat other) }
    ensures still { IfErr result (λ later. IsAt (all_with group) lock.now later.seat) }
{
    match asked(rt, alloc, lock, group, guard, one, other) {
        Ok(guard) => Ok(guard),
        Err(guard) => asked(rt, alloc, lock, group, guard, one, other),
    }
}

// The rest of the section: it asks for the other resource, adds 1 to it and shows it.
fn went_on<R: Wait, M: Machine>(
    rt: &R,
    alloc: Global,
    lock: &Runtime<M>,
    group: ResourceSet,
    guard: NestGuard<'_, Ledger, M>,
    one: u8,
    other: u8,
) -> (Place<M>, Option<u64>)
    requires one { one < RESOURCES }
    requires other { other < RESOURCES }
    requires at { IsAt (all_with group) lock.now guard.seat }
    requires begun { HasBegunLast (nesting one other) guard.seat }
    ensures { Rests (all_with group) lock.now result.0 }
{
    match asked_again(rt, alloc, lock, group, guard, one, other) {
        Ok(mut guard) => {
            let done = edited(alloc, &mut guard, other, Edit::Add(1));
            let number = shown(alloc, &mut guard, other);
            let (seat, told) = finished(rt, alloc, lock, group, guard);
            (seat, number.filter(|_| done && told))
        }
        Err(guard) => (guard.discard(rt), None),
    }
}

/// One section that adds 1 to one resource, asks for the other, and adds 1 to that too: what the other shows then. Each
/// call is made a second time if it found no memory; None if it found none again.
pub fn nest_in<R: Wait, M: Machine>(
    rt: &R,
    alloc: Global,
    lock: &Runtime<M>,
    seat: Place<M>,
    group: ResourceSet,
    one: u8,
    other: u8,
) -> (Place<M>, Option<u64>)
    requires rests { Rests (all_with group) lock.now seat }
    requires one { one < RESOURCES }
    requires other { other < RESOURCES }
    ensures { Rests (all_with group) lock.now result.0 }
{
    match to_nest_again(rt, alloc, lock, seat, group, one, other) {
        Ok(mut guard) => {
            if !edited(alloc, &mut guard, one, Edit::Add(1)) {
                return (guard.discard(rt), None);
            }
            went_on(rt, alloc, lock, group, guard, one, other)
        }
        Err(seat) => (seat, None),
    }
}

//! Sections under guards at a runtime: over values of any type, and over ledgers.
ghost use Rattle.std.specs.Prelude.{◌≡◌, ℕ, ◌<◌, ◌≤◌, ◌≢◌, All, IsTrue, IfOk, OnOk, IfErr, length, [], ◌∷◌};
ghost use Rattle.std.specs.FinSet.{empty, contains};
ghost use Rattle.rset.specs.declared.TheConstants.{SEATS, RESOURCES};
ghost use Rattle.rguard.specs.Resting.{IsAt, Rests, HoldsAll, MayWriteAll, all_with};

use rclaim::{Kind, Request};
use rexpand::Groups;
use rguard::{Guard, ReadGuard, Rnlp, Seat, WriteGuard};
use rmodel::Machine;
use rplain::Plain;
use rset::{RESOURCES, ResourceSet};
use rvalue::{Edit, Editable, Ledger};
use std::alloc::{AllocError, Global};
use std::process::Abort;
use std::sync::Wait;

/// A runtime over ledgers.
pub type Runtime<M> = Rnlp<Ledger, M>;

/// A seat at it.
pub type Place<M> = Seat<Ledger, M>;

/// What is in each ledger at first.
pub const OPENING: u64 = 1_000_000;

/// A runtime over a ledger for each resource, where a set is declared, and its seats.
pub fn opened(
    alloc: Global,
    group: ResourceSet,
    seats: u8,
) -> Result<(Runtime<Plain>, Vec<Place<Plain>>), AllocError>
    requires some { 0 < seats }
    requires few { seats ≤ SEATS }
    ensures count { IfOk result (λ r. r.0.passes ≡ seats) }
    ensures seats { IfOk result (λ r. All (Rests (all_with group) r.0) r.1.items) }
{
    let values = ledgers(alloc)?;
    opened_over(alloc, group, values, seats)
}

/// A runtime over these values, one for each resource, where a set is declared, and its seats.
pub fn opened_over<T: Editable>(
    alloc: Global,
    group: ResourceSet,
    values: Vec<T>,
    seats: u8,
) -> Result<(Rnlp<T, Plain>, Vec<Seat<T, Plain>>), AllocError>
    requires some { 0 < seats }
    requires few { seats ≤ SEATS }
    requires values { length values.items ≡ RESOURCES }
    ensures count { IfOk result (λ r. r.0.passes ≡ seats) }
    ensures seats { IfOk result (λ r. All (Rests (all_with group) r.0) r.1.items) }
{
    let groups = declared(alloc, group)?;
    let machine = Plain::new(alloc, groups, seats, seats)?;
    let (lock, seats) = Rnlp::new(alloc, machine, values, seats)?;
    Ok((lock, seats))
}

/// Takes the last seat out of a list of resting seats.
pub fn pop_seat<T: Editable, M: Machine>(
    rt: &impl Abort,
    lock: &Rnlp<T, M>,
    group: ResourceSet,
    seats: &mut Vec<Seat<T, M>>,
) -> Seat<T, M>
    requires { All (Rests (all_with group) lock.now) seats.old.items }
    ensures seat { Rests (all_with group) lock.now result }
    ensures rest { All (Rests (all_with group) lock.now) seats.new.items }
{
    let _ = lock;
    let _ = group.len();
    seats.pop().expect(rt, "a seat")
}

/// Adds a resting seat after others.
pub fn push_seat<T: Editable, M: Machine>(
    lock: &Rnlp<T, M>,
    group: ResourceSet,
    seats: &mut Vec<Seat<T, M>>,
    seat: Seat<T, M>,
) -> Result<(), AllocError>
    requires seat { Rests (all_with group) lock.now seat }
    requires rest { All (Rests (all_with group) lock.now) seats.old.items }
    ensures { OnOk result (All (Rests (all_with group) lock.now) seats.new.items) }
{
    let _ = lock;
    let _ = group.len();
    seats.push(seat)?;
    Ok(())
}

// All resources, with the set declared.
pub fn declared(alloc: Global, group: ResourceSet) -> Result<Groups, AllocError>
    ensures { IfOk result (λ groups. groups ≡ record { q = RESOURCES; groups = group ∷ [] }) }
{
    let mut groups = Groups::new(alloc, RESOURCES as u8)?;
    let _ = group.len();
    match groups.declare(group) {
        Ok(()) => Ok(groups),
        Err(_) => Err(AllocError),
    }
}

/// A ledger for each resource.
pub fn ledgers(alloc: Global) -> Result<Vec<Ledger>, AllocError>
    ensures { IfOk result (λ v. length v.items ≡ RESOURCES) }
{
    let ledger = Ledger {
        balance: OPENING,
        edits: 0,
    };
    vec![in alloc; ledger; RESOURCES as usize]
}

/// A guard to write these resources; or the seat, if there was no memory.
pub fn to_write<'a, R: Wait, T: Editable, M: Machine>(
    rt: &R,
    alloc: Global,
    lock: &'a Rnlp<T, M>,
    seat: Seat<T, M>,
    group: ResourceSet,
    set: ResourceSet,
) -> Result<WriteGuard<'a, T, M>, Seat<T, M>>
    requires { Rests (all_with group) lock.now seat }
    ensures at { IfOk result (λ guard. IsAt (all_with group) lock.entry.now guard.seat × (guard.seat.number ≡ seat.number)) }
    ensures writes { IfOk result (λ guard. MayWriteAll set guard.seat) }
    ensures err { IfErr result (λ s. Rests (all_with group) lock.entry.now s × (s.number ≡ seat.number)) }
{
    let _ = set.len();
    let Ok(request) = Request::new(Kind::Write, set, set, set, 1, 0) else {
        return Err(seat);
    };
    match lock.acquire(rt, alloc, seat, request) {
        Ok(Guard::Write(guard)) => {
            let _ = guard.seat();
            Ok(guard)
        }
        Err((seat, _)) => Err(seat),
        _ => unreachable!(),
    }
}

/// A guard to read the resources that are declared together; or the seat, if there was no memory.
pub fn to_read<'a, R: Wait, T: Editable, M: Machine>(
    rt: &R,
    alloc: Global,
    lock: &'a Rnlp<T, M>,
    seat: Seat<T, M>,
    group: ResourceSet,
) -> Result<ReadGuard<'a, T, M>, Seat<T, M>>
    requires { Rests (all_with group) lock.now seat }
    ensures at { IfOk result (λ guard. IsAt (all_with group) lock.entry.now guard.seat × (guard.seat.number ≡ seat.number)) }
    ensures reads { IfOk result (λ guard. HoldsAll group guard.seat) }
    ensures err { IfErr result (λ s. Rests (all_with group) lock.entry.now s × (s.number ≡ seat.number)) }
{
    let _ = group.len();
    let Ok(request) = Request::new(Kind::Read, group, group, group, 1, 0) else {
        return Err(seat);
    };
    match lock.acquire(rt, alloc, seat, request) {
        Ok(Guard::Read(guard)) => {
            let _ = guard.seat();
            Ok(guard)
        }
        Err((seat, _)) => Err(seat),
        _ => unreachable!(),
    }
}

/// Edits each of these resources, and answers whether each took the edit.
pub fn edit_each<T: Editable<Edit = Edit>, M: Machine>(
    alloc: Global,
    guard: &mut WriteGuard<'_, T, M>,
    set: ResourceSet,
    edit: Edit,
) -> bool
    requires { MayWriteAll set guard.old.seat }
    ensures { guard.new.seat ≡ guard.old.seat }
{
    for l in set.iter() {
        match guard.edit(alloc, l, edit) {
            Ok(true) => {}
            _ => return false,
        }
    }
    true
}

/// What is in these resources together.
pub fn sum_of<M: Machine>(guard: &ReadGuard<'_, Ledger, M>, set: ResourceSet) -> u64
    requires { HoldsAll set guard.now.seat }
{
    let mut sum = 0u64;
    for l in set.iter() {
        sum = sum.wrapping_add(guard.get(l).balance);
    }
    sum
}

/// Ends a section that writes. Answers whether all of it was done.
pub fn ended<R: Wait, T: Editable, M: Machine>(
    rt: &R,
    alloc: Global,
    lock: &Rnlp<T, M>,
    group: ResourceSet,
    guard: WriteGuard<'_, T, M>,
    done: bool,
) -> (Seat<T, M>, bool)
    requires { IsAt (all_with group) lock.now guard.seat }
    ensures { Rests (all_with group) lock.now result.0 × (result.0.number ≡ guard.entry.seat.number) }
{
    let _ = lock;
    let _ = group.len();
    match guard.finish(rt, alloc) {
        Ok(seat) => (seat, done),
        Err((guard, _)) => (guard.discard(rt), false),
    }
}

/// One section that edits each of these resources. Answers whether all was done.
pub fn write_in<R: Wait, T: Editable<Edit = Edit>, M: Machine>(
    rt: &R,
    alloc: Global,
    lock: &Rnlp<T, M>,
    seat: Seat<T, M>,
    group: ResourceSet,
    set: ResourceSet,
    edit: Edit,
) -> (Seat<T, M>, bool)
    requires { Rests (all_with group) lock.now seat }
    ensures { Rests (all_with group) lock.now result.0 × (result.0.number ≡ seat.number) }
{
    match to_write(rt, alloc, lock, seat, group, set) {
        Ok(mut guard) => {
            let done = edit_each(alloc, &mut guard, set, edit);
            ended(rt, alloc, lock, group, guard, done)
        }
        Err(seat) => (seat, false),
    }
}

/// One section that reads the resources that are declared together: what is in them.
pub fn read_in<R: Wait, M: Machine>(
    rt: &R,
    alloc: Global,
    lock: &Runtime<M>,
    seat: Place<M>,
    group: ResourceSet,
) -> (Place<M>, Option<u64>)
    requires { Rests (all_with group) lock.now seat }
    ensures { Rests (all_with group) lock.now result.0 × (result.0.number ≡ seat.number) }
{
    match to_read(rt, alloc, lock, seat, group) {
        Ok(guard) => {
            let sum = sum_of(&guard, group);
            (guard.finish(rt), Some(sum))
        }
        Err(seat) => (seat, None),
    }
}

/// One section that takes 1 from each of some resources, and adds 1 to each of others. Answers whether all was done.
pub fn move_in<R: Wait, M: Machine>(
    rt: &R,
    alloc: Global,
    lock: &Runtime<M>,
    seat: Place<M>,
    group: ResourceSet,
    from: ResourceSet,
    to: ResourceSet,
) -> (Place<M>, bool)
    requires { Rests (all_with group) lock.now seat }
    ensures { Rests (all_with group) lock.now result.0 × (result.0.number ≡ seat.number) }
{
    match to_write(rt, alloc, lock, seat, group, from.union(to)) {
        Ok(mut guard) => {
            let taken = edit_each(alloc, &mut guard, from, Edit::Take(1));
            let added = edit_each(alloc, &mut guard, to, Edit::Add(1));
            ended(rt, alloc, lock, group, guard, taken && added)
        }
        Err(seat) => (seat, false),
    }
}

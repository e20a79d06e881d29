//! Waits to read, look by look.
ghost use Rattle.std.specs.Prelude.{◌≡◌, IfOk, IfErr};
ghost use Rattle.rguard.specs.declared.kind.GuardKind.TheVariants as kinds;
ghost use Rattle.rguard.specs.Resting.{IsAt, Rests, HoldsAll, all_with};
ghost use Rattle.tests_on_threads.specs.Waiting.{WaitsToRead};

use crate::sections::{Place, Runtime};
use rclaim::{Kind, Request};
use rguard::{Guard, Looked, Pending, ReadGuard};
use rmodel::Machine;
use rset::ResourceSet;
use rvalue::Ledger;
use std::alloc::Global;
use std::sync::Wait;

/// Begins to read what is declared together; or gives back the seat if there was no memory.
pub fn begin_to_read<'a, R: Wait, M: Machine>(
    rt: &R,
    alloc: Global,
    lock: &'a Runtime<M>,
    seat: Place<M>,
    group: ResourceSet,
) -> Result<Pending<'a, Ledger, M>, Place<M>>
    requires { Rests (all_with group) lock.now seat }
    ensures at { IfOk result (λ wait. IsAt (all_with group) lock.entry.now wait.seat × (wait.kind ≡ kinds.Read)) }
    ensures waits { IfOk result (λ wait. WaitsToRead group wait.seat) }
    ensures err { IfErr result (λ s. Rests (all_with group) lock.entry.now s) }
{
    let _ = group.len();
    let Ok(request) = Request::new(Kind::Read, group, group, group, 1, 0) else {
        return Err(seat);
    };
    match lock.begin(rt, alloc, seat, request) {
        Ok(wait) => Ok(wait),
        Err((seat, _)) => Err(seat),
    }
}

/// One look: the guard, or the wait.
pub fn look_to_read<'a, R: Wait, M: Machine>(
    rt: &R,
    lock: &Runtime<M>,
    wait: Pending<'a, Ledger, M>,
    group: ResourceSet,
) -> Result<ReadGuard<'a, Ledger, M>, Pending<'a, Ledger, M>>
    requires at { IsAt (all_with group) lock.now wait.seat × (wait.kind ≡ kinds.Read) }
    requires waits { WaitsToRead group wait.seat }
    ensures at { IfOk result (λ guard. IsAt (all_with group) lock.now guard.seat) }
    ensures reads { IfOk result (λ guard. HoldsAll group guard.seat) }
    ensures still { IfErr result (λ next. IsAt (all_with group) lock.now next.seat × (next.kind ≡ kinds.Read)) }
    ensures waits { IfErr result (λ next. WaitsToRead group next.seat) }
{
    let _ = lock;
    let _ = group.len();
    match wait.look(rt) {
        Looked::Ready(Guard::Read(guard)) => {
            let _ = guard.seat();
            Ok(guard)
        }
        Looked::NotYet(next) => Err(next),
        _ => unreachable!(),
    }
}

/// Looks and rests until the guard is there; and how often it was not there yet.
pub fn wait_to_read<'a, R: Wait, M: Machine>(
    rt: &R,
    lock: &Runtime<M>,
    wait: Pending<'a, Ledger, M>,
    group: ResourceSet,
) -> (ReadGuard<'a, Ledger, M>, u32)
    requires at { IsAt (all_with group) lock.now wait.seat × (wait.kind ≡ kinds.Read) }
    requires waits { WaitsToRead group wait.seat }
    ensures at { IsAt (all_with group) lock.now result.0.seat }
    ensures reads { HoldsAll group result.0.seat }
{
    let mut waiting = wait;
    let mut early = 0u32;
    for _ in rt.forever() {
        match look_to_read(rt, lock, waiting, group) {
            Ok(guard) => return (guard, early),
            Err(next) => {
                waiting = next.rest(rt);
                early = early.saturating_add(1);
            }
        }
    }
    unreachable!()
}

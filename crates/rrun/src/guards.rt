//! What a section does, whatever the kind of its guard.
ghost use Rattle.std.specs.Prelude.{◌≡◌, ◌++◌, ◌∷◌, [], true, IfOk, OnErr, IfErr};
ghost use Rattle.rclaim.specs.declared.event.Event.TheVariants.{Finish};
ghost use Rattle.rvalue.specs.declared.act.Act.TheVariants.{Edited, Shown};
ghost use Rattle.rvalue.specs.declared.ledger.Ledger.{Ledger};
ghost use Rattle.rvalue.specs.Ledgers.{value_after, is_taken};
ghost use Rattle.rguard.specs.Seats.{Goes, IsIdle, bare};
ghost use Rattle.rguard.specs.Guards.{HasSeenLawful, HasSeenOwn, HasValue, Holding, HoldingToWrite};
ghost use Rattle.rguard.specs.LentSections.{may_edit};
ghost use Rattle.rguard.specs.Looks.{fields_of, kind_of};

use rguard::{Guard, Seat};
use rmodel::Machine;
use rvalue::{Edit, Ledger};
use std::alloc::{AllocError, Global};
use std::sync::Wait;

/// Borrows the seat of a guard. What the seat has seen is lawful, and its own entries there are just what it has made.
pub(crate) fn seat_of<'g, 'a, M: Machine>(guard: &'g Guard<'a, Ledger, M>) -> &'g Seat<Ledger, M>
    ensures seat { result.now ≡ (fields_of guard.now).seat }
    ensures lawful { HasSeenLawful value_after is_taken (λ ledger. ledger.balance) (fields_of guard.now).seat }
    ensures own { HasSeenOwn (fields_of guard.now).seat }
{
    match guard {
        Guard::Read(guard) => guard.seat(),
        Guard::Write(guard) => guard.seat(),
        Guard::Rise(guard) => guard.seat(),
        Guard::Nest(guard) => guard.seat(),
    }
}

/// Shows a resource that is held, and gives its number with the section's own edits. The guard has one more act, after
/// the others; its kind and its seat are as they were.
///
/// # Errors
///
/// Out of memory. The guard is then as it was.
pub fn show<M: Machine>(
    alloc: Global,
    guard: &mut Guard<Ledger, M>,
    place: u8,
) -> Result<u64, AllocError>
    requires { Holding (fields_of guard.old).seat place }
    ensures kind { kind_of guard.new ≡ kind_of guard.old }
    ensures act { IfOk result (λ number. fields_of guard.new ≡ record (fields_of guard.old) { acts = (fields_of guard.old).acts ++ Shown place number ∷ [] }) }
    ensures number { IfOk result (λ number. (value : Ledger) × HasValue value_after (fields_of guard.old) place value × (number ≡ value.balance)) }
    ensures err { OnErr result (fields_of guard.new ≡ fields_of guard.old) }
{
    match guard {
        Guard::Read(guard) => guard.show(alloc, place),
        Guard::Write(guard) => guard.show(alloc, place),
        Guard::Rise(guard) => guard.show(alloc, place),
        Guard::Nest(guard) => guard.show(alloc, place),
    }
}

/// Edits a resource that is held for writing, by a guard that may edit, and answers whether the edit was taken. Taken
/// or not, the guard has one more act, after the others; its kind and its seat are as they were.
///
/// # Errors
///
/// Out of memory. The guard is then as it was.
pub fn edit<M: Machine>(
    alloc: Global,
    guard: &mut Guard<Ledger, M>,
    place: u8,
    edit: Edit,
) -> Result<bool, AllocError>
    requires may { may_edit (kind_of guard.old) ≡ true }
    requires held { HoldingToWrite (fields_of guard.old).seat place }
    ensures kind { kind_of guard.new ≡ kind_of guard.old }
    ensures act { IfOk result (λ done. fields_of guard.new ≡ record (fields_of guard.old) { acts = (fields_of guard.old).acts ++ Edited place edit done ∷ [] }) }
    ensures done { IfOk result (λ done. (value : Ledger) × HasValue value_after (fields_of guard.old) place value × (done ≡ is_taken value edit)) }
    ensures err { OnErr result (fields_of guard.new ≡ fields_of guard.old) }
{
    match guard {
        Guard::Write(guard) => guard.edit(alloc, place, edit),
        Guard::Nest(guard) => guard.edit(alloc, place, edit),
        _ => unreachable!(),
    }
}

/// Ends the section without its acts. No memory is taken. The seat comes back idle, with one more entry of its own, the
/// finish.
pub fn discard<'a, R: Wait, M: Machine>(rt: &R, guard: Guard<'a, Ledger, M>) -> Seat<Ledger, M>
    ensures goes { Goes (fields_of guard.entry).seat (bare (Finish (fields_of guard.entry).seat.number) ∷ []) result }
    ensures idle { IsIdle result }
{
    match guard {
        Guard::Read(guard) => guard.discard(rt),
        Guard::Write(guard) => guard.discard(rt),
        Guard::Rise(guard) => guard.discard(rt),
        Guard::Nest(guard) => guard.discard(rt),
    }
}

/// Ends the section; the finish has its acts. The seat comes back idle, with one more entry of its own, the finish.
///
/// # Errors
///
/// Out of memory. Then the section is ended without its acts, and the seat comes back idle.
pub fn finish<'a, R: Wait, M: Machine>(
    rt: &R,
    alloc: Global,
    guard: Guard<'a, Ledger, M>,
) -> Result<Seat<Ledger, M>, (Seat<Ledger, M>, AllocError)>
    ensures goes { IfOk result (Goes (fields_of guard.entry).seat (record { event = Finish (fields_of guard.entry).seat.number; acts = (fields_of guard.entry).acts } ∷ [])) }
    ensures idle { IfOk result IsIdle }
    ensures broken { IfErr result (λ e. Goes (fields_of guard.entry).seat (bare (Finish (fields_of guard.entry).seat.number) ∷ []) e.0) }
    ensures left { IfErr result (λ e. IsIdle e.0) }
{
    match guard {
        Guard::Read(guard) => Ok(guard.finish(rt)),
        Guard::Rise(guard) => Ok(guard.finish(rt)),
        Guard::Write(guard) => match guard.finish(rt, alloc) {
            Ok(seat) => Ok(seat),
            Err((guard, e)) => Err((guard.discard(rt), e)),
        },
        Guard::Nest(guard) => match guard.finish(rt, alloc) {
            Ok(seat) => Ok(seat),
            Err((guard, e)) => Err((guard.discard(rt), e)),
        },
    }
}

//! What each statement does to a desk.
ghost use Rattle.std.specs.Prelude.{◌≡◌, None, IfOk, IfErr};
ghost use Rattle.rguard.specs.Seats.{IsOf, IsIdle};
ghost use Rattle.rguard.specs.Looks.{fields_of};
ghost use Rattle.rscript.specs.declared.section.OpenSection.{OpenSection};
ghost use Rattle.rrun.specs.Working.{section_made, FitsAt};
ghost use Rattle.rrun.specs.Desks.{IsGuardOf, HasStepped, HasLeft};

use crate::desk::{At, Desk};
use crate::guards::seat_of;
use crate::pace::Pace;
use crate::waiting::wait_for_guard;
use rclaim::Request;
use rguard::{Guard, Looked, Rnlp, Seat};
use rmodel::Machine;
use rscript::Statement;
use rset::ResourceSet;
use rvalue::{Edit, Ledger};
use std::alloc::{AllocError, Global};
use std::sync::Wait;

/// A section begins: its request is issued and looked at in one turn, and waited for if it was not granted there.
///
/// # Errors
///
/// Out of memory. Then nothing was issued.
pub(crate) fn begin<'a, R: Wait, M: Machine, G: Pace>(
    rt: &R,
    alloc: Global,
    rnlp: &'a Rnlp<Ledger, M>,
    seat: Seat<Ledger, M>,
    request: Request,
    at: At,
    pace: &G,
) -> Result<Desk<'a, M>, (Seat<Ledger, M>, AllocError)>
    requires of { IsOf rnlp.now seat }
    requires idle { IsIdle seat }
    requires closed { section_made seat.mine ≡ None }
    requires fits { FitsAt seat None (Statement.Begin request) }
    ensures ok { IfOk result (HasStepped (Desk.Idle seat) (Statement.Begin request)) }
    ensures err { IfErr result (λ e. HasLeft seat e.0) }
{
    match rnlp.begin_and_look(rt, alloc, seat, request) {
        Ok(Looked::Ready(guard)) => {
            let _ = seat_of(&guard);
            pace.section(at.task, at.section);
            Ok(Desk::Busy(guard))
        }
        Ok(Looked::NotYet(pending)) => {
            pace.turn();
            let guard = wait_for_guard(rt, pending.rest(rt), pace);
            pace.section(at.task, at.section);
            Ok(Desk::Busy(guard))
        }
        Err(e) => Err(e),
    }
}

/// The section edits a resource.
///
/// # Errors
///
/// Out of memory. The section is broken off.
pub(crate) fn edit<'a, R: Wait, M: Machine>(
    rt: &R,
    alloc: Global,
    guard: Guard<'a, Ledger, M>,
    place: u8,
    edit: Edit,
) -> Result<Desk<'a, M>, (Seat<Ledger, M>, AllocError)>
    requires at { (section : OpenSection) × IsGuardOf section guard }
    requires fits { FitsAt (fields_of guard).seat (section_made (fields_of guard).seat.mine) (Statement.Edit place edit) }
    ensures ok { IfOk result (HasStepped (Desk.Busy guard.entry) (Statement.Edit place edit)) }
    ensures err { IfErr result (λ e. HasLeft (fields_of guard.entry).seat e.0) }
{
    let mut guard = guard;
    match crate::guards::edit(alloc, &mut guard, place, edit) {
        Ok(_) => Ok(Desk::Busy(guard)),
        Err(e) => Err((crate::guards::discard(rt, guard), e)),
    }
}

/// The section shows a resource.
///
/// # Errors
///
/// Out of memory. The section is broken off.
pub(crate) fn show<'a, R: Wait, M: Machine>(
    rt: &R,
    alloc: Global,
    guard: Guard<'a, Ledger, M>,
    place: u8,
) -> Result<Desk<'a, M>, (Seat<Ledger, M>, AllocError)>
    requires at { (section : OpenSection) × IsGuardOf section guard }
    requires fits { FitsAt (fields_of guard).seat (section_made (fields_of guard).seat.mine) (Statement.Show place) }
    ensures ok { IfOk result (HasStepped (Desk.Busy guard.entry) (Statement.Show place)) }
    ensures err { IfErr result (λ e. HasLeft (fields_of guard.entry).seat e.0) }
{
    let mut guard = guard;
    match crate::guards::show(alloc, &mut guard, place) {
        Ok(_) => Ok(Desk::Busy(guard)),
        Err(e) => Err((crate::guards::discard(rt, guard), e)),
    }
}

/// The nested section asks for another part, and waits for it.
///
/// # Errors
///
/// Out of memory. The section is broken off.
pub(crate) fn ask<'a, R: Wait, M: Machine, G: Pace>(
    rt: &R,
    alloc: Global,
    guard: Guard<'a, Ledger, M>,
    set: ResourceSet,
    pace: &G,
) -> Result<Desk<'a, M>, (Seat<Ledger, M>, AllocError)>
    requires at { (section : OpenSection) × IsGuardOf section guard }
    requires fits { FitsAt (fields_of guard).seat (section_made (fields_of guard).seat.mine) (Statement.Ask set) }
    ensures ok { IfOk result (HasStepped (Desk.Busy guard.entry) (Statement.Ask set)) }
    ensures err { IfErr result (λ e. HasLeft (fields_of guard.entry).seat e.0) }
{
    match guard {
        Guard::Nest(guard) => match guard.begin_ask(rt, alloc, set) {
            Ok(pending) => Ok(Desk::Busy(wait_for_guard(rt, pending, pace))),
            Err((guard, e)) => Err((guard.discard(rt), e)),
        },
        _ => unreachable!(),
    }
}

/// The upgrade section rises, and waits to write.
pub(crate) fn rise<'a, R: Wait, M: Machine, G: Pace>(
    rt: &R,
    guard: Guard<'a, Ledger, M>,
    pace: &G,
) -> Desk<'a, M>
    requires at { (section : OpenSection) × IsGuardOf section guard }
    requires fits { FitsAt (fields_of guard).seat (section_made (fields_of guard).seat.mine) Statement.Rise }
    ensures { HasStepped (Desk.Busy guard.entry) Statement.Rise result }
{
    match guard {
        Guard::Rise(guard) => Desk::Busy(wait_for_guard(rt, guard.begin_rise(rt), pace)),
        _ => unreachable!(),
    }
}

/// The section ends.
///
/// # Errors
///
/// Out of memory. The section is broken off.
pub(crate) fn finish<'a, R: Wait, M: Machine>(
    rt: &R,
    alloc: Global,
    guard: Guard<'a, Ledger, M>,
) -> Result<Desk<'a, M>, (Seat<Ledger, M>, AllocError)>
    requires { (section : OpenSection) × IsGuardOf section guard }
    ensures ok { IfOk result (HasStepped (Desk.Busy guard.entry) Statement.Finish) }
    ensures err { IfErr result (λ e. HasLeft (fields_of guard.entry).seat e.0) }
{
    match crate::guards::finish(rt, alloc, guard) {
        Ok(seat) => Ok(Desk::Idle(seat)),
        Err(e) => Err(e),
    }
}

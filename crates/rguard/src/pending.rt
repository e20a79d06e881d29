//! Waits for a guard.
ghost use Rattle.std.specs.Prelude.{◌≡◌, [], IfOk, IfErr};
ghost use Rattle.rguard.specs.LentSections.{HasRoomToIssue, writes_at_most};
ghost use Rattle.rguard.specs.Seats.{IsOf, IsIdle, SuitsSeat, Goes, ComesBack};
ghost use Rattle.rguard.specs.Awaiting.{awaited_kind};
ghost use Rattle.rguard.specs.Guards.{HasSeenLawful, HasSeenOwn, HasBegun, kind_for};
ghost use Rattle.rguard.specs.Looks.{BeginsWithLook, LooksAt};

use crate::awaited::Awaited;
use crate::counted::CountedGate;
use crate::guard::{Guard, guard_of};
use crate::lock::Lock;
use crate::room::Room;
use crate::section::{Seat, Section};
use rclaim::{Kind, Request};
use rmodel::Machine;
use rset::ResourceSet;
use rstate::State;
use rvalue::Editable;
use std::alloc::{AllocError, Global};
use std::marker::Model;
use std::sync::Wait;

/// A request that was issued, has risen, or asks for more, and that its seat waits for. It must be spent.
pub struct Pending<'a, T: Editable, M: Machine> {
    pub(crate) section: Section<'a, T, M>,
    pub(crate) awaited: Awaited<T>,
}

impl<'a, T: Editable, M: Machine> Model for Pending<'a, T, M> {
    ghost use Rattle.rguard.specs.Awaiting.{awaited_kind, waiting};
    ghost use Rattle.rguard.specs.Guards.{WaitFields};
    ghost use Rattle.rguard.specs.LentSections.{Waits};
    ghost use Rattle.std.specs.Coded.{codes};
    ghost use Rattle.rclaim.specs.Codes.{set_code};

    ghost Value = { WaitFields T T.Edit };

    ghost coded = { Prim.hlevel (codes, set_code) };

    ghost view = { λ a. waiting a.section (awaited_kind a.awaited) };

    ghost invariant = { λ a. Waits T.after T.taken T.number (awaited_kind a.awaited) a.section };
}

/// What a look at a wait gives.
pub enum Looked<'a, T: Editable, M: Machine> {
    /// Nothing of the seat is pending.
    Ready(Guard<'a, T, M>),
    /// Something is, and the seat still waits.
    NotYet(Pending<'a, T, M>),
}

impl<T: Editable, M: Machine> Lock<State<T, M>, T> {
    /// A seat issues a request, in one turn, and waits for it. All room is made first, so a look takes no memory.
    ///
    /// # Errors
    ///
    /// Out of memory. Nothing was issued, and the seat comes back.
    pub fn begin<'a, R: Wait>(
        &'a self,
        rt: &R,
        alloc: Global,
        seat: Seat<T, M>,
        request: Request,
    ) -> Result<Pending<'a, T, M>, (Seat<T, M>, AllocError)>
        requires of { IsOf self.now seat }
        requires idle { IsIdle seat }
        requires suits { SuitsSeat seat request }
        ensures ok { IfOk result (HasBegun self.entry.now seat request) }
        ensures err { IfErr result (λ e. Goes seat [] e.0) }
        ensures turn_err { IfErr result (λ e. ComesBack seat e.0) }
        ensures idle { IfErr result (λ e. IsIdle e.0) }
    {
        match rooms(rt, alloc, &self.gate, seat.number(), &request) {
            Ok((room, awaited)) => {
                match Section::issue(&self.gate, rt, alloc, seat, request, room) {
                    Ok(section) => Ok(Pending { section, awaited }),
                    Err(e) => Err(e),
                }
            }
            Err(e) => Err((seat, e)),
        }
    }
}

impl<T: Editable, M: Machine> Lock<State<T, M>, T> {
    /// A seat issues a request and looks, in one turn. All room is made first, so a look takes no memory.
    ///
    /// # Errors
    ///
    /// Out of memory. Nothing was issued, and the seat comes back.
    pub fn begin_and_look<'a, R: Wait>(
        &'a self,
        rt: &R,
        alloc: Global,
        seat: Seat<T, M>,
        request: Request,
    ) -> Result<Looked<'a, T, M>, (Seat<T, M>, AllocError)>
        requires of { IsOf self.now seat }
        requires idle { IsIdle seat }
        requires suits { SuitsSeat seat request }
        ensures ok { IfOk result (BeginsWithLook self.entry.now seat request) }
        ensures err { IfErr result (λ e. Goes seat [] e.0) }
        ensures turn_err { IfErr result (λ e. ComesBack seat e.0) }
        ensures idle { IfErr result (λ e. IsIdle e.0) }
    {
        match rooms(rt, alloc, &self.gate, seat.number(), &request) {
            Ok((room, awaited)) => {
                match Section::issue_and_look(&self.gate, rt, alloc, seat, request, room) {
                    Ok(Ok(section)) => Ok(Looked::Ready(guard_of(awaited, section))),
                    Ok(Err(section)) => Ok(Looked::NotYet(Pending { section, awaited })),
                    Err(e) => Err(e),
                }
            }
            Err(e) => Err((seat, e)),
        }
    }
}

impl<'a, T: Editable, M: Machine> Pending<'a, T, M> {
    /// Lends the seat that waits, which has no turn. What it has seen is lawful from how the lock began, and its own entries
    /// there are those that it made. Takes no memory.
    pub fn seat(&self) -> &Seat<T, M>
        ensures seat { result.now ≡ self.now.seat }
        ensures lawful { HasSeenLawful T.after T.taken T.number self.now.seat }
        ensures own { HasSeenOwn self.now.seat }
    {
        &self.section.seat
    }

    /// Looks, in one turn, whether nothing of the seat is pending. Takes no memory.
    pub fn look<R: Wait>(self, rt: &R) -> Looked<'a, T, M>
        ensures { LooksAt self.entry result }
    {
        let Pending { section, awaited } = self;
        match section.look(rt) {
            Ok(section) => Looked::Ready(guard_of(awaited, section)),
            Err(section) => Looked::NotYet(Pending { section, awaited }),
        }
    }

    /// Rests between two looks, until the seat is notified of an event that gave it something; a notice from before counts.
    pub fn rest<R: Wait>(self, rt: &R) -> Pending<'a, T, M>
        ensures { result ≡ self.entry }
    {
        let Pending { section, awaited } = self;
        Pending {
            section: section.rest(rt),
            awaited,
        }
    }
}

// All room for this request of the seat with this number.
fn rooms<R: Wait, T: Editable, M: Machine>(
    rt: &R,
    alloc: Global,
    gate: &CountedGate<State<T, M>, T>,
    number: u8,
    request: &Request,
) -> Result<(Room<T>, Awaited<T>), AllocError>
    ensures room { IfOk result (λ r. HasRoomToIssue request.now r.0) }
    ensures kind { IfOk result (λ r. awaited_kind r.1 ≡ kind_for request.now.kind) }
{
    let reads = usize::from(request.reads().len());
    let writes = usize::from(writes_at_most(request).len());
    let mut room = match gate.take_room(rt, number) {
        Some(room) => room,
        None => Room::new(alloc)?,
    };
    room.prepare(reads, writes)?;
    let awaited = Awaited::by(alloc, request.kind())?;
    Ok((room, awaited))
}

// What a request may write: an upgrade writes what it reads, once it has risen.
fn writes_at_most(request: &Request) -> ResourceSet
    ensures { result ≡ writes_at_most request.now }
{
    match request.kind() {
        Kind::Upgrade => request.reads(),
        Kind::Read | Kind::Write | Kind::Mixed | Kind::Nested => request.writes(),
    }
}

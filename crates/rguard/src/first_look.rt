//! A section that begins with a look in the turn of its issue.
ghost use Rattle.std.specs.Prelude.{◌≡◌, true, false, [], IfOk, IfErr};
ghost use Rattle.rguard.specs.Seats.{IsOf, IsIdle, SuitsSeat, Goes, IsOneTurn};
ghost use Rattle.rguard.specs.LentGuards.{kind_for};
ghost use Rattle.rguard.specs.LentSections.{Holds, Waits, HasIssued, HasRoomToIssue};

use crate::counted::CountedGate;
use crate::room::Room;
use crate::section::{Seat, Section};
use crate::waking::told;
use rclaim::Request;
use rmodel::Machine;
use rstate::State;
use rvalue::Editable;
use std::alloc::{AllocError, Global};
use std::sync::Wait;

impl<'a, T: Editable, M: Machine> Section<'a, T, M> {
    /// A seat issues a request and looks, in one turn. `Ok` has the section of a guard, to which all is lent that its seat holds;
    /// `Err` has a section that waits.
    ///
    /// # Errors
    ///
    /// Out of memory. Nothing was issued, and the seat comes back.
    pub fn issue_and_look<R: Wait>(
        lock: &'a CountedGate<State<T, M>, T>,
        rt: &R,
        alloc: Global,
        seat: Seat<T, M>,
        request: Request,
        room: Room<T>,
    ) -> Result<Result<Section<'a, T, M>, Section<'a, T, M>>, (Seat<T, M>, AllocError)>
        requires of { IsOf lock.now seat }
        requires idle { IsIdle seat }
        requires suits { SuitsSeat seat request }
        requires room { HasRoomToIssue request room }
        ensures holds { IfOk result (λ looked. IfOk looked (Holds T.after T.taken T.number (kind_for request.kind))) }
        ensures ready { IfOk result (λ looked. IfOk looked (HasIssued lock.now seat request true)) }
        ensures waits { IfOk result (λ looked. IfErr looked (Waits T.after T.taken T.number (kind_for request.kind))) }
        ensures pending { IfOk result (λ looked. IfErr looked (HasIssued lock.now seat request false)) }
        ensures err { IfErr result (λ e. Goes seat [] e.0) }
        ensures turn_err { IfErr result (λ e. IsOneTurn seat [] e.0) }
        ensures idle { IfErr result (λ e. IsIdle e.0) }
    {
        let number = seat.number();
        let mut turn = lock.gate.enter(rt, seat);
        let state = turn.state();
        let _ = state.history();
        let _ = state.machine();
        match state.issue(number, request) {
            Ok(()) => {
                let _ = state.history();
                let told = told(state);
                let Room {
                    mut lent,
                    own,
                    shares,
                } = room;
                if state.ready(number) {
                    state.take(number, &mut lent);
                    Ok(Ok(Section {
                        lock,
                        seat: lock.leave(rt, turn, told),
                        lent,
                        own,
                        shares,
                        acts: Vec::new(alloc),
                    }))
                } else {
                    Ok(Err(Section {
                        lock,
                        seat: lock.leave(rt, turn, told),
                        lent,
                        own,
                        shares,
                        acts: Vec::new(alloc),
                    }))
                }
            }
            Err(e) => Err((lock.gate.leave(turn), e)),
        }
    }
}

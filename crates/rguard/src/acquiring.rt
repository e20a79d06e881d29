//! Waiting until a wait is over.
ghost use Rattle.std.specs.Prelude.{[], IfOk, IfErr};
ghost use Rattle.rguard.specs.Seats.{IsOf, IsIdle, SuitsSeat, Goes, ComesBack};
ghost use Rattle.rguard.specs.Looks.{HasAwaited, HasAcquired};

use crate::guard::{Guard, guard_of};
use crate::lock::Lock;
use crate::pending::{Looked, Pending};
use crate::section::Seat;
use rclaim::Request;
use rmodel::Machine;
use rstate::State;
use rvalue::Editable;
use std::alloc::{AllocError, Global};
use std::sync::Wait;

impl<T: Editable, M: Machine> Lock<State<T, M>, T> {
    /// A seat issues a request and waits until nothing of it is pending, looking and resting in turn.
    ///
    /// # Errors
    ///
    /// Out of memory. Nothing was issued, and the seat comes back.
    pub fn acquire<'a, R: Wait>(
        &'a self,
        rt: &R,
        alloc: Global,
        seat: Seat<T, M>,
        request: Request,
    ) -> Result<Guard<'a, T, M>, (Seat<T, M>, AllocError)>
        requires of { IsOf self.now seat }
        requires idle { IsIdle seat }
        requires suits { SuitsSeat seat request }
        ensures ok { IfOk result (HasAcquired self.entry.now seat request) }
        ensures err { IfErr result (λ e. Goes seat [] e.0) }
        ensures turn_err { IfErr result (λ e. ComesBack seat e.0) }
        ensures idle { IfErr result (λ e. IsIdle e.0) }
    {
        match self.begin_and_look(rt, alloc, seat, request) {
            Ok(Looked::Ready(guard)) => Ok(guard),
            Ok(Looked::NotYet(pending)) => Ok(wait_for(rt, pending.rest(rt))),
            Err(e) => Err(e),
        }
    }
}

// Looks and rests until the wait is over.
fn wait_for<'a, R: Wait, T: Editable, M: Machine>(
    rt: &R,
    pending: Pending<'a, T, M>,
) -> Guard<'a, T, M>
    ensures { HasAwaited pending.entry result }
{
    let Pending { section, awaited } = pending;
    let section = section.wait(rt);
    guard_of(awaited, section)
}

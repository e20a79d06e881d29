//! Waiting until a wait is over.
ghost use Rattle.rvalue.specs.Ledgers.{value_after, is_taken};
ghost use Rattle.rguard.specs.Guards.{HasSeenLawful, HasSeenOwn};
ghost use Rattle.rguard.specs.Looks.{HasAwaited, fields_of};

use crate::guards::seat_of;
use crate::pace::Pace;
use rguard::{Guard, Looked, Pending};
use rmodel::Machine;
use rvalue::Ledger;
use std::sync::Wait;

/// Looks and rests until the wait is over, and calls `turn` of the pace after each look that did not end it. The guard
/// is of the kind that is waited for, at its runtime and with its acts. Its seat has made no further entry, nothing of
/// it is pending, and what it has seen is lawful.
pub fn wait_for_guard<'a, R: Wait, M: Machine, G: Pace>(
    rt: &R,
    pending: Pending<'a, Ledger, M>,
    pace: &G,
) -> Guard<'a, Ledger, M>
    ensures awaited { HasAwaited pending.entry result }
    ensures lawful { HasSeenLawful value_after is_taken (λ ledger. ledger.balance) (fields_of result).seat }
    ensures own { HasSeenOwn (fields_of result).seat }
{
    let mut waiting = pending;
    for _ in rt.forever() {
        match waiting.look(rt) {
            Looked::Ready(guard) => {
                let _ = seat_of(&guard);
                return guard;
            }
            Looked::NotYet(next) => {
                pace.turn();
                waiting = next.rest(rt);
            }
        }
    }
    unreachable!()
}

// The changes of a step.
ghost use Rattle.std.specs.Prelude.{◌≡◌, ◌↔◌, ◌<◌, ◌≤◌, ◌++◌, IsTrue, length};
ghost use Rattle.std.specs.List.{AllZip};
ghost use Rattle.rmodel.specs.Changes.{SameClaim};
ghost use Rattle.std.specs.Option.{option_to_list};
ghost use Rattle.rclaim.specs.declared.TheConstants.{STATUS_ROOM, GRANT_ROOM};
ghost use Rattle.rmodel.specs.Changes.{status_change, grant_change, status_changes, grant_changes, with_change};

use rclaim::{Changes, GrantChange, StatusChange};
use rmodel::Claimed;

/// The change of status from a claim to the same claim later, if there is one.
fn status_change(was: &Claimed, now: &Claimed) -> Option<StatusChange>
    ensures { result ≡ status_change was.now now.now }
{
    if was.status as u8 == now.status as u8 {
        return None;
    }
    Some(StatusChange {
        seat: now.claim.seat,
        write_half: now.claim.write_half,
        status: now.status,
    })
}

/// Everything that is held through a claim, if it is more than before.
fn grant_change(was: &Claimed, now: &Claimed) -> Option<GrantChange>
    ensures { result ≡ grant_change was.now now.now }
{
    let held = now.held();
    if held.is_within(&was.held()) {
        return None;
    }
    Some(GrantChange {
        seat: now.claim.seat,
        reads: held.reads,
        writes: held.writes,
    })
}

/// Adds the change of status from a claim to the same claim later, if there is one.
fn tell_status(was: &Claimed, now: &Claimed, changes: &mut Changes)
    requires { length changes.old.statuses < STATUS_ROOM }
    ensures { changes.new ≡ record changes.old { statuses = changes.old.statuses ++ option_to_list (status_change was.now now.now) } }
{
    if let Some(change) = status_change(was, now) {
        changes.push_status(change);
    }
}

/// Adds everything that is held through a claim, if it is more than before.
fn tell_grant(was: &Claimed, now: &Claimed, changes: &mut Changes)
    requires { length changes.old.grants < GRANT_ROOM }
    ensures { changes.new ≡ record changes.old { grants = changes.old.grants ++ option_to_list (grant_change was.now now.now) } }
{
    if let Some(change) = grant_change(was, now) {
        changes.push_grant(change);
    }
}

/// Adds the changes from a claim to the same claim later.
pub(crate) fn tell_claim(was: &Claimed, now: &Claimed, changes: &mut Changes)
    requires statuses_room { length changes.old.statuses < STATUS_ROOM }
    requires grants_room { length changes.old.grants < GRANT_ROOM }
    ensures { changes.new ≡ with_change changes.old was.now now.now }
{
    tell_status(was, now, changes);
    tell_grant(was, now, changes);
}

/// Whether a claim has the same status as before, and as much granted to it.
fn is_as_it_was(was: &Claimed, now: &Claimed) -> bool
    ensures { IsTrue result ↔ ((now.now.status ≡ was.now.status) × (now.now.granted ≡ was.now.granted)) }
{
    (was.status == now.status) & (was.granted == now.granted)
}

/// Adds the changes from a claim to the same claim later. Most claims are as they were, which is tested first.
#[inline]
fn tell_changed(was: &Claimed, now: &Claimed, changes: &mut Changes)
    requires same { now.now.claim ≡ was.now.claim }
    requires statuses_room { length changes.old.statuses < STATUS_ROOM }
    requires grants_room { length changes.old.grants < GRANT_ROOM }
    ensures { changes.new ≡ with_change changes.old was.now now.now }
{
    if !is_as_it_was(was, now) {
        tell_claim(was, now, changes);
    }
}

/// Makes `changes` the changes from a list of claims to the same claims later.
pub(crate) fn tell_changes(before: &[Claimed], claims: &[Claimed], changes: &mut Changes)
    requires same { AllZip SameClaim before.now claims.now }
    requires length { length before.now ≡ length claims.now }
    requires room { length claims.now ≤ GRANT_ROOM }
    ensures statuses { changes.new.statuses ≡ status_changes before.now claims.now }
    ensures grants { changes.new.grants ≡ grant_changes before.now claims.now }
{
    changes.clear();
    for i in 0..claims.len() {
        tell_changed(&before[i], &claims[i], changes);
    }
}

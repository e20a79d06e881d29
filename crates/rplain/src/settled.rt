// Settles the claims that a finish or a rise leaves, and grants what is asked for.
ghost use Rattle.std.specs.Prelude.{◌≡◌, ◌≤◌, false, length, vec_capacity};
ghost use Rattle.rclaim.specs.declared.TheConstants.{GRANT_ROOM};
ghost use Rattle.rmodel.specs.Changes.{status_changes, grant_changes};
ghost use Rattle.rplain.specs.NewClaim.{seen_of};
ghost use Rattle.rmodel.specs.Settling.{settled};
ghost use Rattle.rmodel.specs.Steps.{some_asks, given};
ghost use Rattle.rplain.specs.Sweep.{IsLeft};

use crate::give::{give, some_asks, some_gets};
use crate::left::Left;
use crate::removals::copy_into;
use crate::seen::{Seen, no_seen};
use crate::sweep::sweep;
use crate::tell::tell_changes;
use rclaim::Changes;
use rmodel::Claimed;

/// Settles the claims once, grants what is asked for, and makes `changes` the changes from the claims before. `before` is
/// room, and `asked` says whether anything was ever asked for. `seen` becomes what is then seen of the claims.
fn settle_once(
    claims: &mut [Claimed],
    left: &Left,
    asked: bool,
    before: &mut Vec<Claimed>,
    changes: &mut Changes,
    seen: &mut Seen,
)
    requires left { IsLeft claims.old left.now }
    requires asked { asked ≡ false → some_asks claims.old ≡ false }
    requires room { length claims.old ≤ GRANT_ROOM }
    requires before_room { length claims.old ≤ vec_capacity before.old }
    ensures settled { claims.new ≡ given (settled claims.old) }
    ensures seen { seen.new ≡ seen_of claims.new }
    ensures capacity { vec_capacity before.new ≡ vec_capacity before.old }
    ensures statuses { changes.new.statuses ≡ status_changes claims.old claims.new }
    ensures grants { changes.new.grants ≡ grant_changes claims.old claims.new }
{
    changes.clear();
    if some_asks(claims, asked) {
        copy_into(before, claims);
        sweep(claims, left, changes, seen);
        if some_gets(claims) {
            give(claims, changes);
            tell_changes(before, claims, changes);
        }
    } else {
        sweep(claims, left, changes, seen);
    }
}

/// Settles the claims of a list once, grants what is asked for, and makes `changes` the changes from the list before.
/// `before` is room, and `asked` says whether anything was ever asked for. `seen` becomes what is then seen of the claims.
pub fn settle(
    claims: &mut Vec<Claimed>,
    left: &Left,
    asked: bool,
    before: &mut Vec<Claimed>,
    changes: &mut Changes,
    seen: &mut Seen,
)
    requires left { IsLeft claims.old.items left.now }
    requires asked { asked ≡ false → some_asks claims.old.items ≡ false }
    requires room { length claims.old.items ≤ GRANT_ROOM }
    requires before_room { length claims.old.items ≤ vec_capacity before.old }
    ensures items { claims.new.items ≡ given (settled claims.old.items) }
    ensures seen { seen.new ≡ seen_of claims.new.items }
    ensures len { length claims.new.items ≡ length claims.old.items }
    ensures capacity { vec_capacity claims.new ≡ vec_capacity claims.old }
    ensures before_capacity { vec_capacity before.new ≡ vec_capacity before.old }
    ensures statuses { changes.new.statuses ≡ status_changes claims.old.items claims.new.items }
    ensures grants { changes.new.grants ≡ grant_changes claims.old.items claims.new.items }
{
    settle_once(claims, left, asked, before, changes, seen);
}

/// The same for a list that may have no claims: then there is nothing to do.
pub fn settle_any(
    claims: &mut Vec<Claimed>,
    left: &Left,
    asked: bool,
    before: &mut Vec<Claimed>,
    changes: &mut Changes,
    seen: &mut Seen,
)
    requires left { IsLeft claims.old.items left.now }
    requires asked { asked ≡ false → some_asks claims.old.items ≡ false }
    requires room { length claims.old.items ≤ GRANT_ROOM }
    requires before_room { length claims.old.items ≤ vec_capacity before.old }
    ensures items { claims.new.items ≡ given (settled claims.old.items) }
    ensures seen { seen.new ≡ seen_of claims.new.items }
    ensures len { length claims.new.items ≡ length claims.old.items }
    ensures capacity { vec_capacity claims.new ≡ vec_capacity claims.old }
    ensures before_capacity { vec_capacity before.new ≡ vec_capacity before.old }
    ensures statuses { changes.new.statuses ≡ status_changes claims.old.items claims.new.items }
    ensures grants { changes.new.grants ≡ grant_changes claims.old.items claims.new.items }
{
    if claims.is_empty() {
        changes.clear();
        *seen = no_seen();
        return;
    }
    settle(claims, left, asked, before, changes, seen);
}

/// Grants what the claims of a list ask for, and makes `changes` the changes from the list before.
pub fn give_once(claims: &mut Vec<Claimed>, changes: &mut Changes)
    requires { length claims.old.items ≤ GRANT_ROOM }
    ensures items { claims.new.items ≡ given claims.old.items }
    ensures capacity { vec_capacity claims.new ≡ vec_capacity claims.old }
    ensures statuses { changes.new.statuses ≡ status_changes claims.old.items claims.new.items }
    ensures grants { changes.new.grants ≡ grant_changes claims.old.items claims.new.items }
{
    give(claims, changes);
}

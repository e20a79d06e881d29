// Grants what claims ask for, where they get it.
ghost use Rattle.std.specs.FinSet.{len};
ghost use Rattle.std.specs.Prelude.{◌≡◌, ◌<◌, ◌≤◌, ◌&&◌, ◌∷◌, ◌++◌, [], List, false, nat_lt, length, slice_index_or, slice_set};
ghost use Rattle.std.specs.List.{list_any};
ghost use Rattle.rclaim.specs.declared.TheConstants.{STATUS_ROOM, GRANT_ROOM};
ghost use Rattle.rmodel.specs.Changes.{status_changes, grant_changes, with_change};
ghost use Rattle.rmodel.specs.Claims.{is_active};
ghost use Rattle.rmodel.specs.declared.claimed.Claimed.{Claimed};
ghost use Rattle.rmodel.specs.Steps.{some_asks, is_kept_from, gets_asked, gets, with_asked, given};

use crate::tell::tell_claim;
use rclaim::{Changes, Claim};
use rmodel::{Claimed, conflicts_on};
use rset::ResourceSet;

/// Whether some claim asks for something. Where nothing was ever asked for, no claim is looked at.
pub(crate) fn some_asks(claims: &[Claimed], asked: bool) -> bool
    requires { asked ≡ false → some_asks claims.now ≡ false }
    ensures { result ≡ some_asks claims.now }
{
    asked && claims.iter().any(|x| x.asked.len() > 0)
}

/// Whether some satisfied claim conflicts with the claim on this part.
fn is_kept_from(claims: &[Claimed], claim: &Claim, part: ResourceSet) -> bool
    ensures { result ≡ is_kept_from claims.now claim.now part }
{
    claims.iter().any(|v| v.is_satisfied() && conflicts_on(&v.claim, claim, part))
}

/// Whether the claim gets what it asks for.
fn gets_asked(claims: &[Claimed], x: &Claimed) -> bool
    ensures { result ≡ gets_asked claims.now x.now }
{
    x.is_satisfied() || x.is_active() && !is_kept_from(claims, &x.claim, x.asked)
}

/// The claim with what it asks for granted, if it gets that.
fn with_asked(claims: &[Claimed], x: &Claimed) -> Claimed
    ensures { result ≡ with_asked claims.now x.now }
{
    if gets_asked(claims, x) {
        Claimed {
            asked: ResourceSet::empty(),
            granted: x.granted.union(x.asked),
            ..*x
        }
    } else {
        *x
    }
}

/// Grants what the last claim asks for, if it gets that, given the claims before it. Few claims ask for anything, and for
/// the others no claim is looked at.
pub(crate) fn give_last(claims: &mut [Claimed])
    ensures { (xs : List Claimed) (x : Claimed) → claims.old ≡ xs ++ x ∷ [] → claims.new ≡ xs ++ with_asked xs x ∷ [] }
{
    if let Some((x, before)) = claims.split_last_mut() {
        if x.asked.len() > 0 {
            *x = with_asked(before, x);
        }
    }
}

/// Whether the claim asks for something, and does not wait. There is no branch, as many waiting claims ask for something.
fn may_get(x: &Claimed) -> bool
    ensures { result ≡ (nat_lt 0 (len x.now.asked) && is_active x.now) }
{
    (x.asked.len() > 0) & x.is_active()
}

/// Whether the claim asks for something and gets it.
fn gets(claims: &[Claimed], x: &Claimed) -> bool
    ensures { result ≡ gets claims.now x.now }
{
    may_get(x) && gets_asked(claims, x)
}

/// Whether some claim gets what it asks for.
pub(crate) fn some_gets(claims: &[Claimed]) -> bool
    ensures { result ≡ list_any (gets claims.now) claims.now }
{
    claims.iter().any(|x| gets(claims, x))
}

/// Grants what the claim at a place asks for, if it gets that, and reports its changes.
fn give_at(claims: &mut [Claimed], i: usize, changes: &mut Changes)
    requires place { i < length claims.old }
    requires statuses_room { length changes.old.statuses < STATUS_ROOM }
    requires grants_room { length changes.old.grants < GRANT_ROOM }
    ensures claims { (d : Claimed) → claims.new ≡ slice_set claims.old i (with_asked claims.old (slice_index_or claims.old i d)) }
    ensures changes { (d : Claimed) → let x = slice_index_or claims.old i d in changes.new ≡ with_change changes.old x (with_asked claims.old x) }
{
    let x = claims[i];
    if may_get(&x) {
        let now = with_asked(claims, &x);
        tell_claim(&x, &now, changes);
        claims[i] = now;
    }
}

/// Grants what claims ask for, where they get it, and makes `changes` the changes from the claims before.
pub(crate) fn give(claims: &mut [Claimed], changes: &mut Changes)
    requires { length claims.old ≤ GRANT_ROOM }
    ensures claims { claims.new ≡ given claims.old }
    ensures statuses { changes.new.statuses ≡ status_changes claims.old claims.new }
    ensures grants { changes.new.grants ≡ grant_changes claims.old claims.new }
{
    changes.clear();
    for i in 0..claims.len() {
        give_at(claims, i, changes);
    }
}

// Settles new claims. They come after settled claims, which stay as they are, so one look at those gives nearly everything.
ghost use Rattle.std.specs.Prelude.{◌≡◌, ◌<◌, ◌∷◌, ◌++◌, [], false, length, vec_capacity};
ghost use Rattle.std.specs.FinSet.{empty};
ghost use Rattle.rclaim.specs.declared.TheConstants.{STATUS_ROOM, GRANT_ROOM};
ghost use Rattle.rmodel.specs.Changes.{with_change};
ghost use Rattle.rmodel.specs.Settling.{read_near, with_status};
ghost use Rattle.rplain.specs.Sweep.{AreReadWithin};
ghost use Rattle.rplain.specs.NewClaim.{seen_of, is_past, new_read_status, is_read, new_is_held_up, new_write_status, new_status, new_claim};

use crate::give::give_last;
use crate::seen::{Seen, with_seen};
use crate::tell::tell_claim;
use crate::way::{is_past, read_near};
use rclaim::{Changes, Claim, Status};
use rmodel::Claimed;
use rset::ResourceSet;

/// The status of a new read.
fn new_read_status(seen: &Seen, x: &Claimed) -> Status
    ensures { result ≡ new_read_status seen.now x.now }
{
    if !seen.active.meets(x.claim.reads) {
        Status::Satisfied
    } else if seen.kept.meets(x.claim.reads) {
        Status::Entitled
    } else {
        Status::Waiting
    }
}

/// Whether some satisfied claim reads one of these resources. What the claims read lies within `read`: where `read` has none
/// of them, no claim is looked at.
fn is_read(claims: &[Claimed], read: ResourceSet, resources: ResourceSet) -> bool
    requires { AreReadWithin read claims.now }
    ensures { result ≡ is_read claims.now resources }
{
    read.meets(resources)
        && claims
            .iter()
            .any(|v| v.claim.reads.meets(resources) && v.is_satisfied())
}

/// Whether some satisfied claim conflicts with a new write.
fn new_is_held_up(claims: &[Claimed], seen: &Seen, read: ResourceSet, x: &Claimed) -> bool
    requires { AreReadWithin read claims.now }
    ensures { result ≡ new_is_held_up claims.now seen.now x.now }
{
    seen.kept.meets(x.claim.reads)
        || seen.kept.meets(x.claim.writes)
        || is_read(claims, read, x.claim.writes)
}

/// Whether each earlier write that shares a place with a new claim writes nothing of what the reads near it read. What the
/// claims read lies within `read`: where nobody reads a place of the new claim, no claim is looked at.
fn new_is_past(claims: &[Claimed], read: ResourceSet, claim: &Claim) -> bool
    requires { AreReadWithin read claims.now }
    ensures { result ≡ is_past claims.now claim.now (read_near claims.now claim.now.places) }
{
    !read.meets(claim.places) || is_past(claims, claim, read_near(claims, claim.places))
}

/// The status of a new write.
fn new_write_status(claims: &[Claimed], seen: &Seen, read: ResourceSet, x: &Claimed) -> Status
    requires { AreReadWithin read claims.now }
    ensures { result ≡ new_write_status claims.now seen.now x.now }
{
    if seen.bars.meets(x.claim.places) || !new_is_past(claims, read, &x.claim) {
        Status::Waiting
    } else if new_is_held_up(claims, seen, read, x) {
        Status::Entitled
    } else {
        Status::Satisfied
    }
}

/// The status of a new claim.
fn new_status(claims: &[Claimed], seen: &Seen, read: ResourceSet, x: &Claimed) -> Status
    requires { AreReadWithin read claims.now }
    ensures { result ≡ new_status claims.now seen.now x.now }
{
    if x.claim.write_half {
        new_write_status(claims, seen, read, x)
    } else {
        new_read_status(seen, x)
    }
}

/// Adds a claim with this status. The status is set in place, because claims are large.
fn push_at(claims: &mut Vec<Claimed>, x: &Claimed, status: Status)
    requires { length claims.old.items < vec_capacity claims.old }
    ensures items { claims.new.items ≡ claims.old.items ++ with_status x.now status ∷ [] }
    ensures capacity { vec_capacity claims.new ≡ vec_capacity claims.old }
{
    let place = claims.len();
    claims.push_reserved(*x);
    claims[place].status = status;
}

/// Adds a new claim after settled ones, of which `seen` is seen, settles it, and grants what it asks for if it gets that.
#[tactic(auto, unfolding(crate::specs::NewClaim::new_claim))]
fn push_settled(claims: &mut Vec<Claimed>, seen: &Seen, read: ResourceSet, x: &Claimed)
    requires seen { seen.now ≡ seen_of claims.old.items }
    requires within { AreReadWithin read claims.old.items }
    requires room { length claims.old.items < vec_capacity claims.old }
    ensures items { claims.new.items ≡ claims.old.items ++ new_claim claims.old.items x.now ∷ [] }
    ensures capacity { vec_capacity claims.new ≡ vec_capacity claims.old }
{
    let status = new_status(claims, seen, read, x);
    push_at(claims, x, status);
    give_last(claims);
}

/// Adds a new claim after settled ones, settles it, grants what it asks for if it gets that, and reports its changes.
/// `seen` is what is seen of the claims, and what they read lies within `read`.
pub(crate) fn push_new(
    claims: &mut Vec<Claimed>,
    seen: &mut Seen,
    read: ResourceSet,
    x: &Claimed,
    changes: &mut Changes,
)
    requires seen { seen.old ≡ seen_of claims.old.items }
    requires within { AreReadWithin read claims.old.items }
    requires room { length claims.old.items < vec_capacity claims.old }
    requires read_only { x.now.claim.write_half ≡ false → x.now.claim.writes ≡ empty }
    requires statuses_room { length changes.old.statuses < STATUS_ROOM }
    requires grants_room { length changes.old.grants < GRANT_ROOM }
    ensures items { claims.new.items ≡ claims.old.items ++ new_claim claims.old.items x.now ∷ [] }
    ensures seen { seen.new ≡ seen_of claims.new.items }
    ensures capacity { vec_capacity claims.new ≡ vec_capacity claims.old }
    ensures changes { changes.new ≡ with_change changes.old x.now (new_claim claims.old.items x.now) }
{
    let place = claims.len();
    push_settled(claims, seen, read, x);
    let now = &claims[place];
    tell_claim(x, now, changes);
    *seen = with_seen(*seen, now);
}

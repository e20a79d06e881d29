// From requests to claims.
ghost use Rattle.std.specs.Prelude.{◌≡◌, true, ◌≤◌, ◌+◌, IsTrue, length, map, vec_capacity};
ghost use Rattle.std.specs.FinSet.{is_subset};
ghost use Rattle.rset.specs.Sets.{all_below};
ghost use Rattle.rclaim.specs.Requests.{IsNormal};
ghost use Rattle.rclaim.specs.Changes.{no_changes};
ghost use Rattle.rmodel.specs.Claims.{claim_of, claims_of, waiting};
ghost use Rattle.rplain.specs.NewClaim.{seen_of, settled_behind, told_behind};
ghost use Rattle.rplain.specs.Sweep.{AreReadWithin};

use crate::new_claim::push_new;
use crate::seen::Seen;
use rclaim::{Changes, Claim, Kind, Request};
use rexpand::Groups;
use rmodel::Claimed;
use rset::ResourceSet;

// A read claim, or a write claim, at a stamp and a seat.
fn claim_of(
    groups: &Groups,
    write_half: bool,
    stamp: u64,
    seat: u8,
    kind: Kind,
    reads: ResourceSet,
    writes: ResourceSet,
) -> Claim
    requires { IsTrue (all_below groups.now.q writes) }
    ensures { result ≡ claim_of groups.now.groups write_half stamp seat kind reads writes }
{
    let places = if write_half {
        groups.places(reads, writes)
    } else {
        reads
    };
    Claim {
        stamp,
        seat,
        kind,
        write_half,
        reads,
        writes,
        places,
    }
}

/// Adds the claims of a request after settled ones, settles them, grants what they ask for if they get it, and reports
/// their changes. `seen` is what is seen of the claims, and what they and the request read lies within `read`.
pub fn push_claims(
    claims: &mut Vec<Claimed>,
    seen: &mut Seen,
    read: ResourceSet,
    groups: &Groups,
    stamp: u64,
    seat: u8,
    request: &Request,
    changes: &mut Changes,
)
    requires seen { seen.old ≡ seen_of claims.old.items }
    requires within { AreReadWithin read claims.old.items }
    requires request_within { is_subset request.now.reads read ≡ true }
    requires reads { IsTrue (all_below groups.now.q request.now.reads) }
    requires writes { IsTrue (all_below groups.now.q request.now.writes) }
    requires room { length claims.old.items + length (claims_of groups.now.groups stamp seat request.now) ≤ vec_capacity claims.old }
    requires none { changes.old ≡ no_changes }
    ensures items { claims.new.items ≡ settled_behind claims.old.items (map (waiting request.now.first) (claims_of groups.now.groups stamp seat request.now)) }
    ensures seen { seen.new ≡ seen_of claims.new.items }
    ensures capacity { vec_capacity claims.new ≡ vec_capacity claims.old }
    ensures changes { changes.new ≡ told_behind no_changes claims.old.items (map (waiting request.now.first) (claims_of groups.now.groups stamp seat request.now)) }
    ensures normal { IsNormal request.now }
{
    let kind = request.kind();
    let reads = request.reads();
    let writes = request.writes();
    let first = request.first();
    let none = ResourceSet::empty();
    match kind {
        Kind::Read => {
            let claim = claim_of(groups, false, stamp, seat, kind, reads, writes);
            push_new(claims, seen, read, &Claimed::waiting(first, claim), changes);
        }
        Kind::Write | Kind::Mixed | Kind::Nested => {
            let claim = claim_of(groups, true, stamp, seat, kind, reads, writes);
            push_new(claims, seen, read, &Claimed::waiting(first, claim), changes);
        }
        Kind::Upgrade => {
            let read_half = claim_of(groups, false, stamp, seat, kind, reads, none);
            let write_half = claim_of(groups, true, stamp, seat, kind, none, reads);
            push_new(
                claims,
                seen,
                read,
                &Claimed::waiting(first, read_half),
                changes,
            );
            push_new(
                claims,
                seen,
                read,
                &Claimed::waiting(first, write_half),
                changes,
            );
        }
    }
}

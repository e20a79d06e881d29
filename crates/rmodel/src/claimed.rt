// A claim of the lock state, with how far it has come.
ghost use Rattle.std.specs.Prelude.{◌≡◌};
ghost use Rattle.rmodel.specs.Claims.{is_active, is_entitled, is_satisfied, is_nested, is_upgrade, is_read_half, conflicts_on, touches, share_place, waiting};
ghost use Rattle.rmodel.specs.Holds.{held_by};

use crate::Granted;
use rclaim::{Claim, Kind, Status};
use rset::ResourceSet;

/// A claim, its status, and for a nested request what it asks for and what it was granted.
#[derive(Clone, Copy)]
pub struct Claimed {
    /// What the request claims.
    pub claim: Claim,
    /// Whether it waits, is next, or holds.
    pub status: Status,
    /// What its request asks for and was not granted yet; empty where the request is not nested.
    pub asked: ResourceSet,
    /// What its request was granted so far; empty where the request is not nested.
    pub granted: ResourceSet,
}

impl Claimed {
    /// A claim that waits, asks for this part, and was granted nothing.
    pub fn waiting(first: ResourceSet, claim: Claim) -> Claimed
        ensures { result ≡ waiting first claim }
    {
        Claimed {
            claim,
            status: Status::Waiting,
            asked: first,
            granted: ResourceSet::empty(),
        }
    }

    /// What the claim holds.
    pub fn held(&self) -> Granted
        ensures { result ≡ held_by self.now }
    {
        if is_nested(self.claim.kind) {
            Granted {
                reads: self.granted.meet(self.claim.reads),
                writes: self.granted.meet(self.claim.writes),
            }
        } else if self.is_satisfied() {
            Granted {
                reads: self.claim.reads,
                writes: self.claim.writes,
            }
        } else {
            Granted::nothing()
        }
    }

    /// Whether it is satisfied.
    pub fn is_satisfied(&self) -> bool
        ensures { result ≡ is_satisfied self.now }
    {
        matches!(self.status, Status::Satisfied)
    }

    /// Whether it is entitled.
    pub fn is_entitled(&self) -> bool
        ensures { result ≡ is_entitled self.now }
    {
        matches!(self.status, Status::Entitled)
    }

    /// Whether it is entitled or satisfied.
    pub fn is_active(&self) -> bool
        ensures { result ≡ is_active self.now }
    {
        !matches!(self.status, Status::Waiting)
    }
}

/// Whether a request of this kind is nested.
pub fn is_nested(kind: Kind) -> bool
    ensures { result ≡ is_nested kind }
{
    matches!(kind, Kind::Nested)
}

/// Whether a request of this kind is an upgrade.
pub fn is_upgrade(kind: Kind) -> bool
    ensures { result ≡ is_upgrade kind }
{
    matches!(kind, Kind::Upgrade)
}

/// Whether the claim is the read half of an upgrade.
pub fn is_read_half(claim: &Claim) -> bool
    ensures { result ≡ is_read_half claim.now }
{
    is_upgrade(claim.kind) && !claim.write_half
}

/// Whether the claim reads or writes one of these resources.
#[tactic(auto, using(rset::proofs::SetsMeet::meets_union_left))]
fn touches(claim: &Claim, resources: ResourceSet) -> bool
    ensures { result ≡ touches claim.now resources }
{
    claim.reads.union(claim.writes).meets(resources)
}

/// Whether the claim conflicts with an asker on a part of what the asker reads and writes.
pub fn conflicts_on(claim: &Claim, asker: &Claim, part: ResourceSet) -> bool
    ensures { result ≡ conflicts_on claim.now asker.now part }
{
    claim.writes.meets(part) || touches(claim, part.meet(asker.writes))
}

/// Whether the claims share a place.
pub fn share_place(a: &Claim, b: &Claim) -> bool
    ensures { result ≡ share_place a.now b.now }
{
    a.places.meets(b.places)
}

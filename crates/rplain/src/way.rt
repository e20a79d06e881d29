// What the rules require of a list for one write to enter.
ghost use Rattle.std.specs.Prelude.{◌≡◌};
ghost use Rattle.rplain.specs.NewClaim.{is_past};
ghost use Rattle.rmodel.specs.Rules.{is_earlier_write};
ghost use Rattle.rmodel.specs.Settling.{read_near, is_clear};

use rclaim::Claim;
use rmodel::{Claimed, share_place};
use rset::ResourceSet;

/// Whether a claim is a write of smaller stamp than `claim`.
pub(crate) fn is_earlier_write(claim: &Claim, other: &Claim) -> bool
    ensures { result ≡ is_earlier_write claim.now other.now }
{
    other.write_half & (other.stamp < claim.stamp)
}

/// Whether each earlier write that shares a place with the claim is satisfied and writes nothing of `away`.
#[tactic(auto, unfolding(rmodel::specs::Settling::is_clear))]
fn is_clear(claims: &[Claimed], claim: &Claim, away: ResourceSet) -> bool
    ensures { result ≡ is_clear claims.now claim.now away }
{
    claims.iter().all(|v| {
        !(share_place(&v.claim, claim) && is_earlier_write(claim, &v.claim))
            || v.is_satisfied() && !v.claim.writes.meets(away)
    })
}

/// What is read by the unsatisfied reads that touch these resources.
#[tactic(auto, unfolding(rmodel::specs::Settling::read_near))]
pub(crate) fn read_near(claims: &[Claimed], resources: ResourceSet) -> ResourceSet
    ensures { result ≡ read_near claims.now resources }
{
    claims.iter().fold(ResourceSet::empty(), |all, x| {
        if x.claim.reads.meets(resources) && !x.claim.write_half && !x.is_satisfied() {
            all.union(x.claim.reads)
        } else {
            all
        }
    })
}

/// Whether each earlier write that shares a place with the claim writes nothing of what the reads near it read. Where
/// there are no such reads, no claim is looked at.
pub(crate) fn is_past(claims: &[Claimed], claim: &Claim, near: ResourceSet) -> bool
    ensures { result ≡ is_past claims.now claim.now near }
{
    near.len() == 0 || is_clear(claims, claim, near)
}

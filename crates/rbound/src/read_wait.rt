// The numbers that bound the wait of a read claim, and of an ask.
ghost use Rattle.std.specs.Prelude.{◌≡◌, ◌&&◌};
ghost use Rattle.std.specs.List.{list_any};
ghost use Rattle.rmodel.specs.Claims.{touches, conflicts};
ghost use Rattle.rbound.specs.Bounds.{can_hold_up, may_keep, may_delay, may_bar};
ghost use Rattle.rbound.specs.Longest.{longest};

use crate::Needed;
use crate::longest::longer;
use rclaim::Claim;
use rmodel::is_read_half;
use rset::ResourceSet;

/// Whether the claim reads or writes one of these resources.
fn touches(claim: &Claim, resources: ResourceSet) -> bool
    ensures { result ≡ touches claim.now resources }
{
    claim.reads.meets(resources) || claim.writes.meets(resources)
}

/// Whether the claims conflict.
fn conflicts(a: &Claim, b: &Claim) -> bool
    ensures { result ≡ conflicts a.now b.now }
{
    touches(b, a.writes) || touches(a, b.writes)
}

/// Whether a claim can hold up a write claim.
fn can_hold_up(claim: &Claim, write: &Claim) -> bool
    ensures { result ≡ can_hold_up claim.now write.now }
{
    claim.reads.meets(write.writes)
        && (claim.seat != write.seat || is_read_half(claim) && claim.stamp == write.stamp)
}

/// Whether it is a write claim of another task that conflicts with the read claim.
fn may_keep(read: &Claim, need: &Needed) -> bool
    ensures { result ≡ may_keep read.now need.now }
{
    need.claim.write_half && need.claim.seat != read.seat && conflicts(&need.claim, read)
}

/// Whether a claim can hold up a write that may keep the read claim waiting.
fn holds_up_keeper(needs: &[Needed], read: &Claim, claim: &Claim) -> bool
    ensures { result ≡ list_any (λ v. may_keep read.now v && can_hold_up claim.now v.claim) needs.now }
{
    needs
        .iter()
        .any(|v| may_keep(read, v) && can_hold_up(claim, &v.claim))
}

/// Whether it is a claim of another task that can hold up such a write.
fn may_delay(needs: &[Needed], read: &Claim, need: &Needed) -> bool
    ensures { result ≡ may_delay needs.now read.now need.now }
{
    need.claim.seat != read.seat && holds_up_keeper(needs, read, &need.claim)
}

/// Whether it is a claim of another task that reads some of what the asker wants to write.
fn may_bar(claim: &Claim, part: ResourceSet, need: &Needed) -> bool
    ensures { result ≡ may_bar claim.now part need.now }
{
    need.claim.seat != claim.seat && need.claim.reads.meets(part.meet(claim.writes))
}

/// The longest write that may keep the read claim waiting.
pub(crate) fn longest_keeper(needs: &[Needed], read: &Claim) -> Option<u32>
    ensures { result ≡ longest (may_keep read.now) needs.now }
{
    needs.iter().fold(None, |most, n| {
        if may_keep(read, n) {
            longer(most, Some(n.len))
        } else {
            most
        }
    })
}

/// The longest claim that may delay such a write.
pub(crate) fn longest_delay(needs: &[Needed], read: &Claim) -> Option<u32>
    ensures { result ≡ longest (may_delay needs.now read.now) needs.now }
{
    needs.iter().fold(None, |most, n| {
        if may_delay(needs, read, n) {
            longer(most, Some(n.len))
        } else {
            most
        }
    })
}

/// The longest claim that may bar the ask.
pub(crate) fn longest_bar(needs: &[Needed], claim: &Claim, part: ResourceSet) -> Option<u32>
    ensures { result ≡ longest (may_bar claim.now part) needs.now }
{
    needs.iter().fold(None, |most, n| {
        if may_bar(claim, part, n) {
            longer(most, Some(n.len))
        } else {
            most
        }
    })
}

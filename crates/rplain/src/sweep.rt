// Settles the claims that a removal leaves, in one pass by rising stamp. Nearly all are quickly seen to stay as they are.
ghost use Rattle.std.specs.FinSet.{empty};
ghost use Rattle.std.specs.Prelude.{◌≡◌, ◌<◌, ◌≤◌, true, false, length, slice_index_or, slice_set};
ghost use Rattle.std.specs.List.{list_any};
ghost use Rattle.rclaim.specs.declared.TheConstants.{STATUS_ROOM, GRANT_ROOM};
ghost use Rattle.rclaim.specs.Changes.{no_changes};
ghost use Rattle.rmodel.specs.Changes.{status_changes, grant_changes, with_change};
ghost use Rattle.rplain.specs.NewClaim.{seen_of, with_seen};
ghost use Rattle.rmodel.specs.Settling.{settled};
ghost use Rattle.rplain.specs.Sweep.{stands, is_near, with_near, still_near, reads_of, is_read_still, is_held_still, is_past_still, write_remains, remains, read_swept, write_swept, swept_status, swept, IsLeft};
ghost use Rattle.rmodel.specs.declared.claimed.Claimed.{Claimed};

use crate::left::Left;
use crate::seen::{Seen, no_seen, with_seen, with_write};
use crate::tell::tell_claim;
use crate::way::{is_earlier_write, is_past};
use rclaim::{Changes, Claim, Status};
use rmodel::Claimed;
use rset::ResourceSet;

/// Whether a claim is satisfied after the removal.
fn stands(left: &Left, x: &Claimed) -> bool
    ensures { result ≡ stands left.now x.now }
{
    x.is_satisfied() | (!x.claim.write_half & left.written.meets(x.claim.reads))
}

/// Whether a claim is a read near these resources that keeps waiting. Few claims read what another touches, so that is
/// tested first.
fn is_near(left: &Left, resources: ResourceSet, x: &Claimed) -> bool
    ensures { result ≡ is_near left.now resources x.now }
{
    x.claim.reads.meets(resources) && !x.claim.write_half && !stands(left, x)
}

/// Whether some read near these resources keeps waiting.
fn some_near(left: &Left, claims: &[Claimed], resources: ResourceSet) -> bool
    ensures { result ≡ list_any (is_near left.now resources) claims.now }
{
    claims.iter().any(|x| is_near(left, resources, x))
}

/// The resources of `all`, with what the claim reads if it is a read near `resources` that keeps waiting.
fn with_near(left: &Left, resources: ResourceSet, all: ResourceSet, x: &Claimed) -> ResourceSet
    ensures { result ≡ with_near left.now resources all x.now }
{
    if is_near(left, resources, x) {
        all.union(x.claim.reads)
    } else {
        all
    }
}

/// What is read near these resources by reads that keep waiting.
#[tactic(auto, unfolding(crate::specs::Sweep::still_near))]
fn still_near(left: &Left, claims: &[Claimed], resources: ResourceSet) -> ResourceSet
    ensures { result ≡ still_near left.now claims.now resources }
{
    claims.iter().fold(ResourceSet::empty(), |all, x| {
        with_near(left, resources, all, x)
    })
}

/// Whether a claim is a satisfied read, or a satisfied write of smaller stamp, and reads what another writes. Few claims
/// read that, so it is tested first.
fn reads_of(left: &Left, v: &Claimed, claim: &Claim) -> bool
    ensures { result ≡ reads_of left.now claim.now v.now }
{
    let counts = !v.claim.write_half | is_earlier_write(claim, &v.claim);
    v.claim.reads.meets(claim.writes) && stands(left, v) & counts
}

/// Whether a satisfied read, or a satisfied write of smaller stamp, reads what the claim writes.
fn is_read_still(left: &Left, claims: &[Claimed], claim: &Claim) -> bool
    ensures { result ≡ is_read_still left.now claims.now claim.now }
{
    claims.iter().any(|v| reads_of(left, v, claim))
}

/// Whether a satisfied read, or a satisfied write of smaller stamp, conflicts with the claim. Where nobody reads what it
/// writes, no claim is looked at.
fn is_held_still(left: &Left, seen: &Seen, claims: &[Claimed], claim: &Claim) -> bool
    ensures { result ≡ is_held_still left.now seen.now claims.now claim.now }
{
    seen.kept.meets(claim.reads)
        || seen.kept.meets(claim.writes)
        || left.read.meets(claim.writes) && is_read_still(left, claims, claim)
}

/// Whether each earlier write that shares a place with the claim writes nothing that is read by the reads near the claim
/// that keep waiting. Where nobody reads a place of the claim, no claim is looked at, and where no such read waits, no
/// write is.
fn is_past_still(left: &Left, claims: &[Claimed], claim: &Claim) -> bool
    ensures { result ≡ is_past_still left.now claims.now claim.now }
{
    !left.read.meets(claim.places)
        || !some_near(left, claims, claim.places)
        || is_past(claims, claim, still_near(left, claims, claim.places))
}

/// Whether it is quickly seen that a claim stays as it is. There is no branch, as nothing predicts what a claim is. So it is
/// not tested whether the claim is satisfied, though all satisfied claims stay as they are.
#[inline]
fn remains(left: &Left, seen: &Seen, x: &Claimed) -> bool
    ensures { result ≡ remains left.now seen.now x.now }
{
    let write = x.claim.write_half;
    let active = x.is_active();
    let untouched = active & !left.freed.meets(x.claim.places);
    let barred = !active & seen.bars.meets(x.claim.places);
    let kept = seen.kept.meets(x.claim.reads);
    let waits = !left.written.meets(x.claim.reads) & (x.is_entitled() == kept);
    (write & (untouched | barred)) | (!write & waits)
}

/// The same for a write.
#[inline]
fn write_remains(left: &Left, seen: &Seen, x: &Claimed) -> bool
    ensures { result ≡ write_remains left.now seen.now x.now }
{
    let places = x.claim.places;
    let active = x.is_active();
    (active & !left.freed.meets(places)) | (!active & seen.bars.meets(places))
}

/// The status of an unsatisfied read that is not quickly seen to stay.
fn read_swept(left: &Left, seen: &Seen, x: &Claimed) -> Status
    ensures { result ≡ read_swept left.now seen.now x.now }
{
    if left.written.meets(x.claim.reads) {
        Status::Satisfied
    } else if seen.kept.meets(x.claim.reads) {
        Status::Entitled
    } else {
        Status::Waiting
    }
}

/// The status of an unsatisfied write that is not quickly seen to stay.
fn write_swept(left: &Left, seen: &Seen, claims: &[Claimed], x: &Claimed) -> Status
    ensures { result ≡ write_swept left.now seen.now claims.now x.now }
{
    if !x.is_active() && !is_past_still(left, claims, &x.claim) {
        Status::Waiting
    } else if is_held_still(left, seen, claims, &x.claim) {
        Status::Entitled
    } else {
        Status::Satisfied
    }
}

/// The status of a claim that is not quickly seen to stay.
fn swept_status(left: &Left, seen: &Seen, claims: &[Claimed], x: &Claimed) -> Status
    ensures { result ≡ swept_status left.now seen.now claims.now x.now }
{
    if x.is_satisfied() {
        Status::Satisfied
    } else if x.claim.write_half {
        write_swept(left, seen, claims, x)
    } else {
        read_swept(left, seen, x)
    }
}

/// The claim at a place, which is not quickly seen to stay, after the pass.
#[tactic(auto, unfolding(crate::specs::Sweep::swept))]
fn swept_at(claims: &[Claimed], i: usize, left: &Left, seen: &Seen) -> Claimed
    requires place { i < length claims.now }
    requires goes { (d : Claimed) → remains left.now seen.now (slice_index_or claims.now i d) ≡ false }
    ensures { (d : Claimed) → result ≡ swept left.now seen.now claims.now (slice_index_or claims.now i d) }
{
    let x = &claims[i];
    Claimed {
        status: swept_status(left, seen, claims, x),
        ..*x
    }
}

/// Settles the claim at a place, which is not quickly seen to stay, and reports its changes.
#[inline(never)]
fn sweep_claim(claims: &mut [Claimed], i: usize, left: &Left, seen: Seen, changes: &mut Changes)
    requires place { i < length claims.old }
    requires goes { (d : Claimed) → remains left.now seen (slice_index_or claims.old i d) ≡ false }
    requires statuses_room { length changes.old.statuses < STATUS_ROOM }
    requires grants_room { length changes.old.grants < GRANT_ROOM }
    ensures claims { (d : Claimed) → claims.new ≡ slice_set claims.old i (swept left.now seen claims.old (slice_index_or claims.old i d)) }
    ensures changes { (d : Claimed) → let x = slice_index_or claims.old i d in changes.new ≡ with_change changes.old x (swept left.now seen claims.old x) }
{
    let now = swept_at(claims, i, left, &seen);
    tell_claim(&claims[i], &now, changes);
    claims[i].status = now.status;
}

/// Settles the claim at a place, reports its changes, and answers what is seen of the claims up to this one. Most claims
/// stay, so what is seen of those is added on a path of its own.
#[inline]
fn sweep_at(
    claims: &mut [Claimed],
    i: usize,
    left: &Left,
    seen: Seen,
    changes: &mut Changes,
) -> Seen
    requires place { i < length claims.old }
    requires read_only { (d : Claimed) → let y = swept left.now seen claims.old (slice_index_or claims.old i d) in y.claim.write_half ≡ false → y.claim.writes ≡ empty }
    requires statuses_room { length changes.old.statuses < STATUS_ROOM }
    requires grants_room { length changes.old.grants < GRANT_ROOM }
    ensures claims { (d : Claimed) → claims.new ≡ slice_set claims.old i (swept left.now seen claims.old (slice_index_or claims.old i d)) }
    ensures changes { (d : Claimed) → let x = slice_index_or claims.old i d in changes.new ≡ with_change changes.old x (swept left.now seen claims.old x) }
    ensures seen { (d : Claimed) → result ≡ with_seen seen (swept left.now seen claims.old (slice_index_or claims.old i d)) }
{
    let x = &claims[i];
    if remains(left, &seen, x) {
        return with_seen(seen, x);
    }
    sweep_claim(claims, i, left, seen, changes);
    with_seen(seen, &claims[i])
}

/// The same for a claim that is a write.
#[inline]
fn sweep_write_at(
    claims: &mut [Claimed],
    i: usize,
    left: &Left,
    seen: Seen,
    changes: &mut Changes,
) -> Seen
    requires place { i < length claims.old }
    requires write { (d : Claimed) → (slice_index_or claims.old i d).claim.write_half ≡ true }
    requires statuses_room { length changes.old.statuses < STATUS_ROOM }
    requires grants_room { length changes.old.grants < GRANT_ROOM }
    ensures claims { (d : Claimed) → claims.new ≡ slice_set claims.old i (swept left.now seen claims.old (slice_index_or claims.old i d)) }
    ensures changes { (d : Claimed) → let x = slice_index_or claims.old i d in changes.new ≡ with_change changes.old x (swept left.now seen claims.old x) }
    ensures seen { (d : Claimed) → result ≡ with_seen seen (swept left.now seen claims.old (slice_index_or claims.old i d)) }
{
    let x = &claims[i];
    if write_remains(left, &seen, x) {
        return with_write(seen, x);
    }
    sweep_claim(claims, i, left, seen, changes);
    with_write(seen, &claims[i])
}

/// Settles the claims where all are writes, because nobody has read anything.
#[inline(never)]
fn sweep_writes(claims: &mut [Claimed], left: &Left, changes: &mut Changes) -> Seen
    requires left { IsLeft claims.old left.now }
    requires writes { left.now.read ≡ empty }
    requires room { length claims.old ≤ GRANT_ROOM }
    requires none { changes.old ≡ no_changes }
    ensures claims { claims.new ≡ settled claims.old }
    ensures seen { result ≡ seen_of claims.new }
    ensures statuses { changes.new.statuses ≡ status_changes claims.old claims.new }
    ensures grants { changes.new.grants ≡ grant_changes claims.old claims.new }
{
    let mut seen = no_seen();
    for i in 0..claims.len() {
        seen = sweep_write_at(claims, i, left, seen, changes);
    }
    seen
}

/// Settles the claims of any kind.
fn sweep_all(claims: &mut [Claimed], left: &Left, changes: &mut Changes) -> Seen
    requires left { IsLeft claims.old left.now }
    requires room { length claims.old ≤ GRANT_ROOM }
    requires none { changes.old ≡ no_changes }
    ensures claims { claims.new ≡ settled claims.old }
    ensures seen { result ≡ seen_of claims.new }
    ensures statuses { changes.new.statuses ≡ status_changes claims.old claims.new }
    ensures grants { changes.new.grants ≡ grant_changes claims.old claims.new }
{
    let mut seen = no_seen();
    for i in 0..claims.len() {
        seen = sweep_at(claims, i, left, seen, changes);
    }
    seen
}

/// Settles the claims that a removal leaves, reports their changes, and makes `seen` what is then seen of them.
pub(crate) fn sweep(claims: &mut [Claimed], left: &Left, changes: &mut Changes, seen: &mut Seen)
    requires left { IsLeft claims.old left.now }
    requires room { length claims.old ≤ GRANT_ROOM }
    requires none { changes.old ≡ no_changes }
    ensures claims { claims.new ≡ settled claims.old }
    ensures seen { seen.new ≡ seen_of claims.new }
    ensures statuses { changes.new.statuses ≡ status_changes claims.old claims.new }
    ensures grants { changes.new.grants ≡ grant_changes claims.old claims.new }
{
    *seen = if left.read.is_empty() {
        sweep_writes(claims, left, changes)
    } else {
        sweep_all(claims, left, changes)
    };
}

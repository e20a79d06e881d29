// What removed claims leave for the others.
ghost use Rattle.std.specs.Prelude.{◌≡◌, ℕ, true, Some, None, IfSome, not, filter, position, slice_index_or, vec_capacity};
ghost use Rattle.rplain.specs.Sweep.{IsLone, none_gone, with_left, left_by, is_of, is_read_of};
ghost use Rattle.rmodel.specs.Claims.{is_read_half};
ghost use Rattle.rmodel.specs.WellFormed.{EachPair, Distinct};
ghost use Rattle.rmodel.specs.declared.claimed.Claimed.{Claimed};

use crate::removals::{remove_read_half, remove_seat};
use rmodel::{Claimed, is_read_half};
use rset::ResourceSet;

/// What removed claims leave for the others.
#[derive(Clone, Copy)]
pub struct Left {
    /// What the entitled and satisfied writes among them wrote.
    pub written: ResourceSet,
    /// What they read or wrote.
    pub freed: ResourceSet,
    /// A set that has everything that the remaining claims read.
    pub read: ResourceSet,
}

/// Nothing is gone.
fn none_gone(read: ResourceSet) -> Left
    ensures { result ≡ none_gone read }
{
    Left {
        written: ResourceSet::empty(),
        freed: ResourceSet::empty(),
        read,
    }
}

/// What is gone, with one more claim.
fn with_left(all: Left, x: &Claimed) -> Left
    ensures { result ≡ with_left all x.now }
{
    let reads = x.claim.reads;
    let writes = x.claim.writes;
    Left {
        written: if x.claim.write_half && x.is_active() {
            all.written.union(writes)
        } else {
            all.written
        },
        freed: all.freed.union(reads.union(writes)),
        read: all.read,
    }
}

/// What the claims of a seat leave when they are removed.
#[tactic(auto, unfolding(crate::specs::Sweep::left_by))]
fn left_by_seat(claims: &[Claimed], seat: u8, read: ResourceSet) -> Left
    ensures { result ≡ left_by (is_of seat) read claims.now }
{
    claims.iter().fold(none_gone(read), |all, x| {
        if x.claim.seat == seat {
            with_left(all, x)
        } else {
            all
        }
    })
}

/// What the read claim of a seat leaves when it is removed.
#[tactic(auto, unfolding(crate::specs::Sweep::left_by))]
fn left_by_read_half(claims: &[Claimed], seat: u8, read: ResourceSet) -> Left
    ensures { result ≡ left_by (is_read_of seat) read claims.now }
{
    claims.iter().fold(none_gone(read), |all, x| {
        if x.claim.seat == seat && !x.claim.write_half {
            with_left(all, x)
        } else {
            all
        }
    })
}

/// The place of the first claim of a seat, if that is not a read half: then the seat has no other claim.
fn lone_place(claims: &[Claimed], seat: u8, place: Option<usize>) -> Option<usize>
    requires { place ≡ position (is_of seat) claims.now }
    ensures lone { IfSome result (IsLone (is_of seat) claims.now) }
    ensures none { result ≡ None → (i : ℕ) (d : Claimed) → place ≡ Some i → is_read_half (slice_index_or claims.now i d).claim ≡ true }
{
    let i = place?;
    if is_read_half(&claims[i].claim) {
        return None;
    }
    Some(i)
}

/// Removes the claims of a seat, and answers what they leave. Only an upgrade that has not risen has two. `place` is
/// the place of the first, and what the claims read lies within `read`.
pub fn take_seat(
    claims: &mut Vec<Claimed>,
    seat: u8,
    place: Option<usize>,
    read: ResourceSet,
) -> Left
    requires distinct { EachPair Distinct claims.old.items }
    requires place { place ≡ position (is_of seat) claims.old.items }
    ensures items { claims.new.items ≡ filter (λ x. not (is_of seat x)) claims.old.items }
    ensures left { result ≡ left_by (is_of seat) read claims.old.items }
    ensures capacity { vec_capacity claims.new ≡ vec_capacity claims.old }
{
    if let Some(i) = lone_place(claims, seat, place) {
        let gone = claims.remove(i);
        return with_left(none_gone(read), &gone);
    }
    let left = left_by_seat(claims, seat, read);
    remove_seat(claims, seat);
    left
}

/// Removes the read half of a seat's upgrade, and answers what it leaves. What the claims read lies within `read`.
pub fn take_read_half(claims: &mut Vec<Claimed>, seat: u8, read: ResourceSet) -> Left
    ensures items { claims.new.items ≡ filter (λ x. not (is_read_of seat x)) claims.old.items }
    ensures left { result ≡ left_by (is_read_of seat) read claims.old.items }
    ensures capacity { vec_capacity claims.new ≡ vec_capacity claims.old }
{
    let left = left_by_read_half(claims, seat, read);
    remove_read_half(claims, seat);
    left
}

// The least claims of the lines of all writes.
ghost use Rattle.std.specs.Prelude.{if◌then◌else◌, ◌≡◌, ◌≢◌, ◌&&◌, ◌||◌, ◌≤◌, ◌<◌, ◌==◌, ◌++◌, ◌∷◌, [], ℕ, true, false, take, length, slice_get};
ghost use Rattle.std.specs.List.{AllByRecursion};
ghost use Rattle.rmodel.specs.WellFormed.{EachPair, Rises, Distinct};
ghost use Rattle.std.specs.FinSet.{contains, empty};
ghost use Rattle.rset.specs.declared.TheConstants.{SEATS};
ghost use Rattle.rcover.specs.Lines.{no_head, own_head, lowered, head_of, TellAt, heads_with, set_at, is_touched, IsBehind, HoldMore, IsTold};
ghost use Rattle.rmodel.specs.Claims.{satisfied_by};
ghost use Rattle.rcover_laws.specs.Line.{least_of};
ghost use Rattle.rcover_laws.specs.Moments.{Moment};
ghost use Rattle.rcover.specs.Found.{AreBefore, IsFound};
ghost use Rattle.rcover.specs.Heads.{StayWithoutWrite};
ghost use Rattle.rcover.specs.Shares.{is_write_of};

use crate::writes_told::is_write_told;
use rclaim::{Claim, Kind, StatusChange};
use rmodel::Claimed;
use rset::{ResourceSet, SEATS};

/// The least claim in the line of a write, and whether it is satisfied.
#[derive(Clone, Copy)]
pub struct Head {
    /// The least claim.
    pub claim: Claim,
    /// Whether it is satisfied.
    pub holds: bool,
}

/// What is found of the line of a write, looking from its end: the seat and the stamp of its least claim so far, and the places
/// of the write that no write so far has.
#[derive(Clone, Copy)]
pub(crate) struct Found {
    pub(crate) seat: u8,
    pub(crate) stamp: u64,
    pub(crate) left: ResourceSet,
}

/// The head of no line.
pub(crate) fn no_head() -> Head
    ensures { result ≡ no_head }
{
    Head {
        claim: Claim {
            stamp: 0,
            seat: SEATS,
            kind: Kind::Read,
            write_half: false,
            reads: ResourceSet::empty(),
            writes: ResourceSet::empty(),
            places: ResourceSet::empty(),
        },
        holds: false,
    }
}

/// A write as the least of its line.
fn own_head(x: &Claimed) -> Head
    ensures { result ≡ own_head x.now }
{
    Head {
        claim: x.claim,
        holds: x.is_satisfied(),
    }
}

/// What is found of a line once another claim is reached, if these places are left.
fn lower(found: Found, least: &Claim, left: ResourceSet) -> Found
    ensures { result ≡ lowered found least.now left }
{
    if least.stamp < found.stamp {
        Found {
            seat: least.seat,
            stamp: least.stamp,
            left,
        }
    } else {
        Found {
            seat: found.seat,
            stamp: found.stamp,
            left,
        }
    }
}

/// Takes into what is found of a write's line a claim before the others, and answers whether each place was met. If that claim is
/// a write with some of the places that are left, the least claim of its line is reached; if it has none of them, that claim is
/// reached by a later write too.
fn reach(found: &mut Found, heads: &[Head], y: &Claimed) -> bool
    requires seat { y.now.claim.seat < length heads.now }
    ensures found { (m : Moment) (c : Claim) (zs : Moment) → AreBefore m c (y.now ∷ zs) → TellAt heads.now m (y.now ∷ []) → IsFound m c zs found.old → IsFound m c (y.now ∷ zs) found.new }
    ensures met { result ≡ true → found.new.left ≡ empty }
{
    if !y.claim.places.meets(found.left) {
        return false;
    }
    if !y.claim.write_half {
        return false;
    }
    *found = lower(
        *found,
        &heads[y.claim.seat as usize].claim,
        found.left.minus(y.claim.places),
    );
    found.left.is_empty()
}

/// What is found of the line of a write among the claims before it, from the last to the first.
pub(crate) fn found_before(heads: &[Head], before: &[Claimed], x: &Claimed) -> Found
    requires seats { AllByRecursion (λ y. y.claim.seat < length heads.now) before.now }
    ensures { (rest : Moment) → EachPair Rises (before.now ++ x.now ∷ rest) → x.now.claim.write_half ≡ true → TellAt heads.now (before.now ++ x.now ∷ rest) before.now → IsFound (before.now ++ x.now ∷ rest) x.now.claim before.now result }
{
    let mut found = Found {
        seat: x.claim.seat,
        stamp: x.claim.stamp,
        left: x.claim.places,
    };
    for i in (0..before.len()).rev() {
        if reach(&mut found, heads, &before[i]) {
            return found;
        }
    }
    found
}

/// Sets the head of a write that comes after others, by the heads of those and what is found among them. That of its least claim
/// is copied from its place.
pub(crate) fn put_head(heads: &mut [Head], found: &Found, x: &Claimed)
    requires write { x.now.claim.write_half ≡ true }
    requires seat { x.now.claim.seat < length heads.old }
    ensures head { (before rest : Moment) → EachPair Rises (before ++ x.now ∷ rest) → EachPair Distinct (before ++ x.now ∷ rest) → TellAt heads.old (before ++ x.now ∷ rest) before → IsFound (before ++ x.now ∷ rest) x.now.claim before found.now
        → (seat : ℕ) → slice_get heads.new seat ≡ (if seat == x.now.claim.seat then Some (head_of (before ++ x.now ∷ rest) x.now.claim) else slice_get heads.old seat) }
    ensures others { (seat : ℕ) → seat ≢ x.now.claim.seat → slice_get heads.new seat ≡ slice_get heads.old seat }
    ensures len { length heads.new ≡ length heads.old }
{
    let at = x.claim.seat as usize;
    if found.seat == x.claim.seat {
        heads[at] = own_head(x);
        return;
    }
    let from = usize::from(found.seat);
    if from < heads.len() {
        heads[at] = heads[from];
    }
}

/// Notes that the least claim in the line of a seat's write belongs to this other seat.
pub(crate) fn note_behind(behind: &mut [ResourceSet], least: u8, seat: u8)
    requires { seat < SEATS }
    ensures own { least < length behind.old → contains (set_at behind.new least) seat ≡ true }
    ensures more { HoldMore behind.old behind.new }
    ensures len { length behind.new ≡ length behind.old }
{
    if usize::from(least) < behind.len() {
        behind[usize::from(least)] = behind[usize::from(least)].with(seat);
    }
}

/// Sets the head of a claim that comes after others, if it is a write.
fn tell_head(heads: &mut [Head], behind: &mut [ResourceSet], before: &[Claimed], x: &Claimed)
    requires low { x.now.claim.seat < SEATS }
    requires seat { x.now.claim.seat < length heads.old }
    requires seats { AllByRecursion (λ y. y.claim.seat < length heads.old) before.now }
    ensures heads { (rest : Moment) → EachPair Rises (before.now ++ x.now ∷ rest) → EachPair Distinct (before.now ++ x.now ∷ rest) → TellAt heads.old (before.now ++ x.now ∷ rest) before.now → (seat : ℕ) → slice_get heads.new seat ≡ heads_with heads.old (head_of (before.now ++ x.now ∷ rest) x.now.claim) x.now seat }
    ensures others { (seat : ℕ) → is_write_of seat x.now ≡ false → slice_get heads.new seat ≡ slice_get heads.old seat }
    ensures behind { (rest : Moment) → EachPair Rises (before.now ++ x.now ∷ rest) → EachPair Distinct (before.now ++ x.now ∷ rest) → TellAt heads.old (before.now ++ x.now ∷ rest) before.now → (least_of x.now.claim (before.now ++ x.now ∷ rest)).seat < length behind.old → x.now.claim.write_half ≡ true → IsBehind behind.new (before.now ++ x.now ∷ rest) x.now }
    ensures more { HoldMore behind.old behind.new }
    ensures len { length heads.new ≡ length heads.old }
    ensures behind_len { length behind.new ≡ length behind.old }
{
    if x.claim.write_half {
        let found = found_before(heads, before, x);
        put_head(heads, &found, x);
        note_behind(behind, found.seat, x.claim.seat);
    }
}

/// Sets the head of each write at a moment, where those before this place are known.
pub(crate) fn tell_heads(
    heads: &mut [Head],
    behind: &mut [ResourceSet],
    moment: &[Claimed],
    from: usize,
)
    requires from { from ≤ length moment.now }
    requires told { IsTold heads.old behind.old (take from moment.now) }
    requires low { AllByRecursion (λ x. x.claim.seat < SEATS) moment.now }
    requires behind { SEATS ≤ length behind.old }
    requires seats { AllByRecursion (λ x. x.claim.seat < length heads.old) moment.now }
    requires rising { EachPair Rises moment.now }
    requires one_each { EachPair Distinct moment.now }
    ensures told { IsTold heads.new behind.new moment.now }
    ensures others { StayWithoutWrite heads.old heads.new moment.now }
    ensures len { length heads.new ≡ length heads.old }
    ensures behind_len { length behind.new ≡ length behind.old }
{
    for i in from..moment.len() {
        tell_head(heads, behind, &moment[..i], &moment[i]);
    }
}

/// The set of a seat, or the empty set if it has none.
pub fn set_of(behind: &[ResourceSet], seat: u8) -> ResourceSet
    ensures { result ≡ set_at behind.now seat }
{
    match behind.get(usize::from(seat)) {
        Some(set) => *set,
        None => ResourceSet::empty(),
    }
}

/// The same seats, with those of the writes whose least claim is reported to be satisfied.
fn with_touched(touched: ResourceSet, behind: &[ResourceSet], s: &StatusChange) -> ResourceSet
    ensures { (seat : ℕ) → contains result seat ≡ (contains touched seat || ((s.now.write_half && satisfied_by s.now.status) && contains (set_at behind.now s.now.seat) seat)) }
{
    if is_write_told(s) {
        touched.union(set_of(behind, s.seat))
    } else {
        touched
    }
}

/// The seats of the writes whose least claims are of the lost seat, or of a seat whose write is reported to be satisfied; and
/// maybe others, as the sets in `behind` may have others.
pub fn touched_by(behind: &[ResourceSet], lost: u8, statuses: &[StatusChange]) -> ResourceSet
    ensures { (seat : ℕ) → contains result seat ≡ is_touched behind.now lost statuses.now seat }
{
    let mut touched = set_of(behind, lost);
    for s in statuses {
        touched = with_touched(touched, behind, s);
    }
    touched
}

/// Forgets whose least claims are of a seat.
pub(crate) fn forget(behind: &mut [ResourceSet], seat: u8)
    ensures gone { set_at behind.new seat ≡ empty }
    ensures others { (least : ℕ) → least ≢ seat → set_at behind.new least ≡ set_at behind.old least }
    ensures len { length behind.new ≡ length behind.old }
{
    if usize::from(seat) < behind.len() {
        behind[usize::from(seat)] = ResourceSet::empty();
    }
}

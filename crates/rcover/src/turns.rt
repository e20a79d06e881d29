// The heads of writes, carried on over an event that brings no claim.
ghost use Rattle.std.specs.Prelude.{◌≡◌, ◌≢◌, ◌≤◌, ◌<◌, ◌++◌, ◌∷◌, ◌&&◌, ◌==◌, if◌then◌else◌, ℕ, true, false, Some, length, slice_get};
ghost use Rattle.std.specs.List.{AllByRecursion};
ghost use Rattle.std.specs.FinSet.{contains, is_subset};
ghost use Rattle.rmodel.specs.WellFormed.{EachPair, Rises, Distinct};
ghost use Rattle.rset.specs.Sets.{Set};
ghost use Rattle.rset.specs.declared.TheConstants.{SEATS};
ghost use Rattle.rcover_laws.specs.Line.{least_of};
ghost use Rattle.rcover_laws.specs.Moments.{Moment};
ghost use Rattle.rcover.specs.Found.{IsFound};
ghost use Rattle.rcover.specs.Heads.{StayWithoutWrite};
ghost use Rattle.rcover.specs.Lines.{head_of, TellAt, GoesBy, IsNew, IsNext, IsNoted, IsTurned, HeadsTell, set_at, IsBehind, ArePlaced, HoldBehindBut, HoldMore, IsTold};
ghost use Rattle.rcover.specs.Shares.{is_write_of};

use crate::lines::{Found, Head, found_before, note_behind, put_head};
use rmodel::Claimed;
use rset::{ResourceSet, SEATS};

/// What became of the heads that were carried on so far.
#[derive(Clone, Copy)]
pub(crate) struct Moves {
    /// The seats of those that have another head by a look-up.
    pub(crate) moved: ResourceSet,
    /// The seats of those whose least claim stayed and came to be satisfied.
    pub(crate) risen: ResourceSet,
    /// The places of the write that is lost, and of those that moved: a write with none of these places keeps its least claim.
    pub(crate) dirty: ResourceSet,
}

/// Whether a seat is among these. A set of seats is kept as one of numbers.
fn has_seat(seats: ResourceSet, seat: u8) -> bool
    ensures { seat < SEATS → result ≡ contains seats seat }
{
    seat < SEATS && seats.has(seat)
}

/// Carries on the head of a write whose least claim stays: it is satisfied, if that claim is one of those that `came` to be.
fn rise_head(now: &mut [Head], moves: &mut Moves, came: ResourceSet, x: &Claimed)
    requires seat { x.now.claim.seat < SEATS }
    requires now { x.now.claim.seat < length now.old }
    ensures turned { (lost : Head) (gone touched : Set) (m before rest : Moment) → x.now.claim.write_half ≡ true → IsNext now.old m before x.now rest → GoesBy lost gone came touched m (before ++ x.now ∷ rest) x.now → IsNew moves.old x.now
        → (least_of x.now.claim (before ++ x.now ∷ rest)).stamp ≡ (least_of x.now.claim m).stamp → IsTurned now.old moves.old lost now.new moves.new m (before ++ x.now ∷ rest) x.now }
    ensures others { (seat : ℕ) → seat ≢ x.now.claim.seat → slice_get now.new seat ≡ slice_get now.old seat }
    ensures len { length now.new ≡ length now.old }
{
    let at = x.claim.seat as usize;
    if now[at].holds {
        return;
    }
    if has_seat(came, now[at].claim.seat) {
        now[at].holds = true;
        moves.risen = moves.risen.with(x.claim.seat);
    }
}

/// Carries on the head of a write that comes after others, whose least claim is lost and found not to stay.
fn move_head(
    now: &mut [Head],
    behind: &mut [ResourceSet],
    moves: &mut Moves,
    found: &Found,
    x: &Claimed,
)
    requires write { x.now.claim.write_half ≡ true }
    requires seat { x.now.claim.seat < SEATS }
    requires now { x.now.claim.seat < length now.old }
    ensures turned { (lost : Head) (m before rest : Moment) → IsNext now.old m before x.now rest → IsNew moves.old x.now → IsFound (before ++ x.now ∷ rest) x.now.claim before found.now → head_of m x.now.claim ≡ lost → found.now.stamp ≢ lost.claim.stamp
        → IsTurned now.old moves.old lost now.new moves.new m (before ++ x.now ∷ rest) x.now }
    ensures others { (seat : ℕ) → seat ≢ x.now.claim.seat → slice_get now.new seat ≡ slice_get now.old seat }
    ensures behind { (least : ℕ) → least ≡ found.now.seat → least < length behind.old → contains (set_at behind.new least) x.now.claim.seat ≡ true }
    ensures more { HoldMore behind.old behind.new }
    ensures len { length now.new ≡ length now.old }
    ensures behind_len { length behind.new ≡ length behind.old }
{
    put_head(now, found, x);
    note_behind(behind, found.seat, x.claim.seat);
    moves.moved = moves.moved.with(x.claim.seat);
    moves.dirty = moves.dirty.union(x.claim.places);
}

/// Carries on the head of a write that comes after others, whose least claim is the lost one and may stay so: it is looked up.
fn find_head(
    now: &mut [Head],
    behind: &mut [ResourceSet],
    moves: &mut Moves,
    lost: &Head,
    came: ResourceSet,
    before: &[Claimed],
    x: &Claimed,
)
    requires write { x.now.claim.write_half ≡ true }
    requires seat { x.now.claim.seat < SEATS }
    requires seats { AllByRecursion (λ y. y.claim.seat < length now.old) before.now }
    requires now { x.now.claim.seat < length now.old }
    ensures turned { (gone touched : Set) (m rest : Moment) → IsNext now.old m before.now x.now rest → GoesBy lost.now gone came touched m (before.now ++ x.now ∷ rest) x.now → IsNew moves.old x.now → head_of m x.now.claim ≡ lost.now
        → IsTurned now.old moves.old lost.now now.new moves.new m (before.now ++ x.now ∷ rest) x.now }
    ensures others { (seat : ℕ) → seat ≢ x.now.claim.seat → slice_get now.new seat ≡ slice_get now.old seat }
    ensures behind { (m rest : Moment) → IsNext now.old m before.now x.now rest → (least_of x.now.claim (before.now ++ x.now ∷ rest)).seat < length behind.old → IsBehind behind.new (before.now ++ x.now ∷ rest) x.now }
    ensures more { HoldMore behind.old behind.new }
    ensures len { length now.new ≡ length now.old }
    ensures behind_len { length behind.new ≡ length behind.old }
{
    let found = found_before(now, before, x);
    if found.stamp == lost.claim.stamp {
        note_behind(behind, found.seat, x.claim.seat);
        rise_head(now, moves, came, x);
        return;
    }
    move_head(now, behind, moves, &found, x);
}

/// Carries on the head of a claim that comes after others, if it is a write.
fn turn_head(
    now: &mut [Head],
    behind: &mut [ResourceSet],
    moves: &mut Moves,
    lost: &Head,
    came: ResourceSet,
    before: &[Claimed],
    x: &Claimed,
)
    requires seat { x.now.claim.seat < SEATS }
    requires seats { AllByRecursion (λ y. y.claim.seat < length now.old) before.now }
    requires now { x.now.claim.seat < length now.old }
    ensures turned { (gone touched : Set) (m rest : Moment) → IsNext now.old m before.now x.now rest → GoesBy lost.now gone came touched m (before.now ++ x.now ∷ rest) x.now → IsNew moves.old x.now
        → is_subset gone moves.old.dirty ≡ true → AllByRecursion (IsNoted moves.old.dirty m (before.now ++ x.now ∷ rest)) before.now → IsTurned now.old moves.old lost.now now.new moves.new m (before.now ++ x.now ∷ rest) x.now }
    ensures others { (seat : ℕ) → is_write_of seat x.now ≡ false → slice_get now.new seat ≡ slice_get now.old seat }
    ensures behind { (gone touched : Set) (m rest : Moment) → IsNext now.old m before.now x.now rest → GoesBy lost.now gone came touched m (before.now ++ x.now ∷ rest) x.now → (least_of x.now.claim (before.now ++ x.now ∷ rest)).seat < length behind.old
        → is_subset gone moves.old.dirty ≡ true → AllByRecursion (IsNoted moves.old.dirty m (before.now ++ x.now ∷ rest)) before.now
        → x.now.claim.write_half ≡ true → ((least_of x.now.claim m).seat ≢ lost.now.claim.seat → IsBehind behind.old m x.now) → IsBehind behind.new (before.now ++ x.now ∷ rest) x.now }
    ensures more { HoldMore behind.old behind.new }
    ensures len { length now.new ≡ length now.old }
    ensures behind_len { length behind.new ≡ length behind.old }
{
    if !x.claim.write_half {
        return;
    }
    if now[x.claim.seat as usize].claim.seat != lost.claim.seat {
        rise_head(now, moves, came, x);
        return;
    }
    if !x.claim.places.meets(moves.dirty) {
        note_behind(behind, lost.claim.seat, x.claim.seat);
        rise_head(now, moves, came, x);
        return;
    }
    find_head(now, behind, moves, lost, came, before, x);
}

/// Notes the place of a claim by its seat, if it is a write.
fn note_place(places: &mut [usize], place: usize, x: &Claimed)
    requires { x.now.claim.seat < length places.old }
    ensures places { (seat : ℕ) → slice_get places.new seat ≡ (if x.now.claim.write_half && seat == x.now.claim.seat then Some place else slice_get places.old seat) }
    ensures len { length places.new ≡ length places.old }
{
    if x.claim.write_half {
        places[x.claim.seat as usize] = place;
    }
}

/// Carries on the heads of the writes at a moment. `gone` are the places of the write that is lost. For each seat that moves or
/// rises, `places` gets the place of its write in the moment.
pub(crate) fn turn_heads(
    now: &mut [Head],
    behind: &mut [ResourceSet],
    places: &mut [usize],
    lost: &Head,
    gone: ResourceSet,
    came: ResourceSet,
    touched: ResourceSet,
    moment: &[Claimed],
) -> Moves
    requires low { AllByRecursion (λ x. x.claim.seat < SEATS) moment.now }
    requires now { SEATS ≤ length now.old }
    requires behind { SEATS ≤ length behind.old }
    requires places { SEATS ≤ length places.old }
    requires rising { EachPair Rises moment.now }
    requires one_each { EachPair Distinct moment.now }
    ensures told { (m : Moment) → TellAt now.old m moment.now → AllByRecursion (GoesBy lost.now gone came touched m moment.now) moment.now → HoldBehindBut lost.now.claim.seat behind.old m moment.now → IsTold now.new behind.new moment.now }
    ensures tell { (m : Moment) → TellAt now.old m moment.now → AllByRecursion (GoesBy lost.now gone came touched m moment.now) moment.now → AllByRecursion (HeadsTell now.new lost.now result.moved result.risen m moment.now) moment.now }
    ensures placed { (m : Moment) → TellAt now.old m moment.now → AllByRecursion (GoesBy lost.now gone came touched m moment.now) moment.now → ArePlaced places.new result.moved result.risen moment.now }
    ensures others { StayWithoutWrite now.old now.new moment.now }
    ensures len { length now.new ≡ length now.old }
    ensures behind_len { length behind.new ≡ length behind.old }
    ensures places_len { length places.new ≡ length places.old }
{
    let mut moves = Moves {
        moved: ResourceSet::empty(),
        risen: ResourceSet::empty(),
        dirty: gone,
    };
    if touched.is_empty() {
        return moves;
    }
    for i in 0..moment.len() {
        if !touched.has(moment[i].claim.seat) {
            continue;
        }
        note_place(places, i, &moment[i]);
        turn_head(
            now,
            behind,
            &mut moves,
            lost,
            came,
            &moment[..i],
            &moment[i],
        );
    }
    moves
}

// The waits that a moment ends, reported from what is kept of them.
ghost use Rattle.std.specs.Prelude.{◌≡◌, ◌≤◌, ◌<◌, ◌==◌, ◌&&◌, ◌||◌, ◌++◌, ◌+◌, not, true, ℕ, List, IfSome, find, length, slice_index, vec_capacity};
ghost use Rattle.std.specs.List.{AllByRecursion};
ghost use Rattle.std.specs.Option.{option_map, option_to_list};
ghost use Rattle.rclaim.specs.declared.claim.Claim.{Claim};
ghost use Rattle.rclaim.specs.declared.event.Event.{Event};
ghost use Rattle.rset.specs.declared.TheConstants.{SEATS};
ghost use Rattle.rbound.specs.declared.which.Which.{Which};
ghost use Rattle.rcover_laws.specs.Ended.{wait_of, waits_in};
ghost use Rattle.rcover_laws.specs.History.{asks_since, length_in};
ghost use Rattle.rcover.specs.Follow.{table_of};
ghost use Rattle.rcover.specs.Kept.{kept_in, length_by, HasRoom, AreLong, AreOf};
ghost use Rattle.rcover_laws.specs.Lists.{AreAtMost};
ghost use Rattle.std.specs.FinSet.{contains};
ghost use Rattle.rcover_laws.specs.Moments.{Moment, is_claim};
ghost use Rattle.rcover_laws.specs.Told.{waits_to_rise, stands};
ghost use Rattle.rmodel.specs.Claims.{is_satisfied};
ghost use Rattle.rcover.specs.NotedSeats.{HoldWaiting, TellRising, HoldAsking};
ghost use Rattle.rcover.specs.Lines.{head_of, TellHeads};
ghost use Rattle.rmodel.specs.WellFormed.{EachPair, Rises};
ghost use Rattle.rcover.specs.Quiet.{has_grant, GoesOn, OneWaits};
ghost use Rattle.rcover.specs.Tracked.{shown, told_of, told};

use crate::lines::Head;
use crate::rising::still_rises;
use crate::run::Run;
use crate::seats::busy_seats;
use crate::section::Lengths;
use crate::seen::{end_of, show};
use rbound::Which;
use rclaim::{Claim, GrantChange};
use rcover_laws::{WaitEnd, is_claim, stands, waits_first, waits_for_ask, waits_to_rise};
use rmodel::Claimed;
use rset::ResourceSet;

/// The wait that a claim is in, if any. `rose` says whether the upgrade of its seat rose, and `asks` how many asks of its seat
/// came since its last issue.
fn wait_by(asks: usize, rose: bool, x: &Claimed) -> Option<Which>
    ensures which { (m : Moment) → waits_to_rise m x.now ≡ (rose && not (is_satisfied x.now)) → (es : List Event) → asks ≡ asks_since x.now.claim.seat es → result ≡ wait_of es m x.now }
    ensures waits { (m : Moment) → waits_to_rise m x.now ≡ (rose && not (is_satisfied x.now)) → IfSome result (λ w. waits_in w m x.now ≡ true) }
{
    if waits_first(x) {
        Some(Which::First)
    } else if still_rises(rose, x) {
        Some(Which::Rise)
    } else if waits_for_ask(x) {
        Some(Which::Ask(asks.saturating_sub(1)))
    } else {
        None
    }
}

/// Whether a claim is in this wait.
fn is_in(which: Which, moment: &[Claimed], x: &Claimed) -> bool
    ensures { result ≡ waits_in which moment.now x.now }
{
    match which {
        Which::First => waits_first(x),
        Which::Rise => waits_to_rise(moment, x),
        Which::Ask(_) => waits_for_ask(x),
    }
}

/// Whether the first claim at a moment that is this one, if there is any, is in this wait.
fn first_waits(which: Which, c: &Claim, moment: &[Claimed]) -> Option<bool>
    ensures { result ≡ option_map (λ x. waits_in which moment.now x) (find (λ x. is_claim c.now x.claim) moment.now) }
{
    moment
        .iter()
        .find(|x| is_claim(c, &x.claim))
        .map(|x| is_in(which, moment, x))
}

/// Whether a claim is there at a moment, in this wait. For a write only the claim found at its own place is asked: no other claim
/// there has its stamp and half.
fn still_stands(which: Which, c: &Claim, moment: &[Claimed]) -> bool
    requires { EachPair Rises moment.now }
    ensures { result ≡ stands (waits_in which) c.now moment.now }
{
    if !c.write_half {
        return stands(which, c, moment);
    }
    first_waits(which, c, moment).unwrap_or(false)
}

/// The seats whose wait may end by an event of this seat with these grants, where no seats wait but these, and no asks are
/// pending but of these: the event's seat, those to which something is granted, and those that ask.
fn seats_looked_at(
    waiting: ResourceSet,
    asking: ResourceSet,
    seat: u8,
    grants: &[GrantChange],
) -> ResourceSet
    ensures { (other : ℕ) → other < SEATS → contains result other ≡ ((((seat == other) || has_grant grants.now other) || contains asking other) && contains waiting other) }
{
    busy_seats(seat, grants).union(asking).meet(waiting)
}

/// Adds the wait of a claim at the last moment, if it is in one and the next moment ends it. `rose` says whether the upgrade of
/// its seat rose, and `scratch` is room.
fn tell_wait(
    ended: &mut Vec<WaitEnd>,
    scratch: &mut Run,
    run: &Run,
    least: &Head,
    lengths: &[Lengths],
    asks: usize,
    rose: bool,
    x: &Claimed,
    last: &[Claimed],
    next: &[Claimed],
)
    requires rose { waits_to_rise last.now x.now ≡ (rose && not (is_satisfied x.now)) }
    requires next_rises { EachPair Rises next.now }
    requires least { x.now.claim.write_half ≡ true → least.now ≡ head_of last.now x.now.claim }
    requires room { length ended.old.items < vec_capacity ended.old }
    requires scratch { HasRoom scratch.old }
    requires few { (w : Which) → waits_in w last.now x.now ≡ true → AreAtMost SEATS (shown w x.now (kept_in run.now) last.now) }
    ensures capacity { vec_capacity ended.new ≡ vec_capacity ended.old }
    ensures len { length ended.new.items ≤ length ended.old.items + 1 }
    ensures scratch { HasRoom scratch.new }
    ensures told { (es : List Event) → asks ≡ asks_since x.now.claim.seat es → AreOf (length_by lengths.now) (length_in es) last.now → length_by lengths.now x.now.claim ≡ length_in es x.now.claim → AreLong (length_in es) run.now
        → ended.new.items ≡ ended.old.items ++ option_to_list (told_of (length_in es) last.now next.now (kept_in run.now) x.now (wait_of es last.now x.now)) }
{
    let Some(which) = wait_by(asks, rose, x) else {
        return;
    };
    if still_stands(which, &x.claim, next) {
        return;
    }
    show(scratch, run, lengths, which, least, x, last);
    ended.push_reserved(end_of(scratch, which, &x.claim));
}

/// Makes `ended` the waits with at least one moment that are there at the `last` moment and not at the `next`, the one after an
/// event of this seat with these grants. They are in the order of their claims, each with the numbers of its cover, units
/// included. What was in `ended` is gone; its room stays and suffices, and `scratch` is room for one wait. Takes no memory.
///
/// The last moment is known from what `runs` keep, the `heads` of the writes, the `lengths` of the last request of each seat, and
/// how many asks each made. No seats wait there but those `waiting`, the seats that rose say which claims wait to rise, and no
/// asks are pending but of the seats `asking`.
pub fn tell(
    ended: &mut Vec<WaitEnd>,
    scratch: &mut Run,
    runs: &[Run],
    heads: &[Head],
    lengths: &[Lengths],
    asks: &[usize],
    waiting: ResourceSet,
    rising: ResourceSet,
    asking: ResourceSet,
    seat: u8,
    grants: &[GrantChange],
    last: &[Claimed],
    next: &[Claimed],
)
    requires low { AllByRecursion (λ x. x.claim.seat < SEATS) last.now }
    requires waiting { HoldWaiting waiting last.now }
    requires rising { TellRising rising last.now }
    requires asking { HoldAsking asking last.now }
    requires quiet { AllByRecursion (GoesOn seat grants.now last.now next.now) last.now }
    requires apart { EachPair (OneWaits last.now) last.now }
    requires next_rises { EachPair Rises next.now }
    requires room { length last.now ≤ vec_capacity ended.old }
    requires scratch { HasRoom scratch.old }
    requires seats { AllByRecursion (λ x. (x.claim.seat < length runs.now) × (x.claim.seat < length asks.now)) last.now }
    requires head { AllByRecursion (λ x. x.claim.seat < length heads.now) last.now }
    requires heads { TellHeads heads.now last.now }
    requires few { AllByRecursion (λ x. (w : Which) → waits_in w last.now x ≡ true → AreAtMost SEATS (shown w x (table_of runs.now x.claim.seat) last.now)) last.now }
    ensures capacity { vec_capacity ended.new ≡ vec_capacity ended.old }
    ensures scratch { HasRoom scratch.new }
    ensures told { (es : List Event) → AllByRecursion (λ x. slice_index asks.now x.claim.seat ≡ asks_since x.claim.seat es) last.now → AreOf (length_by lengths.now) (length_in es) last.now → AllByRecursion (AreLong (length_in es)) runs.now
        → ended.new.items ≡ told es last.now next.now (table_of runs.now) }
{
    ended.clear();
    let mut left = seats_looked_at(waiting, asking, seat, grants);
    for x in last {
        if left.is_empty() {
            return;
        }
        if left.has(x.claim.seat) {
            // Of two claims of a seat, the later is in no wait.
            left = left.without(x.claim.seat);
            let at = x.claim.seat as usize;
            let rose = rising.has(x.claim.seat);
            tell_wait(
                ended, scratch, &runs[at], &heads[at], lengths, asks[at], rose, x, last, next,
            );
        }
    }
}

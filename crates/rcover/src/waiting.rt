// Which seats wait.
ghost use Rattle.std.specs.Prelude.{◌≡◌, ◌≤◌, ◌<◌, ◌==◌, ◌&&◌, ◌||◌, not, false, ℕ, [], length, take};
ghost use Rattle.std.specs.FinSet.{contains};
ghost use Rattle.std.specs.List.{list_any};
ghost use Rattle.rset.specs.declared.TheConstants.{SEATS};
ghost use Rattle.rmodel.specs.Claims.{is_satisfied};
ghost use Rattle.rcover_laws.specs.Told.{waits_first};
ghost use Rattle.rcover.specs.Waiting.{waits_by, seat_waits, with_seat, risen_by, asked_by, reading_by, has_end, first_of, ends_none};
ghost use Rattle.rcover.specs.NotedSeats.{TellRising};
ghost use Rattle.rclaim.specs.Events.{seat_of};

use crate::noted::is_issue;
use crate::reading::note_reading;
use crate::rising::still_rises;
use rclaim::Event;
use rcover_laws::{WaitEnd, waits_first};
use rmodel::Claimed;
use rset::{ResourceSet, SEATS};

/// Whether a claim waits before it holds anything, or waits to rise.
fn may_wait(rose: bool, x: &Claimed) -> bool
    ensures { result ≡ (waits_first [] x.now || (rose && not (is_satisfied x.now))) }
{
    waits_first(x) || still_rises(rose, x)
}

/// Whether a claim is in a wait, or asks for something.
fn some_wait(rose: bool, x: &Claimed) -> bool
    ensures { result ≡ waits_by rose x.now }
{
    may_wait(rose, x) || x.asked.len() > 0
}

/// A place before which the moment has no claim of the event's seat: an issue's claims come after all that were there, and a
/// finish leaves none.
pub(crate) fn first_of(event: &Event, there: usize, moment: &[Claimed]) -> usize
    ensures { result ≡ first_of event.now there (length moment.now) }
{
    match event {
        Event::Issue { .. } => there,
        Event::Finish { .. } => moment.len(),
        _ => 0,
    }
}

/// Whether one of some claims is of a seat, and in a wait or asking for something. `rose` says whether the upgrade of the seat
/// rose.
fn some_waits(rose: bool, some: &[Claimed], seat: u8) -> bool
    ensures { result ≡ list_any (λ x. (x.claim.seat == seat) && waits_by rose x) some.now }
{
    some.iter()
        .any(|x| x.claim.seat == seat && some_wait(rose, x))
}

/// Whether some claim of a seat is in a wait, or asks for something. No claim before this place is of the seat.
fn seat_waits(rising: ResourceSet, moment: &[Claimed], first: usize, seat: u8) -> bool
    requires low { seat < SEATS }
    requires rising { TellRising rising moment.now }
    requires first { first ≤ length moment.now }
    requires none { list_any (λ x. x.claim.seat == seat) (take first moment.now) ≡ false }
    ensures { result ≡ seat_waits moment.now seat }
{
    some_waits(rising.has(seat), &moment[first..], seat)
}

/// Whether an event ends no wait, where these seats wait: it is an issue, or nobody waits.
pub(crate) fn ends_none(waiting: ResourceSet, event: &Event) -> bool
    ensures { result ≡ ends_none waiting event.now }
{
    is_issue(event) || waiting.within(ResourceSet::empty())
}

/// Notes whether a seat waits at a moment, where no claim before this place is of the seat. A set of seats is kept as a set of
/// numbers.
pub(crate) fn note_seat(
    waiting: &mut ResourceSet,
    rising: ResourceSet,
    seat: u8,
    first: usize,
    moment: &[Claimed],
)
    requires low { seat < SEATS }
    requires rising { TellRising rising moment.now }
    requires first { first ≤ length moment.now }
    requires none { list_any (λ x. x.claim.seat == seat) (take first moment.now) ≡ false }
    ensures { waiting.new ≡ with_seat waiting.old moment.now seat }
{
    *waiting = if seat_waits(rising, moment, first, seat) {
        waiting.with(seat)
    } else {
        waiting.without(seat)
    };
}

/// Notes by an event which upgrades rose (that of a rise, and no request that comes or is over), which requests may have a
/// pending ask (one that asks, and no request that comes or is over), and which have a claim that reads (one that comes and
/// reads, and no request that rises or is over).
pub(crate) fn note_event(
    rising: &mut ResourceSet,
    asking: &mut ResourceSet,
    reading: &mut ResourceSet,
    event: &Event,
)
    requires { seat_of event.now < SEATS }
    ensures rising { rising.new ≡ risen_by rising.old event.now }
    ensures asking { asking.new ≡ asked_by asking.old event.now }
    ensures reading { reading.new ≡ reading_by reading.old event.now }
{
    match event {
        Event::Issue { seat, request } => {
            *rising = rising.without(*seat);
            *asking = asking.without(*seat);
            note_reading(reading, *seat, request);
        }
        Event::Finish { seat } => {
            *rising = rising.without(*seat);
            *asking = asking.without(*seat);
            *reading = reading.without(*seat);
        }
        Event::Rise { seat } => {
            *rising = rising.with(*seat);
            *reading = reading.without(*seat);
        }
        Event::Ask { seat, .. } => *asking = asking.with(*seat),
    }
}

/// The same seats without that of a wait that ended.
fn without_end(seats: ResourceSet, end: &WaitEnd) -> ResourceSet
    ensures { (seat : ℕ) → seat < SEATS → contains result seat ≡ (not (end.now.seat == seat) && contains seats seat) }
{
    if end.seat < SEATS {
        seats.without(end.seat)
    } else {
        seats
    }
}

/// Notes that the seats whose waits ended wait no more.
pub(crate) fn note_ended(waiting: &mut ResourceSet, ended: &[WaitEnd])
    ensures { (seat : ℕ) → seat < SEATS → contains waiting.new seat ≡ (not (has_end ended.now seat) && contains waiting.old seat) }
{
    for end in ended {
        *waiting = without_end(*waiting, end);
    }
}

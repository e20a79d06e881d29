// The drill itself.
ghost use Rattle.std.specs.Prelude.{◌≡◌, ◌<◌, ◌≤◌, ◌+◌, ℕ, length, map, IfOk};
ghost use Rattle.rset.specs.Sets.{equals};
ghost use Rattle.rclaim.specs.Events.{seat_of};
ghost use Rattle.rmodel.specs.Changes.{changes_between};
ghost use Rattle.rmodel.specs.Holds.{holds_of};
ghost use Rattle.rmodel.specs.Steps.{AreAccepted, Comes, next, after};
ghost use Rattle.rwatch.specs.Seen.{told, told_all};
ghost use Rattle.rdrill.specs.Draws.{drill_seats, modulus, drill_opening};
ghost use Rattle.rdrill.specs.Drill.{Drawn, IsAt, may_act, acting, either, drawn_issue, all_held, drawn_by, drawn_in, drawn, latest_after, at_seat, drill_of, drill_events};
ghost use Rattle.rmodel.specs.Watching.{steps_of};

use crate::dice::Dice;
use crate::requests::{DRILL_PAIRS, drill_groups, kind_drawn, request_for};
use rclaim::{Event, Kind, Request};
use rmodel::Machine;
use rwatch::Audience;
use std::alloc::{AllocError, Global};

/// The most events of a drill.
pub const MOST_EVENTS: u32 = 1_000_000;

const _: () = prove!(MOST_EVENTS == 1_000_000);

/// The number of seats of a drill.
pub const DRILL_SEATS: u8 = 8;

/// A machine as a drill begins with it.
///
/// # Errors
///
/// Out of memory.
pub fn drill_machine<M: Machine>(alloc: Global) -> Result<M, AllocError>
    ensures { IfOk result (λ machine. M.state machine ≡ drill_opening) }
{
    let groups = drill_groups(alloc)?;
    M::new(alloc, groups, DRILL_SEATS, DRILL_SEATS)
}

/// Draws `count` events, one after another. Each is accepted: the machine takes it, and the audience is given the step.
/// Takes no memory.
pub fn drill<M: Machine, A: Audience>(machine: &mut M, audience: &mut A, count: u32)
    requires opening { M.state machine.old ≡ drill_opening }
    requires few { count ≤ MOST_EVENTS }
    ensures state { M.state machine.new ≡ after drill_opening (drill_events count) }
    ensures accepted { AreAccepted drill_opening (drill_events count) }
    ensures told { A.all audience.new ≡ map (told_all (steps_of drill_opening (drill_events count))) (A.all audience.old) }
{
    let mut dice = Dice { x: 1 };
    let mut latest = [None; DRILL_SEATS as usize];
    for _ in 0u32..count {
        take_one(machine, audience, &mut dice, &mut latest);
    }
}

// Draws one more event; the machine takes it, and the audience is given the step.
fn take_one<M: Machine, A: Audience>(
    machine: &mut M,
    audience: &mut A,
    dice: &mut Dice,
    latest: &mut [Option<Request>],
)
    requires { (n : ℕ) × (n < MOST_EVENTS) × IsAt n (M.state machine.old) dice.old.x latest.old }
    ensures at { (n : ℕ) → IsAt n (M.state machine.old) dice.old.x latest.old → IsAt (n + 1) (M.state machine.new) dice.new.x latest.new }
    ensures told { (n : ℕ) → IsAt n (M.state machine.old) dice.old.x latest.old
        → A.all audience.new ≡ map (told (drawn (drill_of n)).event (changes_between (M.state machine.old) (M.state machine.new))) (A.all audience.old) }
{
    let event = draw_event(machine, latest, dice);
    remember(latest, &event);
    apply(machine, event);
    audience.tell(&event, machine.changes());
}

// The machine takes an event that may come.
fn apply<M: Machine>(machine: &mut M, event: Event)
    requires { Comes (M.state machine.old) event }
    ensures state { M.state machine.new ≡ next (M.state machine.old) event }
    ensures last { M.last machine.new ≡ changes_between (M.state machine.old) (M.state machine.new) }
{
    let _ = machine.step(event);
}

// Records the request that an event issues as the latest of its seat.
fn remember(latest: &mut [Option<Request>], event: &Event)
    requires seats { length latest.old ≡ drill_seats }
    requires there { seat_of event.now < drill_seats }
    ensures seats { length latest.new ≡ drill_seats }
    ensures latest { (seat : ℕ) → at_seat latest.new seat ≡ latest_after seat (at_seat latest.old seat) event.now }
{
    if let Event::Issue { seat, request } = event {
        latest[usize::from(*seat)] = Some(*request);
    }
}

// Draws the next event.
fn draw_event<M: Machine>(machine: &M, latest: &[Option<Request>], dice: &mut Dice) -> Event
    requires small { dice.old.x < modulus }
    requires seats { length latest.now ≡ drill_seats }
    ensures drawn { record { event = result; x = dice.new.x } ≡ drawn_in (M.state machine.now) (at_seat latest.now) dice.old.x }
    ensures small { dice.new.x < modulus }
    ensures there { seat_of result < drill_seats }
{
    let named = dice.draw(DRILL_SEATS as u32) as u8;
    let seat = acting(machine, named);
    if machine.idle(seat) {
        return draw_issue(seat, dice);
    }
    match &latest[usize::from(seat)] {
        Some(request) => draw_holding(machine, request, seat, dice),
        None => Event::Finish { seat },
    }
}

// The first seat that may act from this one upwards.
fn acting<M: Machine>(machine: &M, seat: u8) -> u8
    requires { seat < drill_seats }
    ensures acts { result ≡ acting (M.state machine.now) seat }
    ensures there { result < drill_seats }
{
    for more in 0u8..DRILL_SEATS {
        let next = (seat + more) % DRILL_SEATS;
        if may_act(machine, next) {
            return next;
        }
    }
    seat
}

// Whether a seat is idle, or holds something and has no pending ask.
fn may_act<M: Machine>(machine: &M, seat: u8) -> bool
    ensures { result ≡ may_act (M.state machine.now) seat }
{
    !machine.pending(seat)
}

// An idle seat issues a request.
fn draw_issue(seat: u8, dice: &mut Dice) -> Event
    requires { dice.old.x < modulus }
    ensures drawn { record { event = result; x = dice.new.x } ≡ drawn_issue seat dice.old.x }
    ensures small { dice.new.x < modulus }
    ensures seat { seat_of result ≡ seat }
{
    let kind = kind_drawn(dice.draw(5));
    let l = dice.draw(DRILL_PAIRS as u32) as u8;
    Event::Issue {
        seat,
        request: request_for(kind, l),
    }
}

// What a seat that holds something does, with this request.
fn draw_holding<M: Machine>(machine: &M, request: &Request, seat: u8, dice: &mut Dice) -> Event
    requires { dice.old.x < modulus }
    ensures drawn { record { event = result; x = dice.new.x } ≡ drawn_by request.now.kind (M.state machine.now) request.now seat dice.old.x }
    ensures small { dice.new.x < modulus }
    ensures seat { seat_of result ≡ seat }
{
    let finish = Event::Finish { seat };
    match request.kind() {
        Kind::Upgrade if machine.status(seat, false).is_some() => {
            either(Event::Rise { seat }, finish, dice)
        }
        Kind::Nested if holds_first(machine, request, seat) => {
            let set = request.writes().minus(request.first());
            either(Event::Ask { seat, set }, finish, dice)
        }
        Kind::Upgrade | Kind::Nested | Kind::Read | Kind::Write | Kind::Mixed => finish,
    }
}

// Whether all that the seat holds is the first part of its request.
fn holds_first<M: Machine>(machine: &M, request: &Request, seat: u8) -> bool
    ensures { result ≡ equals (all_held (holds_of (M.state machine.now).claims seat)) request.now.first }
{
    let held = machine.granted(seat);
    held.reads.union(held.writes) == request.first()
}

// One draw chooses between two events.
fn either(first: Event, second: Event, dice: &mut Dice) -> Event
    requires { dice.old.x < modulus }
    ensures drawn { record { event = result; x = dice.new.x } ≡ either first second dice.old.x }
    ensures small { dice.new.x < modulus }
{
    if dice.draw(2) == 0 { first } else { second }
}

// The machine over a plain list of claims.
ghost use Rattle.std.specs.Prelude.{◌≡◌, ◌<◌, None, position};
ghost use Rattle.rclaim.specs.Events.{IsNormalEvent, seat_of};
ghost use Rattle.rclaim.specs.declared.event.Event.TheVariants.{Issue, Finish, Rise, Ask};
ghost use Rattle.rplain.specs.Plain.{IsTaken};
ghost use Rattle.rmodel.specs.Steps.{Fits, Accepts, refusal};
ghost use Rattle.rplain.specs.Sweep.{is_of};

use crate::claims::push_claims;
use crate::left::{take_read_half, take_seat};
use crate::list::{
    ask, holds_of, incomplete, is_not_holding, is_part_of, may_ask, may_rise, place_of, status_in,
};
use crate::seen::{Seen, no_seen};
use crate::settled::{give_once, settle, settle_any};
use rclaim::{Changes, Event, Request, STATUS_ROOM, Status};
use rexpand::Groups;
use rmodel::{Claimed, Granted, Machine, Refused, is_upgrade};
use rset::{ResourceSet, SEATS};
use std::alloc::{AllocError, Global};
use std::marker::Model;

// Room for the claims of all seats, two for each, and for those of one more request.
const CLAIMS: usize = STATUS_ROOM + 2;

// A mark for each seat.
const MARKS: usize = SEATS as usize;

/// A machine over a plain list of claims. All its room is made by `new`.
#[derive(Drop)]
pub struct Plain {
    claims: Vec<Claimed>,
    // A seat is marked exactly where it has a claim.
    marks: [bool; MARKS],
    // How many of the claims are read halves of upgrades.
    halves: usize,
    seen: Seen,
    // What requests have read so far.
    read: ResourceSet,
    // Whether anything was asked for so far.
    asked: bool,
    before: Vec<Claimed>,
    changes: Changes,
    groups: Groups,
    issued: u64,
    seats: u8,
    cap: u8,
}

impl Model for Plain {
    ghost use Rattle.rplain.specs.Machine.{Standing, standing_code};

    ghost Value = { Standing };

    ghost coded = { standing_code };

    ghost use Rattle.rplain.specs.Plain.{standing_of, IsKept};

    ghost view = { standing_of };

    ghost invariant = { IsKept };
}

impl Machine for Plain {
    ghost state = { λ m. m.state };

    ghost last = { λ m. m.last };

    ghost watched = { λ m. None };

    fn new(alloc: Global, groups: Groups, seats: u8, cap: u8) -> Result<Plain, AllocError> {
        Ok(Plain {
            claims: Vec::with_capacity(alloc, CLAIMS)?,
            marks: [false; MARKS],
            halves: 0,
            seen: no_seen(),
            read: ResourceSet::empty(),
            asked: false,
            before: Vec::with_capacity(alloc, CLAIMS)?,
            changes: Changes::new(alloc)?,
            groups,
            issued: 0,
            seats,
            cap,
        })
    }

    fn step(&mut self, event: Event) -> Result<(), Refused> {
        let place = self.place(event.seat());
        if let Some(cause) = self.refusal(&event, place) {
            return Err(cause);
        }
        self.take(&event, place);
        Ok(())
    }

    fn changes(&self) -> &Changes {
        &self.changes
    }

    fn granted(&self, seat: u8) -> Granted {
        holds_of(&self.claims, seat)
    }

    fn pending(&self, seat: u8) -> bool {
        let place = self.place_of_any(seat);
        place.is_some() && is_not_holding(&self.claims, seat, place)
    }

    fn idle(&self, seat: u8) -> bool {
        self.place_of_any(seat).is_none()
    }

    fn status(&self, seat: u8, write_half: bool) -> Option<Status> {
        status_in(&self.claims, seat, write_half)
    }

    fn incomplete(&self) -> u8 {
        incomplete(&self.claims, self.halves) as u8
    }

    fn issued(&self) -> u64 {
        self.issued
    }

    fn groups(&self) -> &Groups {
        &self.groups
    }

    fn seats(&self) -> u8 {
        self.seats
    }

    fn cap(&self) -> u8 {
        self.cap
    }
}

impl Plain {
    /// The claims of the lock state, by rising stamp.
    pub fn claims(&self) -> &[Claimed]
        ensures { result.now ≡ self.now.state.claims }
    {
        &self.claims
    }

    // The place of the first claim of a seat. It is looked for only where the seat is marked.
    fn place(&self, seat: u8) -> Option<usize>
        requires { seat < self.now.state.seats }
        ensures { result ≡ position (is_of seat) self.now.state.claims }
    {
        if !self.marks[seat as usize] {
            return None;
        }
        place_of(&self.claims, seat)
    }

    // The same for a seat whose number may be too great.
    fn place_of_any(&self, seat: u8) -> Option<usize>
        ensures { result ≡ position (is_of seat) self.now.state.claims }
    {
        if seat < self.seats {
            self.place(seat)
        } else {
            place_of(&self.claims, seat)
        }
    }

    // Why the event is refused, if it is. `place` is the place of the first claim of its seat.
    fn refusal(&self, event: &Event, place: Option<usize>) -> Option<Refused>
        requires { place ≡ position (is_of (seat_of event.now)) self.now.state.claims }
        ensures { result ≡ refusal self.now.state event.now }
    {
        match event {
            Event::Issue { .. } => {
                if place.is_some() {
                    return Some(Refused::SeatBusy);
                }
                let incomplete = incomplete(&self.claims, self.halves);
                (incomplete == self.cap as usize).then_some(Refused::Full)
            }
            Event::Finish { seat } => {
                is_not_holding(&self.claims, *seat, place).then_some(Refused::NotHolding)
            }
            Event::Rise { seat } => {
                if is_not_holding(&self.claims, *seat, place) {
                    return Some(Refused::NotHolding);
                }
                (!may_rise(&self.claims, *seat, place)).then_some(Refused::NotUpgradeable)
            }
            Event::Ask { seat, set } => {
                if is_not_holding(&self.claims, *seat, place) {
                    return Some(Refused::NotHolding);
                }
                if !may_ask(&self.claims, *seat) {
                    return Some(Refused::NotNested);
                }
                (!is_part_of(&self.claims, *seat, *set)).then_some(Refused::AskOutside)
            }
        }
    }

    // Takes an accepted event: it changes the claims, they are settled once, and what they ask for is granted where they get it.
    // `place` is the place of the first claim of its seat.
    fn take(&mut self, event: &Event, place: Option<usize>)
        requires place { place ≡ position (is_of (seat_of event.now)) self.old.state.claims }
        requires fits { Fits self.old.state event.now }
        requires accepted { Accepts self.old.state event.now }
        ensures { IsTaken self.old event.now self.new }
    {
        match event {
            Event::Issue { seat, request } => self.issue(*seat, request),
            Event::Finish { seat } => self.finish(*seat, place),
            Event::Rise { seat } => self.rise(*seat),
            Event::Ask { seat, set } => self.ask(*seat, *set),
        }
    }

    // Takes an issue. The claims that were there stay as they are.
    fn issue(&mut self, seat: u8, request: &Request)
        requires fits { Fits self.old.state (Issue seat request.now) }
        requires accepted { Accepts self.old.state (Issue seat request.now) }
        ensures { IsTaken self.old (Issue seat request.now) self.new }
    {
        self.changes.clear();
        self.read = self.read.union(request.reads());
        push_claims(
            &mut self.claims,
            &mut self.seen,
            self.read,
            &self.groups,
            self.issued,
            seat,
            request,
            &mut self.changes,
        );
        self.asked = self.asked | (request.first().len() > 0);
        self.marks[seat as usize] = true;
        self.halves += is_upgrade(request.kind()) as usize;
        self.issued += 1;
    }

    // Takes a finish. `place` is the place of the first claim of the seat.
    fn finish(&mut self, seat: u8, place: Option<usize>)
        requires place { place ≡ position (is_of seat) self.old.state.claims }
        requires fits { Fits self.old.state (Finish seat) }
        requires accepted { Accepts self.old.state (Finish seat) }
        ensures { IsTaken self.old (Finish seat) self.new }
    {
        self.halves -= may_rise(&self.claims, seat, place) as usize;
        self.marks[seat as usize] = false;
        let left = take_seat(&mut self.claims, seat, place, self.read);
        settle_any(
            &mut self.claims,
            &left,
            self.asked,
            &mut self.before,
            &mut self.changes,
            &mut self.seen,
        );
    }

    // Takes a rise.
    fn rise(&mut self, seat: u8)
        requires fits { Fits self.old.state (Rise seat) }
        requires accepted { Accepts self.old.state (Rise seat) }
        ensures { IsTaken self.old (Rise seat) self.new }
    {
        self.halves -= 1;
        let left = take_read_half(&mut self.claims, seat, self.read);
        settle(
            &mut self.claims,
            &left,
            self.asked,
            &mut self.before,
            &mut self.changes,
            &mut self.seen,
        );
    }

    // Takes an ask. No status changes, so only what is asked for is looked at.
    fn ask(&mut self, seat: u8, set: ResourceSet)
        requires fits { Fits self.old.state (Ask seat set) }
        requires accepted { Accepts self.old.state (Ask seat set) }
        ensures { IsTaken self.old (Ask seat set) self.new }
    {
        self.asked = true;
        ask(&mut self.claims, seat, set);
        give_once(&mut self.claims, &mut self.changes);
    }
}

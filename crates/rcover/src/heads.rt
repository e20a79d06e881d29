// The least claims of the lines of all writes, kept from event to event.
ghost use Rattle.std.specs.FinSet.{empty};
ghost use Rattle.std.specs.Prelude.{◌≡◌, ◌≤◌, ◌<◌, [], false, true, IfOk, length, replicate, take, vec_capacity};
ghost use Rattle.std.specs.List.{AllByRecursion};
ghost use Rattle.rcover_laws.specs.Moments.{Moment};
ghost use Rattle.rset.specs.declared.TheConstants.{SEATS};
ghost use Rattle.rclaim.specs.Events.{seat_of};
ghost use Rattle.rcover.specs.Lines.{no_head, TellAt, TellHeads, GoesBy, HeadsTell, IsLost, IsTold, HoldBehind, ArePlaced};
ghost use Rattle.rcover.specs.Heads.{AreEmpty, HasPlaces, TellsNothing, TellsNow, TellsWrites, IsMoment, StayWithoutWrite};
ghost use Rattle.rcover.specs.Shares.{AreLeft, TellWrites, takes_write};

use crate::lines::{Head, forget, no_head, tell_heads};
use crate::shares::{Share, no_share, note_writes, takes_write};
use crate::turns::turn_heads;
use rclaim::Event;
use rmodel::Claimed;
use rset::{ResourceSet, SEATS};
use std::alloc::{AllocError, Global};

// A place for each seat.
const PLACES: usize = SEATS as usize;

/// The least claims of the lines of all writes, by seat, and what those writes take.
#[derive(Drop)]
pub struct Heads {
    /// The heads at the present moment. A seat without a write keeps whatever is at its place.
    pub now: Vec<Head>,
    /// For each seat, the seats of the writes whose least claim is its own, and maybe others.
    pub behind: Vec<ResourceSet>,
    /// The head of the write that an event took away, as it was before, by the last `lose`. If that event took no write, it is of
    /// the seat `SEATS`, which no claim has: so whatever goes by the seat of this claim finds nothing, and needs no test.
    pub lost: Head,
    /// The seats of the writes that have had another head since, by a look-up: each of them had the lost one.
    pub moved: ResourceSet,
    /// The seats of the writes whose least claim stayed and came to be satisfied.
    pub risen: ResourceSet,
    /// The seats that have a write.
    pub writers: ResourceSet,
    /// What the write of each of them takes; for a seat without a write it may be anything.
    pub shares: [Share; PLACES],
    // Whether the heads are known: they are not when nobody asked for them.
    told: bool,
}

/// A head of no line, for each seat.
fn new_heads(alloc: Global) -> Result<Vec<Head>, AllocError>
    ensures len { IfOk result (λ v. length v.items ≡ SEATS) }
    ensures heads { IfOk result (λ v. v.items ≡ replicate SEATS no_head) }
    ensures capacity { IfOk result (λ v. vec_capacity v ≡ SEATS) }
{
    let mut heads = Vec::with_capacity(alloc, PLACES)?;
    for _ in 0..PLACES {
        heads.push_reserved(no_head());
    }
    Ok(heads)
}

/// A set without members, for each seat.
fn new_sets(alloc: Global) -> Result<Vec<ResourceSet>, AllocError>
    ensures len { IfOk result (λ v. length v.items ≡ SEATS) }
    ensures sets { IfOk result (λ v. v.items ≡ replicate SEATS empty) }
    ensures capacity { IfOk result (λ v. vec_capacity v ≡ SEATS) }
{
    let mut sets = Vec::with_capacity(alloc, PLACES)?;
    for _ in 0..PLACES {
        sets.push_reserved(ResourceSet::empty());
    }
    Ok(sets)
}

impl Heads {
    /// Heads that are not known, with all room for them: for each seat the head of no line, which is not satisfied.
    ///
    /// # Errors
    ///
    /// Out of memory.
    pub fn new(alloc: Global) -> Result<Heads, AllocError>
        ensures room { IfOk result (λ made. HasPlaces made) }
        ensures told { IfOk result (λ made. TellsNow made []) }
        ensures writes { IfOk result (λ made. TellsWrites made []) }
        ensures none { IfOk result (λ made. TellsNothing made) }
        ensures kept { IfOk result (λ made. AreEmpty made) }
    {
        Ok(Heads {
            now: new_heads(alloc)?,
            behind: new_sets(alloc)?,
            lost: no_head(),
            moved: ResourceSet::empty(),
            risen: ResourceSet::empty(),
            writers: ResourceSet::empty(),
            shares: [no_share(); PLACES],
            told: false,
        })
    }

    /// Goes on to a moment that nobody asks for. If an event `brought` the claims from a place on, the heads of just those are
    /// added.
    pub fn pass(&mut self, brought: bool, there: usize, moment: &[Claimed])
        requires moment { IsMoment moment.now }
        requires room { HasPlaces self.old }
        requires told { brought ≡ true → (there ≤ length moment.now) × TellsNow self.old (take there moment.now) }
        requires writes { brought ≡ true → TellsWrites self.old (take there moment.now) }
        ensures room { HasPlaces self.new }
        ensures told { TellsNow self.new moment.now }
        ensures writes { TellsWrites self.new moment.now }
        ensures others { StayWithoutWrite self.old.now.items self.new.now.items moment.now }
        ensures stays { brought ≡ true → self.new.told ≡ self.old.told }
        ensures forgotten { brought ≡ false → self.new ≡ record self.old { told = false } }
        ensures as_it_was { brought ≡ true → self.old.told ≡ false → self.new ≡ self.old }
        ensures rest { self.new ≡ record self.old { now = self.new.now; behind = self.new.behind; writers = self.new.writers; shares = self.new.shares; told = self.new.told } }
    {
        if !brought {
            self.told = false;
            return;
        }
        if self.told {
            tell_heads(&mut self.now, &mut self.behind, moment, there);
            note_writes(&mut self.writers, &mut self.shares, moment, there);
        }
    }

    /// Forgets the heads, as nobody asks for them.
    pub fn close(&mut self)
        requires room { HasPlaces self.old }
        ensures room { HasPlaces self.new }
        ensures told { (m : Moment) → TellsNow self.new m }
        ensures writes { (m : Moment) → TellsWrites self.new m }
        ensures rest { self.new ≡ record self.old { told = false } }
    {
        self.told = false;
    }

    /// Finds the heads of the claims that are there, if they are not known.
    pub fn tell_now(&mut self, moment: &[Claimed])
        requires moment { IsMoment moment.now }
        requires room { HasPlaces self.old }
        requires told { TellsNow self.old moment.now }
        requires writes { TellsWrites self.old moment.now }
        ensures room { HasPlaces self.new }
        ensures told { IsTold self.new.now.items self.new.behind.items moment.now }
        ensures writes { TellWrites self.new.writers self.new.shares moment.now }
        ensures others { StayWithoutWrite self.old.now.items self.new.now.items moment.now }
        ensures still { self.old.told ≡ true → self.new ≡ self.old }
        ensures rest { self.new ≡ record self.old { now = self.new.now; behind = self.new.behind; writers = self.new.writers; shares = self.new.shares; told = true } }
    {
        if !self.told {
            tell_heads(&mut self.now, &mut self.behind, moment, 0);
            self.writers = ResourceSet::empty();
            note_writes(&mut self.writers, &mut self.shares, moment, 0);
            self.told = true;
        }
    }

    /// Notes the head of the write that an event takes away, if it takes one, and that its seat has no write from then on; if
    /// not, notes that of no line. Answers the places of that write, or no places.
    pub fn lose(&mut self, event: &Event) -> ResourceSet
        requires low { seat_of event.now < SEATS }
        requires room { HasPlaces self.old }
        ensures lost { (m : Moment) → IsMoment m → TellHeads self.old.now.items m → TellWrites self.old.writers self.old.shares m → AllByRecursion (IsLost self.new.lost result event.now m) m }
        ensures left { AreLeft event.now self.old.writers self.new.writers }
        ensures shares { self.new.shares ≡ self.old.shares }
        ensures now { self.new.now ≡ self.old.now }
        ensures behind { self.new.behind ≡ self.old.behind }
        ensures rest { self.new ≡ record self.old { lost = self.new.lost; writers = self.new.writers } }
        ensures none { takes_write event.now self.old.writers ≡ false → result ≡ empty }
        ensures none_lost { takes_write event.now self.old.writers ≡ false → self.new.lost ≡ no_head }
    {
        if !takes_write(event, self.writers) {
            self.lost = no_head();
            return ResourceSet::empty();
        }
        let at = event.seat() as usize;
        self.writers = self.writers.without(event.seat());
        self.lost = self.now[at];
        self.shares[at].places
    }

    /// Goes on to the moment after an event that brings no claim. The head of the write that it takes away is noted; `gone` are
    /// the places of that write, `came` the seats of the writes that became satisfied, and `touched` those of the writes that
    /// have one of these for their least claim. For each seat that moves or rises, `places` gets the place of its write in the
    /// moment.
    pub fn turn(
        &mut self,
        places: &mut [usize],
        gone: ResourceSet,
        came: ResourceSet,
        touched: ResourceSet,
        moment: &[Claimed],
    )
        requires moment { IsMoment moment.now }
        requires room { HasPlaces self.old }
        requires places { length places.old ≡ SEATS }
        ensures room { HasPlaces self.new }
        ensures writers { self.new.writers ≡ self.old.writers }
        ensures shares { self.new.shares ≡ self.old.shares }
        ensures rest { self.new ≡ record self.old { now = self.new.now; behind = self.new.behind; moved = self.new.moved; risen = self.new.risen } }
        ensures others { StayWithoutWrite self.old.now.items self.new.now.items moment.now }
        ensures places_len { length places.new ≡ length places.old }
        ensures placed { (m : Moment) → TellAt self.old.now.items m moment.now → AllByRecursion (GoesBy self.old.lost gone came touched m moment.now) moment.now → ArePlaced places.new self.new.moved self.new.risen moment.now }
        ensures told { (m : Moment) → TellAt self.old.now.items m moment.now → HoldBehind self.old.behind.items m moment.now → AllByRecursion (GoesBy self.old.lost gone came touched m moment.now) moment.now → IsTold self.new.now.items self.new.behind.items moment.now }
        ensures tell { (m : Moment) → TellAt self.old.now.items m moment.now → AllByRecursion (GoesBy self.old.lost gone came touched m moment.now) moment.now → AllByRecursion (HeadsTell self.new.now.items self.new.lost self.new.moved self.new.risen m moment.now) moment.now }
    {
        forget(&mut self.behind, self.lost.claim.seat);
        let moves = turn_heads(
            &mut self.now,
            &mut self.behind,
            places,
            &self.lost,
            gone,
            came,
            touched,
            moment,
        );
        self.moved = moves.moved;
        self.risen = moves.risen;
    }
}

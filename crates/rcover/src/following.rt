// A follower: the waits of a lock, followed event by event beside its caller's machine.
ghost use Rattle.std.specs.Prelude.{◌≡◌, ◌≤◌, ◌<◌, ◌^◌, ◌*◌, ◌↔◌, [], true, false, ℕ, IfOk, IfErr, OnOk, OnErr, IsOk, Some, length, vec_capacity};
ghost use Rattle.std.specs.List.{AllByRecursion};
ghost use Rattle.rset.specs.declared.TheConstants.{SEATS};
ghost use Rattle.rexpand.specs.Groups.{ReadGroups};
ghost use Rattle.rclaim.specs.Events.{IsNormalEvent};
ghost use Rattle.rclaim.specs.declared.event.Event.{Event};
ghost use Rattle.rmodel.specs.Changes.{changes_between, AreActive};
ghost use Rattle.rmodel.specs.Steps.{Fits, Accepts, Steps, next, refusal};
ghost use Rattle.rcover.specs.Kept.{HasRoom};
ghost use Rattle.rcover.specs.declared.following.Following.{Following};
ghost use Rattle.rcover.specs.Follows.{IsEmpty, NotesNothing, Follows, IsAhead};
ghost use Rattle.rcover.specs.Past.{Past, begun, state_of, with_event, AreLastEnded};
ghost use Rattle.rcover.specs.Stages.{HasTold, HasNoted};
ghost use Rattle.rcover.specs.Waiting.{ends_none};
ghost use Rattle.rcover.specs.Lines.{is_finish};
ghost use Rattle.rplain.specs.Machine.{Standing};

use crate::ended::tell;
use crate::follow::{clear_run, keep};
use crate::heads::Heads;
use crate::lines::touched_by;
use crate::noted::{is_issue, note_ask, note_lengths};
use crate::reading::note_wanted;
use crate::run::Run;
use crate::seats::seats_told;
use crate::section::Lengths;
use crate::shares::written_by;
use crate::waiting::{ends_none, first_of, note_ended, note_event, note_seat};
use crate::writes_told::is_finish;
use rclaim::Event;
use rcover_laws::WaitEnd;
use rmodel::{Claimed, Machine, Refused};
use rplain::Plain;
use rset::{ResourceSet, SEATS};
use std::alloc::{AllocError, Global};

// A place for each seat.
const PLACES: usize = SEATS as usize;

// Room for the claims of all seats.
const CLAIMS: usize = 2 * PLACES;

/// The waits of a lock, followed event by event beside a machine that its caller has. It keeps what the cover of each wait needs,
/// and no list of events. All room is made by `new`.
#[derive(Drop)]
pub struct Following {
    // The seats that wait, and maybe others.
    waiting: ResourceSet,
    // The seats of the upgrades that rose, and maybe others that have no claim.
    rising: ResourceSet,
    // The seats whose requests have a pending ask, and maybe others.
    asking: ResourceSet,
    // The seats whose requests have a claim that reads, and maybe others.
    reading: ResourceSet,
    // For each seat, what its last request reads.
    wanted: [ResourceSet; PLACES],
    // The claims before the last event that might end a wait.
    last: Vec<Claimed>,
    // The number of claims before the last event.
    there: usize,
    // What is kept of the wait of each seat.
    runs: Vec<Run>,
    // The lengths of the last request of each seat, and how many asks it made.
    lengths: [Lengths; PLACES],
    asks: [usize; PLACES],
    // The least claims of the lines of all writes.
    heads: Heads,
    // For each seat, the place of its write among the claims, if its head changed by the last event that might end a wait.
    places: [usize; PLACES],
    // Room for the sections of one wait.
    scratch: Run,
    ended: Vec<WaitEnd>,
}

/// A run that keeps nothing.
fn new_run(alloc: Global) -> Result<Run, AllocError>
    ensures room { IfOk result (λ r. HasRoom r) }
    ensures none { IfOk result (λ r. IsEmpty r) }
{
    Ok(Run {
        reads: Vec::with_capacity(alloc, PLACES)?,
        writes: Vec::with_capacity(alloc, PLACES)?,
    })
}

/// A run that keeps nothing, for each seat.
fn new_runs(alloc: Global) -> Result<Vec<Run>, AllocError>
    ensures len { IfOk result (λ v. length v.items ≡ SEATS) }
    ensures room { IfOk result (λ v. AllByRecursion HasRoom v.items) }
    ensures none { IfOk result (λ v. AllByRecursion IsEmpty v.items) }
    ensures capacity { IfOk result (λ v. vec_capacity v ≡ SEATS) }
{
    let mut runs = Vec::with_capacity(alloc, PLACES)?;
    for _ in 0..PLACES {
        runs.push_reserved(new_run(alloc)?);
    }
    Ok(runs)
}

/// Makes a list a copy of these claims, in the room that it has, which stays. It is made as long as they are, and then copied as
/// a whole.
fn copy_claims(to: &mut Vec<Claimed>, from: &[Claimed])
    requires { length from.now ≤ vec_capacity to.old }
    ensures items { to.new.items ≡ from.now }
    ensures capacity { vec_capacity to.new ≡ vec_capacity to.old }
{
    to.truncate(from.len());
    for i in to.len()..from.len() {
        to.push_reserved(from[i]);
    }
    to.copy_from_slice(from);
}

impl Following {
    /// A follower that followed no event, and notes nothing of any seat. Any machine that took no event yet may be followed.
    ///
    /// # Errors
    ///
    /// Out of memory.
    pub fn new(alloc: Global) -> Result<Following, AllocError>
        ensures follows { IfOk result (λ made. (groups : ReadGroups) (seats cap : ℕ) → seats ≤ SEATS → 1 ≤ cap → cap ≤ SEATS → Follows made (begun groups seats cap)) }
        ensures nothing { IfOk result (λ made. NotesNothing made) }
    {
        Ok(Following {
            waiting: ResourceSet::empty(),
            rising: ResourceSet::empty(),
            asking: ResourceSet::empty(),
            reading: ResourceSet::empty(),
            wanted: [ResourceSet::empty(); PLACES],
            last: Vec::with_capacity(alloc, CLAIMS)?,
            there: 0,
            runs: new_runs(alloc)?,
            lengths: [Lengths { len: 0, later: 0 }; PLACES],
            asks: [0; PLACES],
            heads: Heads::new(alloc)?,
            places: [0; PLACES],
            scratch: new_run(alloc)?,
            ended: Vec::with_capacity(alloc, CLAIMS)?,
        })
    }

    /// Steps the machine by an event, and follows it. The machine has taken just the events that were followed before. Takes no
    /// memory.
    ///
    /// # Errors
    ///
    /// The refusal of the machine. The machine is then as before, and the same events are followed.
    pub fn step(&mut self, machine: &mut Plain, event: &Event) -> Result<(), Refused>
        requires fits { Fits machine.old.state event.now }
        requires known { (p : Past) × Follows self.old p × (machine.old.state ≡ state_of p) × (length p.events < 2 ^ 63) }
        ensures accepted { IsOk result ↔ Accepts machine.old.state event.now }
        ensures refused { IfErr result (λ cause. refusal machine.old.state event.now ≡ Some cause) }
        ensures unchanged { OnErr result (machine.new.state ≡ machine.old.state) }
        ensures untold { OnErr result (machine.new.last ≡ machine.old.last) }
        ensures still { OnErr result ((p : Past) → Follows self.old p → Follows self.new p) }
        ensures step { OnOk result (Steps machine.old.state event.now machine.new.state) }
        ensures after { OnOk result (machine.new.state ≡ next machine.old.state event.now) }
        ensures changes { OnOk result (machine.new.last ≡ changes_between machine.old.state machine.new.state) }
        ensures active { OnOk result (AreActive machine.new.last.statuses) }
        ensures normal { OnOk result (IsNormalEvent event.now) }
        ensures followed { OnOk result ((p : Past) → Follows self.old p → machine.old.state ≡ state_of p → Follows self.new (with_event p event.now)) }
    {
        self.note(machine, event);
        machine.step(*event)?;
        self.follow(machine, event);
        Ok(())
    }

    // Notes how many claims there are before an event, and the claims themselves if it may end a wait.
    fn note(&mut self, machine: &Plain, event: &Event)
        requires known { (p : Past) × Follows self.old p × (machine.now.state ≡ state_of p) }
        ensures still { (p : Past) → Follows self.old p → Follows self.new p }
        ensures there { self.new.there ≡ length machine.now.state.claims }
        ensures noted { ends_none self.new.waiting event.now ≡ false → self.new.last.items ≡ machine.now.state.claims }
    {
        self.there = machine.claims().len();
        if !ends_none(self.waiting, event) {
            copy_claims(&mut self.last, machine.claims());
        }
    }

    // Follows an event that the machine took.
    fn follow(&mut self, machine: &Plain, event: &Event)
        requires { (p : Past) × IsAhead self.old machine.now p event.now × (length p.events < 2 ^ 63) }
        ensures { (p : Past) → IsAhead self.old machine.now p event.now → Follows self.new (with_event p event.now) }
    {
        if ends_none(self.waiting, event) {
            self.pass(machine, event);
        } else {
            self.advance(machine, event);
        }
    }

    // Follows an event that ends no wait.
    fn pass(&mut self, machine: &Plain, event: &Event)
        requires ahead { (p : Past) × IsAhead self.old machine.now p event.now × (length p.events < 2 ^ 63) }
        requires calm { ends_none self.old.waiting event.now ≡ true }
        ensures { (p : Past) → IsAhead self.old machine.now p event.now → Follows self.new (with_event p event.now) }
    {
        if is_finish(event) {
            self.let_go(event);
        } else {
            self.go_on(machine, event);
        }
    }

    // Follows a finish where nobody waits: nothing is kept of its seat, and all that is kept of others stays.
    fn let_go(&mut self, event: &Event)
        requires ahead { (machine : Standing) × (p : Past) × IsAhead self.old machine p event.now }
        requires calm { ends_none self.old.waiting event.now ≡ true }
        requires finish { is_finish event.now ≡ true }
        ensures { (machine : Standing) (p : Past) → IsAhead self.old machine p event.now → Follows self.new (with_event p event.now) }
    {
        self.ended.clear();
        self.heads.close();
    }

    // Follows an event that ends no wait and is no finish. Nothing is kept yet of the wait of its seat, and all other waits go on
    // as they are.
    fn go_on(&mut self, machine: &Plain, event: &Event)
        requires ahead { (p : Past) × IsAhead self.old machine.now p event.now × (length p.events < 2 ^ 63) }
        requires calm { ends_none self.old.waiting event.now ≡ true }
        ensures { (p : Past) → IsAhead self.old machine.now p event.now → Follows self.new (with_event p event.now) }
    {
        clear_run(&mut self.runs, event.seat());
        self.ended.clear();
        note_lengths(&mut self.lengths, event);
        note_ask(&mut self.asks, event);
        note_wanted(&mut self.wanted, event);
        note_event(&mut self.rising, &mut self.asking, &mut self.reading, event);
        let first = first_of(event, self.there, machine.claims());
        note_seat(
            &mut self.waiting,
            self.rising,
            event.seat(),
            first,
            machine.claims(),
        );
        self.heads
            .pass(is_issue(event), self.there, machine.claims());
    }

    // Follows an event that may end a wait: looks at each wait before it, and at each after it. It stays a call, so that an event
    // that ends no wait needs no room for it.
    #[inline(never)]
    fn advance(&mut self, machine: &Plain, event: &Event)
        requires ahead { (p : Past) × IsAhead self.old machine.now p event.now × (length p.events < 2 ^ 63) }
        requires other { ends_none self.old.waiting event.now ≡ false }
        ensures { (p : Past) → IsAhead self.old machine.now p event.now → Follows self.new (with_event p event.now) }
    {
        self.tell_ended(machine, event);
        self.note_left(machine, event);
        self.keep_waits(machine, event);
    }

    // Finds the waits that an event ended, by what is kept of the moment before it. It is part of `advance`, and inlined there.
    #[inline(always)]
    fn tell_ended(&mut self, machine: &Plain, event: &Event)
        requires ahead { (p : Past) × IsAhead self.old machine.now p event.now }
        requires other { ends_none self.old.waiting event.now ≡ false }
        ensures { (p : Past) → IsAhead self.old machine.now p event.now → HasTold self.old self.new machine.now p event.now }
    {
        self.heads.tell_now(&self.last);
        tell(
            &mut self.ended,
            &mut self.scratch,
            &self.runs,
            &self.heads.now,
            &self.lengths,
            &self.asks,
            self.waiting,
            self.rising,
            self.asking,
            event.seat(),
            &machine.changes().grants,
            &self.last,
            machine.claims(),
        );
    }

    // Notes what an event leaves of the seats, given the waits that it ended. It is part of `advance`, and inlined there.
    #[inline(always)]
    fn note_left(&mut self, machine: &Plain, event: &Event)
        requires { (a : Following) × (p : Past) × HasTold a self.old machine.now p event.now × (length p.events < 2 ^ 63) }
        ensures { (a : Following) (p : Past) → HasTold a self.old machine.now p event.now → HasNoted a self.new machine.now p event.now }
    {
        note_lengths(&mut self.lengths, event);
        note_ask(&mut self.asks, event);
        note_event(&mut self.rising, &mut self.asking, &mut self.reading, event);
        note_ended(&mut self.waiting, &self.ended);
        let first = first_of(event, self.there, machine.claims());
        note_seat(
            &mut self.waiting,
            self.rising,
            event.seat(),
            first,
            machine.claims(),
        );
    }

    // Goes on to the moment after an event, with the heads of the writes and with what is kept of the waits. It is part of
    // `advance`, and inlined there.
    #[inline(always)]
    fn keep_waits(&mut self, machine: &Plain, event: &Event)
        requires { (a : Following) × (p : Past) × HasNoted a self.old machine.now p event.now }
        ensures { (a : Following) (p : Past) → HasNoted a self.old machine.now p event.now → Follows self.new (with_event p event.now) }
    {
        let came = seats_told(&machine.changes().statuses);
        let gone = self.heads.lose(event);
        let touched = touched_by(
            &self.heads.behind,
            self.heads.lost.claim.seat,
            &machine.changes().statuses,
        );
        self.heads
            .turn(&mut self.places, gone, came, touched, machine.claims());
        keep(
            &mut self.runs,
            self.waiting,
            self.rising,
            self.reading,
            &self.wanted,
            event,
            written_by(&self.heads.shares, &machine.changes().statuses),
            &self.lengths,
            &self.heads.lost,
            self.heads.moved,
            self.heads.risen,
            &self.heads.now,
            &self.places,
            &self.last,
            machine.claims(),
        );
    }

    /// The waits with at least one moment that the last event ended, by rising stamp, with the numbers of their covers.
    pub fn ended(&self) -> &[WaitEnd]
        ensures none { (p : Past) → Follows self.now p → p.events ≡ [] → result.now ≡ [] }
        ensures ended { (p : Past) → Follows self.now p → AreLastEnded p result.now }
    {
        &self.ended
    }
}

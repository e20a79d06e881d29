// The events: each is stepped once.
ghost use Rattle.std.specs.Prelude.{◌≡◌, ◌<◌, ◌^◌, length, Bool, true, false, OnOk, OnErr, IfErr, IfSome, IsSome, Some, None};
ghost use Rattle.rclaim.specs.Events.{seat_of};
ghost use Rattle.rmodel.specs.Changes.{AreActive};
ghost use Rattle.rmodel.specs.Holds.{holds_of};
ghost use Rattle.rcover.specs.Follows.{Follows};
ghost use Rattle.rcover.specs.Past.{Past, state_of, with_event};
ghost use Rattle.rtrace_form.specs.Events.{refusal_in};
ghost use Rattle.rtrace_form.specs.Lines.{Happens};
ghost use Rattle.rtrace_form.specs.SoFar.{SoFar, lock_in, entries_in, event_place};
ghost use Rattle.rtrace_form.specs.declared.fault.Code.{Code};
ghost use Rattle.rtrace_read.specs.Knows.{Knows, state_in, changes_in, past_in};
ghost use Rattle.rtrace_read.specs.LineTakes.{Takes, Refuses, StillDue, IsReady, IsPlaced, FitsTold, Allows, AllowsBehind, NotesEvent, event_admitted, edited_by, stepped};

use crate::place::{AT_ACTS, AT_CHANGES};
use crate::reading::ReportReader;
use rclaim::{Event, RequestErr};
use rcover::Following;
use rexpand::Groups;
use rmodel::{Granted, Machine, admit};
use rplain::Plain;
use rset::ResourceSet;
use rtrace_form::{Code, Refusal, RowErr};
use std::alloc::{AllocError, Global};

/// One step of the machine, and of what follows it, by an event whose request is right by itself.
///
/// # Errors
///
/// Its refusal. Then the machine is as before, and the same events are followed.
pub fn apply(machine: &mut Plain, following: &mut Following, event: &Event) -> Result<(), Refusal>
    requires fits { FitsTold machine.old.state event.now }
    requires known { (p : Past) × Follows following.old p × (machine.old.state ≡ state_of p) × (length p.events < 2 ^ 63) }
    ensures stepped { OnOk result ((refusal_in machine.old.state event.now ≡ None) × (machine.new ≡ stepped machine.old.state event.now) × AreActive (stepped machine.old.state event.now).last.statuses) }
    ensures followed { OnOk result ((p : Past) → Follows following.old p → machine.old.state ≡ state_of p → Follows following.new (with_event p event.now)) }
    ensures refused { IfErr result (λ cause. refusal_in machine.old.state event.now ≡ Some cause) }
    ensures still { OnErr result ((machine.new ≡ machine.old) × ((p : Past) → Follows following.old p → Follows following.new p)) }
{
    if !is_admitted(machine.groups(), event) {
        return Err(Refusal::Request(RequestErr::Undeclared));
    }
    match following.step(machine, event) {
        Ok(()) => Ok(()),
        Err(cause) => Err(Refusal::Step(cause)),
    }
}

// Whether the request of an event is admitted under read groups, if it has one.
fn is_admitted(groups: &Groups, event: &Event) -> bool
    ensures { result ≡ event_admitted groups.now.groups event.now }
{
    match event {
        Event::Issue { request, .. } => admit(groups, request).is_ok(),
        Event::Finish { .. } | Event::Rise { .. } | Event::Ask { .. } => true,
    }
}

impl ReportReader {
    /// Takes an event in its place. Its request must be right by itself.
    ///
    /// # Errors
    ///
    /// Its refusal, or out of memory at the first event. Where it is refused, what was due is still due, and no name
    /// was declared. Out of memory, nothing changes.
    pub fn happen(&mut self, alloc: Global, event: &Event) -> Result<(), RowErr>
        requires ready { IsReady self.old }
        requires placed { IsPlaced self.old }
        requires fits { (whole : Bool) (s : SoFar) → Knows whole self.old s → length (entries_in s) < 2 ^ 62 → FitsTold (lock_in s) event.now }
        ensures taken { OnOk result (Takes self.old self.new (Happens event.now)) }
        ensures counted { OnOk result (NotesEvent self.old self.new event.now) }
        ensures allowed { OnOk result (self.old.whole ≡ true → AllowsBehind self.old self.new event.now) }
        ensures bad { (code : Code) → result ≡ Err (RowErr.Bad code) → Refuses self.old (Happens event.now) code }
        ensures still { (code : Code) → result ≡ Err (RowErr.Bad code) → StillDue self.old self.new }
        ensures names { (code : Code) → result ≡ Err (RowErr.Bad code) → (self.new.resources ≡ self.old.resources) × (self.new.tasks ≡ self.old.tasks) }
        ensures memory { result ≡ Err RowErr.Memory → self.new ≡ self.old }
        ensures listed { self.old.whole ≡ false → (self.new.shown ≡ self.old.shown) × (self.new.edited ≡ self.old.edited) }
    {
        let Ok(()) = self.make_machine(alloc) else {
            return Err(RowErr::Memory);
        };
        let (shown, edited) = self.allowed(event);
        let Some(machine) = &mut self.machine else {
            return Err(RowErr::Memory);
        };
        let Some(following) = &mut self.following else {
            return Err(RowErr::Memory);
        };
        match apply(machine, following, event) {
            Ok(()) => {
                self.told = 0;
                self.last = place_behind(event);
                self.shown = shown;
                self.edited = edited;
                Ok(())
            }
            Err(cause) => Err(RowErr::Bad(Code::Refused(cause))),
        }
    }

    // Makes the machine and what follows it, if they are not there: all names are declared by now.
    fn make_machine(&mut self, alloc: Global) -> Result<(), AllocError>
        requires ready { IsReady self.old }
        requires placed { IsPlaced self.old }
        ensures made { OnOk result (IsSome self.new.machine × ((whole : Bool) (s : SoFar) → Knows whole self.old s → (state_in s self.new.machine ≡ lock_in s) × (changes_in self.new.machine ≡ changes_in self.old.machine))) }
        ensures followed { OnOk result ((whole : Bool) (s : SoFar) → Knows whole self.old s → IfSome self.new.following (λ f. Follows f (past_in s))) }
        ensures there { OnOk result (IsSome self.new.following) }
        ensures others { self.new ≡ record self.old { machine = self.new.machine; following = self.new.following } }
        ensures err { OnErr result (self.new ≡ self.old) }
    {
        if self.machine.is_none() {
            self.make_first(alloc)
        } else {
            Ok(())
        }
    }

    // Makes the machine, which is not there yet, and what follows it. Room for them is kept out of the path of each
    // event.
    #[cold]
    #[inline(never)]
    fn make_first(&mut self, alloc: Global) -> Result<(), AllocError>
        requires ready { IsReady self.old }
        requires placed { IsPlaced self.old }
        requires none { self.old.machine ≡ None }
        ensures made { OnOk result (IsSome self.new.machine × ((whole : Bool) (s : SoFar) → Knows whole self.old s → (state_in s self.new.machine ≡ lock_in s) × (changes_in self.new.machine ≡ changes_in self.old.machine))) }
        ensures followed { OnOk result ((whole : Bool) (s : SoFar) → Knows whole self.old s → IfSome self.new.following (λ f. Follows f (past_in s))) }
        ensures there { OnOk result (IsSome self.new.following) }
        ensures others { self.new ≡ record self.old { machine = self.new.machine; following = self.new.following } }
        ensures err { OnErr result (self.new ≡ self.old) }
    {
        let Some(groups) = &self.groups else {
            return Ok(());
        };
        let groups = groups.copy(alloc)?;
        let tasks = self.tasks.len();
        let cap = self.cap.unwrap_or(tasks);
        let machine = Plain::new(alloc, groups, tasks, cap)?;
        self.following = Some(Following::new(alloc)?);
        self.machine = Some(machine);
        Ok(())
    }

    // What acts after an event may show, and what they may edit, by what its seat holds before it. In an event list,
    // which has no acts, both stay as they are.
    fn allowed(&self, event: &Event) -> (ResourceSet, ResourceSet)
        ensures listed { self.now.whole ≡ false → result ≡ (self.now.shown, self.now.edited) }
        ensures allowed { self.now.whole ≡ true → IfSome self.now.machine (λ machine. Allows result.0 result.1 event.now (holds_of machine.state.claims (seat_of event.now))) }
    {
        if !self.whole {
            return (self.shown, self.edited);
        }
        let Some(machine) = &self.machine else {
            return (self.shown, self.edited);
        };
        let held = machine.granted(event.seat());
        (held.reads.union(held.writes), edited_by(held, event))
    }
}

// What acts after an event may edit, where its seat held this before it.
fn edited_by(held: Granted, event: &Event) -> ResourceSet
    ensures { result ≡ edited_by held event.now }
{
    match event {
        Event::Finish { .. } => held.writes,
        Event::Issue { .. } | Event::Rise { .. } | Event::Ask { .. } => ResourceSet::empty(),
    }
}

// The place of an event.
fn place_behind(event: &Event) -> u8
    ensures { result ≡ event_place event.now }
{
    match event {
        Event::Issue { .. } | Event::Ask { .. } => AT_CHANGES,
        Event::Finish { .. } | Event::Rise { .. } => AT_ACTS,
    }
}

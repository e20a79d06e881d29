//! A monitor with the looks of it that were kept.
ghost use Rattle.std.specs.Prelude.{◌≡◌, ◌≤◌, ◌<◌, [], Some, List, length, vec_capacity};
ghost use mathlib.Core.List.{IsPrefix};
ghost use Rattle.rclaim.specs.declared.event.Event.{Event};
ghost use Rattle.rmodel.specs.Steps.{after, AreAccepted};
ghost use Rattle.rmon.specs.declared.rule.Opening.{Opening};
ghost use Rattle.rmon.specs.Looks.{look_of};
ghost use Rattle.rmon.specs.Opened.{opening_of};
ghost use Rattle.rlooks.specs.Looks.{AreLooksAt};
ghost use Rattle.rlooks.specs.Lookouts.{GoesOn};

use rmon::{Look, Monitor, Note};
use std::marker::Model;
use std::sync::Wait;
use std::thread;

/// How many rounds each worker makes, of one look each.
pub const ROUNDS: usize = 16;

/// How many looks are kept of each monitor: those of the rounds, and one at the end.
pub const LOOKS: usize = ROUNDS + 1;

/// A monitor with the looks of it that were kept, in order. Each is one at a state after a beginning of the events that the
/// monitor has seen, and none counts fewer events than an earlier one. There is room for `LOOKS` of them.
///
/// Contracts see the `monitor` and the `looks`.
#[derive(Drop)]
pub struct Lookout {
    pub(crate) monitor: Monitor,
    pub(crate) looks: Vec<Look>,
}

impl Model for Lookout {
    ghost use Rattle.rlooks.specs.Lookouts.{Looking, looking_code};

    ghost Value = { Looking };

    ghost coded = { looking_code };

    ghost use Rattle.rlooks.specs.Kept.{looking_of, IsKept};

    ghost view = { looking_of };

    ghost invariant = { IsKept };
}

impl Lookout {
    // A lookout of which no look was kept yet.
    pub(crate) fn new(monitor: Monitor, looks: Vec<Look>) -> Lookout
        requires none { looks.items ≡ [] }
        requires room { LOOKS ≤ vec_capacity looks }
        ensures { result ≡ record { monitor = monitor; looks = [] } }
    {
        Lookout { monitor, looks }
    }

    /// Takes in a note of its feed. The monitor has then seen what the note says was published.
    pub fn learn(&mut self, note: Note)
        requires { note.feed ≡ self.old.monitor.feed }
        ensures on { GoesOn 0 self.old self.new }
        ensures looks { self.new.looks ≡ self.old.looks }
        ensures note { IsPrefix note.events self.new.monitor.seen }
    {
        self.monitor.learn(note);
    }

    /// Looks, and keeps the look. It takes no memory and no lock.
    pub fn look<R: Wait>(&mut self, rt: &R)
        requires { length self.old.looks < LOOKS }
        ensures { GoesOn 1 self.old self.new }
    {
        let look = self.monitor.look(rt);
        self.looks.push_reserved(look);
    }

    /// Looks until a look counts this many events, keeps that one, and gives all looks. If these are the first events that the
    /// monitor has seen, the looks are those at a lock that is closed with just these.
    pub fn finish<R: Wait>(self, rt: &R, events: u64) -> Vec<Look>
        requires { length self.looks ≡ ROUNDS }
        ensures kept { IsPrefix self.looks result.items }
        ensures looks { (o : Opening) (all : List Event) → self.monitor.opening ≡ Some o → IsPrefix all self.monitor.seen → length all ≡ events → AreLooksAt (opening_of o) all result.items }
    {
        let Lookout {
            mut monitor,
            mut looks,
        } = self;
        let look = look_until(rt, &mut monitor, events);
        looks.push_reserved(look);
        looks
    }
}

// Looks until a look counts this many events.
fn look_until<R: Wait>(rt: &R, monitor: &mut Monitor, events: u64) -> Look
    ensures same { (monitor.new.feed ≡ monitor.old.feed) × (monitor.new.opening ≡ monitor.old.opening) }
    ensures before { IsPrefix monitor.old.seen monitor.new.seen }
    ensures look { (o : Opening) → monitor.old.opening ≡ Some o → AreAccepted (opening_of o) monitor.new.seen × (result ≡ look_of (after (opening_of o) monitor.new.seen) (length monitor.new.seen)) }
    ensures count { result.events ≡ events }
{
    for _ in rt.forever() {
        let look = monitor.look(rt);
        if look.events == events {
            return look;
        }
        thread::yield_now();
    }
    unreachable!()
}

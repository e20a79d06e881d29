// What a watcher is.
ghost use Rattle.std.specs.Prelude.{◌≡◌, ◌<◌, List, [], map, length};
ghost use Rattle.rwatch.specs.Seen.{Seen, told, event_at, watcher_at};

use crate::WatchKind;
use rclaim::{Changes, Event};

/// What is given each step of a lock. It may be dropped at any time.
pub trait Watcher: Drop {
    /// What it counts, its count, its room for events, and the events that it keeps.
    ghost seen: { Self → Seen };

    /// What it counts.
    fn kind(&self) -> WatchKind
        ensures { result ≡ (seen self.now).kind };

    /// Its count, which stops at the greatest value of its type.
    fn count(&self) -> u64
        ensures { result ≡ (seen self.now).count };

    /// The event number `i`, counted from 0, of those that it was given; None where it keeps fewer, or does not keep them all.
    fn event(&self, i: usize) -> Option<Event>
        ensures { result ≡ event_at (seen self.now).kept i };

    /// Gives it a step: the event and what it changed. Takes no memory.
    fn told(&mut self, event: &Event, changes: &Changes)
        ensures { seen self.new ≡ told event.now changes.now (seen self.old) };
}

/// Everybody who is given the steps of a lock. They may be dropped at any time, and moved to another thread.
pub trait Audience: Drop + Send {
    /// What each of them has seen, in order.
    ghost all: { Self → List Seen };

    /// Gives each of them a step, in order. Takes no memory.
    fn tell(&mut self, event: &Event, changes: &Changes)
        ensures { all self.new ≡ map (told event.now changes.now) (all self.old) };

    /// Takes all of them out, so that nobody is left. Takes no memory.
    fn take(&mut self) -> Self
        ensures taken { all result ≡ all self.old }
        ensures left { all self.new ≡ [] };

    /// How many there are.
    fn count(&self) -> usize
        ensures { result ≡ length (all self.now) };

    /// What the watcher at a place counts.
    fn kind_of(&self, i: usize) -> WatchKind
        requires { i < length (all self.now) }
        ensures { result ≡ (watcher_at (all self.now) i).kind };

    /// The count of the watcher at a place.
    fn count_of(&self, i: usize) -> u64
        requires { i < length (all self.now) }
        ensures { result ≡ (watcher_at (all self.now) i).count };
}

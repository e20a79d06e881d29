// A list of boxed watchers.
ghost use Rattle.std.specs.Prelude.{◌≡◌, ◌<◌, map, length};
ghost use Rattle.rwatch.specs.Seen.{Seen, told, event_at, watcher_at};

use crate::{Audience, WatchKind, Watcher};
use rclaim::{Changes, Event};
use std::mem;

/// Watchers that are given each step together, in order. The boxes belong to the caller.
#[derive(Drop)]
pub struct Watchers {
    /// The boxes, in the order in which they are given a step.
    pub list: Vec<Box<dyn Watcher + Send>>,
}

impl Watchers {
    /// The watchers of a list.
    pub fn new(list: Vec<Box<dyn Watcher + Send>>) -> Watchers
        ensures { result.list ≡ list }
    {
        Watchers { list }
    }

    /// Gives each of them a step, in order. Takes no memory.
    pub fn tell_all(&mut self, event: &Event, changes: &Changes)
        ensures { map seen self.new.list.items ≡ map (told event.now changes.now) (map seen self.old.list.items) }
    {
        tell_each(self.list.as_mut_slice(), event, changes);
    }

    /// How many there are.
    pub fn len(&self) -> usize
        ensures { result ≡ length self.now.list.items }
    {
        self.list.len()
    }

    /// What the watcher at a place counts.
    pub fn kind_of(&self, i: usize) -> WatchKind
        requires { i < length self.now.list.items }
        ensures { result ≡ (watcher_at (map seen self.now.list.items) i).kind }
    {
        kind_in(&self.list[i])
    }

    /// The count of the watcher at a place.
    pub fn count_of(&self, i: usize) -> u64
        requires { i < length self.now.list.items }
        ensures { result ≡ (watcher_at (map seen self.now.list.items) i).count }
    {
        count_in(&self.list[i])
    }

    /// The event number `k`, counted from 0, of those that the watcher at a place keeps; None where it keeps fewer.
    pub fn event_of(&self, i: usize, k: usize) -> Option<Event>
        requires { i < length self.now.list.items }
        ensures { result ≡ event_at (watcher_at (map seen self.now.list.items) i).kept k }
    {
        event_in(&self.list[i], k)
    }

    /// The boxes, as they are.
    pub fn hand_back(self) -> Vec<Box<dyn Watcher + Send>>
        ensures { result ≡ self.list }
    {
        self.list
    }
}

// Gives each watcher of a list a step.
fn tell_each(list: &mut [Box<dyn Watcher + Send>], event: &Event, changes: &Changes)
    ensures { map seen list.new ≡ map (told event.now changes.now) (map seen list.old) }
{
    for watcher in list.iter_mut() {
        watcher.told(event, changes);
    }
}

fn kind_in(watcher: &Box<dyn Watcher + Send>) -> WatchKind
    ensures { result ≡ (seen watcher.now).kind }
{
    watcher.kind()
}

fn count_in(watcher: &Box<dyn Watcher + Send>) -> u64
    ensures { result ≡ (seen watcher.now).count }
{
    watcher.count()
}

fn event_in(watcher: &Box<dyn Watcher + Send>, k: usize) -> Option<Event>
    ensures { result ≡ event_at (seen watcher.now).kept k }
{
    watcher.event(k)
}

impl Audience for Watchers {
    ghost all = { λ w. map (λ b. (Watcher-box b).seen b.value) w.list.items };

    fn tell(&mut self, event: &Event, changes: &Changes) {
        self.tell_all(event, changes);
    }

    fn take(&mut self) -> Watchers {
        let alloc = *self.list.allocator();
        Watchers {
            list: mem::replace(&mut self.list, Vec::new(alloc)),
        }
    }

    fn count(&self) -> usize {
        self.len()
    }

    fn kind_of(&self, i: usize) -> WatchKind {
        self.kind_of(i)
    }

    fn count_of(&self, i: usize) -> u64 {
        self.count_of(i)
    }
}

// A watcher that counts.
ghost use Rattle.std.specs.Prelude.{◌≡◌, None};
ghost use Rattle.rwatch.specs.Seen.{Seen, told, event_at};

use crate::kinds::count_on;
use crate::{WatchKind, Watcher};
use rclaim::{Changes, Event};

/// A watcher that counts, and keeps no events.
#[derive(Drop)]
pub struct Counter {
    kind: WatchKind,
    count: u64,
}

impl Counter {
    /// A counter of this kind that has counted nothing.
    pub fn new(kind: WatchKind) -> Counter
        ensures { result ≡ record { kind = kind; count = 0 } }
    {
        Counter { kind, count: 0 }
    }
}

impl Watcher for Counter {
    ghost seen = { λ a. record { kind = a.kind; count = a.count; room = 0; kept = None } };

    fn kind(&self) -> WatchKind {
        self.kind
    }

    fn count(&self) -> u64 {
        self.count
    }

    fn event(&self, _i: usize) -> Option<Event> {
        None
    }

    fn told(&mut self, event: &Event, changes: &Changes) {
        count_on(&mut self.count, self.kind, event, changes);
    }
}

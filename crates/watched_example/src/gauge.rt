//! The watcher of this program: a count that other threads may read while the lock runs.
ghost use Rattle.std.specs.Prelude.{◌≡◌, None};
ghost use Rattle.rwatch.specs.Seen.{Seen, told, event_at};
ghost use Rattle.watched_example.specs.Watching.{counting};

use rclaim::{Changes, Event};
use rwatch::{WatchKind, Watcher};
use std::alloc::Global;
use std::sync::Arc;
use std::sync::atomic::{AtomicU64, Ordering};

/// Counts issues, and publishes its count.
#[derive(Drop)]
pub struct Gauge {
    count: u64,
    published: Arc<AtomicU64, Global>,
}

impl Gauge {
    /// A gauge that has counted nothing, and will publish its count here.
    pub fn new(published: Arc<AtomicU64, Global>) -> Gauge
        ensures { result.count ≡ 0 }
    {
        Gauge {
            count: 0,
            published,
        }
    }
}

impl Watcher for Gauge {
    ghost seen = { λ gauge. counting gauge.count };

    fn kind(&self) -> WatchKind {
        WatchKind::Issues
    }

    fn count(&self) -> u64 {
        self.count
    }

    fn event(&self, _i: usize) -> Option<Event> {
        None
    }

    fn told(&mut self, event: &Event, changes: &Changes) {
        self.count = WatchKind::Issues.count_after(self.count, event, changes);
        self.published.store(self.count, Ordering::SeqCst);
    }
}

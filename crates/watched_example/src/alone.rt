//! An audience of one watcher, which needs no box.
ghost use Rattle.std.specs.Prelude.{◌≡◌, ◌<◌, ◌∷◌, [], map, length};
ghost use Rattle.rwatch.specs.Seen.{Seen, told, watcher_at};
ghost use Rattle.watched_example.specs.Watching.{seen_by};

use rclaim::{Changes, Event};
use rwatch::{Audience, WatchKind, Watcher};

/// One watcher, or nobody once it was taken out.
#[derive(Drop)]
pub struct Alone<W: Watcher + Send> {
    watcher: Option<W>,
}

impl<W: Watcher + Send> Alone<W> {
    /// This watcher.
    pub fn new(watcher: W) -> Alone<W>
        ensures { seen_by W.seen result.watcher ≡ W.seen watcher ∷ [] }
    {
        Alone {
            watcher: Some(watcher),
        }
    }
}

impl<W: Watcher + Send> Audience for Alone<W> {
    ghost all = { λ a. seen_by W.seen a.watcher };

    fn tell(&mut self, event: &Event, changes: &Changes) {
        if let Some(watcher) = &mut self.watcher {
            watcher.told(event, changes);
        }
    }

    fn take(&mut self) -> Alone<W> {
        Alone {
            watcher: self.watcher.take(),
        }
    }

    fn count(&self) -> usize {
        usize::from(self.watcher.is_some())
    }

    fn kind_of(&self, _i: usize) -> WatchKind {
        match &self.watcher {
            Some(watcher) => watcher.kind(),
            None => unreachable!(),
        }
    }

    fn count_of(&self, _i: usize) -> u64 {
        match &self.watcher {
            Some(watcher) => watcher.count(),
            None => unreachable!(),
        }
    }
}

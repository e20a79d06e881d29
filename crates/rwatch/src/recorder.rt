// A watcher that keeps events.
ghost use Rattle.std.specs.Prelude.{◌≡◌, [], IfOk, Some};
ghost use Rattle.rwatch.specs.Seen.{Seen, told, event_at, room_after, kept_after};

use crate::{WatchKind, Watcher};
use rclaim::{Changes, Event};
use std::alloc::{AllocError, Global};
use std::marker::Model;

/// A watcher that counts, and keeps the events that it is given as long as it has room for all of them.
#[derive(Drop)]
pub struct Recorder {
    kind: WatchKind,
    count: u64,
    room: usize,
    kept: Option<Vec<Event>>,
}

impl Model for Recorder {
    ghost use Rattle.std.specs.Prelude.{◌≤◌, ◌+◌, IfSome, option_map, vec_len, vec_capacity};
    ghost use Rattle.std.specs.Coded.{codes};
    ghost use Rattle.rclaim.specs.EventCodes.{event_code};
    ghost use Rattle.rwatch.specs.Seen.{Seen};

    ghost Value = { Seen };

    ghost coded = { Prim.hlevel (codes, event_code) };

    ghost view = { λ a. record { kind = a.kind; count = a.count; room = a.room; kept = option_map (λ v. v.items) a.kept } };

    ghost invariant = { λ a. IfSome a.kept (λ v. vec_len v + a.room ≤ vec_capacity v) };
}

impl Recorder {
    /// A recorder of this kind that was given nothing yet, with room for `room` events.
    ///
    /// # Errors
    ///
    /// Out of memory.
    pub fn new(alloc: Global, kind: WatchKind, room: usize) -> Result<Recorder, AllocError>
        ensures { IfOk result (λ r. r ≡ record { kind = kind; count = 0; room = room; kept = Some [] }) }
    {
        let events = Vec::with_capacity(alloc, room)?;
        Ok(Recorder {
            kind,
            count: 0,
            room,
            kept: Some(events),
        })
    }

    // Keeps an event if there is room for it; if not, nothing is kept from then on.
    fn keep(&mut self, event: Event)
        ensures { self.new ≡ record self.old { room = room_after self.old.room self.old.kept; kept = kept_after self.old.room self.old.kept event } }
    {
        if self.room == 0 {
            self.kept = None;
        }
        if let Some(events) = &mut self.kept {
            events.push_reserved(event);
            self.room -= 1;
        } else {
            self.room = 0;
        }
    }
}

impl Watcher for Recorder {
    ghost seen = { λ a. a };

    fn kind(&self) -> WatchKind {
        self.kind
    }

    fn count(&self) -> u64 {
        self.count
    }

    fn event(&self, i: usize) -> Option<Event> {
        match &self.kept {
            Some(events) => events.get(i).copied(),
            None => None,
        }
    }

    fn told(&mut self, event: &Event, changes: &Changes) {
        self.count = self.kind.count_after(self.count, event, changes);
        self.keep(*event);
    }
}

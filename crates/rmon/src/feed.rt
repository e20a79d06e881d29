//! The feed.
ghost use Rattle.std.specs.Prelude.{◌≡◌, ◌≤◌, ◌<◌, ◌^◌, ◌∷◌, ◌++◌, [], Some, None, drop, fold, length, All, IfOk, IfErr, OnOk, OnErr, List};
ghost use Rattle.rset.specs.declared.TheConstants.{SEATS};
ghost use Rattle.left_right.specs.Sides.{view};
ghost use Rattle.rclaim.specs.declared.event.Event.{Event};
ghost use Rattle.rmodel.specs.Steps.{after, AreAccepted, Comes};
ghost use Rattle.rmon.specs.declared.rule.Opening.{Opening};
ghost use Rattle.rmon.specs.Opened.{opening_of, opening_in};
ghost use Rattle.rmon.specs.Fronts.{head_of};
ghost use Rattle.rmon.specs.Completed.{completed_by, completes};
ghost use Rattle.rmon.specs.Images.{absorbed};
ghost use Rattle.rmon.specs.Rules.{KeepsRule};
ghost use Rattle.rmon.specs.Known.{begun, newcomer, HasTaken};

use crate::front::{Front, Head};
use crate::image::{Change, Image};
use crate::monitor::{Monitor, Note};
use crate::rule::{Begins, Copies, ImageReader, ImageWriter, Learns, Publishes};
use core::mem::replace_with;
use left_right::writer::Writer;
use rclaim::Event;
use rexpand::Groups;
use rmodel::Machine;
use rplain::Plain;
use std::alloc::{AllocError, Global};
use std::marker::Model;
use std::sync::Wait;
use std::thread;

/// Publishes the events of a lock. It is not `Drop`: end it by `close`.
///
/// Contracts see which `feed` it is, its `opening`, the events `published`, and all events `fed`.
pub struct Feed {
    writer: ImageWriter,
    head: Head,
    // All events that were taken, and how many requests they complete.
    front: Front,
    completed: u64,
}

impl Model for Feed {
    ghost use Rattle.rmon.specs.Known.{Feeding, feeding_code};

    ghost Value = { Feeding };

    ghost coded = { feeding_code };

    ghost use Rattle.rmon.specs.Feeding.{feeding_of, IsFeeding};

    ghost view = { feeding_of };

    ghost invariant = { IsFeeding };
}

impl Feed {
    /// A feed with no events, and its monitors.
    ///
    /// # Errors
    ///
    /// Out of memory.
    pub fn new<R: Wait>(
        rt: &R,
        alloc: Global,
        groups: Groups,
        seats: u8,
        cap: u8,
        monitors: u8,
    ) -> Result<(Feed, Vec<Monitor>), AllocError>
        requires seats { (1 ≤ seats) × (seats ≤ SEATS) }
        requires cap { (1 ≤ cap) × (cap ≤ SEATS) }
        requires monitors { (1 ≤ monitors) × (monitors ≤ 8) }
        ensures feed { IfOk result (λ r. r.0 ≡ begun r.0.feed (record { groups = groups; seats = seats; cap = cap })) }
        ensures count { IfOk result (λ r. length r.1.items ≡ monitors) }
        ensures monitors { IfOk result (λ r. All (λ m. m ≡ newcomer r.0.feed (record { groups = groups; seats = seats; cap = cap })) r.1.items) }
    {
        let mut all = Vec::with_capacity(alloc, usize::from(monitors))?;
        let again = groups.copy(alloc)?;
        let first = Plain::new(alloc, groups, seats, cap)?;
        let second = Plain::new(alloc, again, seats, cap)?;
        let mut feed = Feed::over(rt, alloc, first, second, usize::from(monitors))?;
        for _ in 0..monitors {
            all.push_reserved(feed.monitor(rt));
        }
        Ok((feed, all))
    }

    // A feed over two equal machines.
    fn over<R: Wait>(
        rt: &R,
        alloc: Global,
        first: Plain,
        second: Plain,
        monitors: usize,
    ) -> Result<Feed, AllocError>
        requires alike { first ≡ second }
        requires none { first.state ≡ opening_of (opening_in first.state) }
        requires monitors { (0 < monitors) × (monitors < 2 ^ 32) }
        ensures { IfOk result (λ f. f ≡ begun f.feed (opening_in first.state)) }
    {
        let (head, front) = Front::open();
        let first = Image {
            machine: first,
            front: front.again(),
        };
        let second = Image {
            machine: second,
            front: front.again(),
        };
        let writer = writer_over(rt, alloc, first, second, monitors)?;
        Ok(Feed {
            writer,
            head,
            front,
            completed: 0,
        })
    }

    // A monitor that has seen all events.
    fn monitor<R: Wait>(&mut self, rt: &R) -> Monitor
        ensures same { self.new ≡ self.old }
        ensures monitor { result ≡ record { feed = self.old.feed; opening = self.old.opening; seen = self.old.fed } }
    {
        let mut reader = reader_of(rt, &self.writer);
        reader.learn::<Learns>(self.writer.tell::<Copies>());
        Monitor {
            reader,
            front: self.front.again(),
        }
    }

    /// How many events it has taken.
    pub fn fed(&self) -> u64
        ensures { result ≡ length self.now.fed }
    {
        self.front.count()
    }

    /// How many requests are complete by the events that it has taken.
    pub fn completed(&self) -> u64
        ensures { result ≡ completed_by self.now.fed }
    {
        self.completed
    }

    /// Takes these events, and publishes all that were taken so far.
    ///
    /// # Errors
    ///
    /// Out of memory. The first of the events may have been taken; none of them is published yet.
    pub fn pump<R: Wait>(&mut self, rt: &R, events: &[Event]) -> Result<Note, AllocError>
        requires { (o : Opening) → self.old.opening ≡ Some o → AreAccepted (after (opening_of o) self.old.fed) events.now }
        ensures taken { OnOk result (self.new ≡ record self.old { published = self.old.fed ++ events.now; fed = self.old.fed ++ events.now }) }
        ensures note { IfOk result (λ note. note ≡ record { feed = self.old.feed; events = self.old.fed ++ events.now }) }
        ensures err { OnErr result (HasTaken self.old events.now self.new) }
    {
        for event in events {
            self.take(rt, event)?;
        }
        self.publish_all(rt)
    }

    // Publishes all events that were taken.
    fn publish_all<R: Wait>(&mut self, rt: &R) -> Result<Note, AllocError>
        ensures published { OnOk result (self.new ≡ record self.old { published = self.old.fed }) }
        ensures note { IfOk result (λ note. note ≡ record { feed = self.old.feed; events = self.old.fed }) }
        ensures err { OnErr result (self.new ≡ self.old) }
    {
        replace_with(self, rt, |feed, rt| feed.publish(rt))
    }

    // Takes an event.
    fn take<R: Wait>(&mut self, rt: &R, event: &Event) -> Result<(), AllocError>
        requires { (o : Opening) → self.old.opening ≡ Some o → Comes (after (opening_of o) self.old.fed) event.now }
        ensures taken { OnOk result (self.new ≡ record self.old { fed = self.old.fed ++ event.now ∷ [] }) }
        ensures err { OnErr result (self.new ≡ self.old) }
    {
        if self.front.count() == u64::MAX {
            return Err(AllocError);
        }
        match self.writer.append(Change::Take(*event)) {
            Ok(()) => {
                count(rt, &self.head, &mut self.front, event);
                self.completed += completes(event);
                Ok(())
            }
            Err(_) => Err(AllocError),
        }
    }

    // The same, by value.
    fn publish<R: Wait>(self, rt: &R) -> (Feed, Result<Note, AllocError>)
        ensures published { OnOk result.1 (result.0 ≡ record self { published = self.fed }) }
        ensures note { IfOk result.1 (λ note. note ≡ record { feed = self.feed; events = self.fed }) }
        ensures err { OnErr result.1 (result.0 ≡ self) }
    {
        let Feed {
            mut writer,
            head,
            front,
            completed,
        } = self;
        let change = Change::Reach(front.again());
        match writer.append(change) {
            Ok(()) => {
                let writer = show(rt, writer);
                let note = Note {
                    front: front.again(),
                };
                let feed = Feed {
                    writer,
                    head,
                    front,
                    completed,
                };
                return (feed, Ok(note));
            }
            Err(_) => {
                let feed = Feed {
                    writer,
                    head,
                    front,
                    completed,
                };
                return (feed, Err(AllocError));
            }
        }
    }

    /// Ends the feed, and waits for looks in progress. No monitor of it may look from then on: it would wait for ever.
    pub fn close<R: Wait>(self, rt: &R) {
        let Feed {
            writer,
            head: _head,
            front: _front,
            completed: _completed,
        } = self;
        drop(writer.take(rt));
    }
}

// Counts an event that was taken. Nothing else counts there.
fn count<R: Wait>(rt: &R, head: &Head, front: &mut Front, event: &Event)
    requires head { head.now ≡ head_of front.old.feed }
    requires room { length front.old.events < u64.MAX }
    ensures { front.new ≡ record front.old { events = front.old.events ++ event.now ∷ [] } }
{
    for _ in rt.forever() {
        let mut longer = front.again();
        if longer.push(head, event) {
            *front = longer;
            return;
        }
    }
    unreachable!()
}

// How many requests an event completes.
fn completes(event: &Event) -> u64
    ensures { result ≡ completes event.now }
{
    match event {
        Event::Finish { .. } => 1,
        Event::Issue { .. } | Event::Rise { .. } | Event::Ask { .. } => 0,
    }
}

// The writer of two equal images that have no events. It knows how they began.
fn writer_over<R: Wait>(
    rt: &R,
    alloc: Global,
    first: Image,
    second: Image,
    monitors: usize,
) -> Result<ImageWriter, AllocError>
    requires alike { first ≡ second }
    requires none { first.front.events ≡ [] }
    requires opened { first.machine.state ≡ opening_of (opening_in first.machine.state) }
    requires monitors { (0 < monitors) × (monitors < 2 ^ 32) }
    ensures shown { IfOk result (λ w. w.desk.shown.value ≡ first) }
    ensures pending { IfOk result (λ w. drop w.behind w.log.items ≡ []) }
    ensures knows { IfOk result (λ w. view w.desk.place ≡ Some (record { opening = opening_in first.machine.state; front = first.front })) }
{
    let writer: ImageWriter = Writer::new(alloc, first, second, monitors)?;
    let (writer, _) = writer.publish_as::<Begins, R>(rt);
    Ok(writer)
}

// Shows readers a copy with each change.
fn show<R: Wait>(rt: &R, writer: ImageWriter) -> ImageWriter
    requires { KeepsRule writer.desk.place.id (view writer.desk.place) writer.desk.shown.value (drop writer.behind writer.log.items) }
    ensures shown { result.desk.shown.value ≡ fold absorbed writer.desk.shown.value (drop writer.behind writer.log.items) }
    ensures pending { drop result.behind result.log.items ≡ [] }
    ensures knows { view result.desk.place ≡ view writer.desk.place }
{
    let (writer, _) = writer.publish_as::<Publishes, R>(rt);
    writer
}

// A reader, which knows nothing. It waits for a free place.
fn reader_of<R: Wait>(rt: &R, writer: &ImageWriter) -> ImageReader
    ensures nothing { view result.place ≡ None }
    ensures table { result.place.table_id ≡ writer.now.desk.place.table_id }
{
    for _ in rt.forever() {
        if let Ok(reader) = writer.factory().reader() {
            return reader;
        }
        thread::yield_now();
    }
    unreachable!()
}

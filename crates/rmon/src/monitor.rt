//! Monitors, which look.
ghost use Rattle.std.specs.Prelude.{◌≡◌, Some, length, MatchResult};
ghost use mathlib.Core.List.{IsPrefix};
ghost use Rattle.rmodel.specs.Steps.{after, AreAccepted};
ghost use Rattle.rmon.specs.declared.rule.Opening.{Opening};
ghost use Rattle.rmon.specs.Looks.{look_of};
ghost use Rattle.rmon.specs.Opened.{opening_of};
ghost use Rattle.rmon.specs.Known.{HasLooked};

use crate::front::Front;
use crate::image::Image;
use crate::look::{Look, look_at};
use crate::rule::{ImageReader, Looks};
use core::mem::replace_with;
use std::marker::Model;
use std::sync::Wait;
use std::thread;

/// Says that these events of a feed were published.
#[derive(Drop)]
pub struct Note {
    pub(crate) front: Front,
}

impl Model for Note {
    ghost use Rattle.rmon.specs.Fronts.{Reached, reached_code};

    ghost Value = { Reached };

    ghost coded = { reached_code };

    ghost view = { λ n. n.front };
}

/// Looks at what a feed has published.
///
/// Contracts see which `feed` it belongs to, how that began, and the events of it that the monitor has `seen`.
#[derive(Drop)]
pub struct Monitor {
    pub(crate) reader: ImageReader,
    pub(crate) front: Front,
}

impl Model for Monitor {
    ghost use Rattle.rmon.specs.Known.{Watching, watching_code};

    ghost Value = { Watching };

    ghost coded = { watching_code };

    ghost use Rattle.rmon.specs.Watching.{watching_of, IsWatching};

    ghost view = { watching_of };

    ghost invariant = { IsWatching };
}

impl Monitor {
    /// Takes in a note of its feed. It has then seen what the note says was published.
    pub fn learn(&mut self, note: Note)
        requires { note.feed ≡ self.old.feed }
        ensures same { (self.new.feed ≡ self.old.feed) × (self.new.opening ≡ self.old.opening) }
        ensures before { IsPrefix self.old.seen self.new.seen }
        ensures note { IsPrefix note.events self.new.seen }
    {
        self.front = self.front.longer(&note.front);
    }

    /// Shows the state of the lock. It takes no memory and no lock. The monitor has then seen a list of accepted events that
    /// begins with all that it had seen, and the look is that of the state after them.
    pub fn look<R: Wait>(&mut self, rt: &R) -> Look
        ensures same { (self.new.feed ≡ self.old.feed) × (self.new.opening ≡ self.old.opening) }
        ensures before { IsPrefix self.old.seen self.new.seen }
        ensures look { (o : Opening) → self.old.opening ≡ Some o → AreAccepted (opening_of o) self.new.seen × (result ≡ look_of (after (opening_of o) self.new.seen) (length self.new.seen)) }
    {
        replace_with(self, rt, |monitor, rt| monitor.looked(rt))
    }

    // Tries until the image can be read and has all that was seen.
    fn looked<R: Wait>(self, rt: &R) -> (Monitor, Look)
        ensures { HasLooked self result.0 result.1 }
    {
        let mut monitor = self;
        for _ in rt.forever() {
            match monitor.try_look() {
                Ok(done) => return done,
                Err(back) => monitor = back,
            }
            thread::yield_now();
        }
        unreachable!()
    }

    // Looks once.
    fn try_look(self) -> Result<(Monitor, Look), Monitor>
        ensures { MatchResult result (λ r. HasLooked self r.0 r.1) (λ m. m ≡ self) }
    {
        let Monitor { reader, front } = self;
        match reader.enter_as::<Looks>() {
            Ok(reading) => {
                let image: &Image = reading.get();
                if image.front.count() < front.count() {
                    let reader = reading.leave();
                    return Err(Monitor { reader, front });
                }
                let look = look_at(image);
                let front = front.longer(&image.front);
                let reader = reading.leave();
                Ok((Monitor { reader, front }, look))
            }
            Err(reader) => Err(Monitor { reader, front }),
        }
    }
}

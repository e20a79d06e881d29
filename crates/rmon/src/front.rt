//! A list of events that only grows, and beginnings of it. It exists only in proofs: at run time there is its length alone.
ghost use Rattle.std.specs.Prelude.{◌≡◌, ◌≤◌, ◌<◌, ◌∷◌, ◌++◌, [], length, IsTrue, MatchBool};
ghost use mathlib.Core.List.{IsPrefix};
ghost use Rattle.rmon.specs.Fronts.{head_of, Reached};

use logbook::{Gain, Offer, Plain, Play, Rule, Seen, Start, Word};
use rclaim::Event;
use std::marker::Model;

/// The rule of the list.
pub struct Law;

impl Rule<Event, u64> for Law {
    ghost use Rattle.std.specs.Prelude.{[]};
    ghost use base.Fml.{ftrue};
    ghost use Rattle.rmon.specs.Growing.{IsCounted};

    ghost holds = { IsCounted };

    ghost first = { [] };

    ghost hinted = { λ n log. Unit {0} };

    ghost shows = { λ log. [] };

    ghost keeps = { λ names log. ftrue };

    ghost moves = { λ ask before after answer. Unit {0} };
}

/// Nobody keeps anything besides it.
pub struct Nothing;

impl Gain<Event, u64> for Nothing {
    ghost use base.Fml.{ftrue};

    ghost after = { λ names about answer. ftrue };
}

/// A step that adds an event.
pub struct Add;

impl Play<Event, u64> for Add {
    ghost use Rattle.rmon.specs.Growing.{Adds};

    ghost then = { Adds };
}

impl Plain<Event, Event, u64> for Add {
    ghost use Rattle.std.specs.Prelude.{None};

    ghost ask = { λ event. event };

    ghost state = { λ event. None };
}

/// The length of the list.
pub type Head = Word<Event, u64, Law>;

/// A beginning of the list that was seen.
#[derive(Drop)]
pub struct Front {
    count: u64,
    seen: Seen<Event, u64, Law>,
}

impl Model for Front {
    ghost use Rattle.std.specs.Prelude.{◌≡◌, length};
    ghost use Rattle.rmon.specs.Fronts.{Reached, reached_code};

    ghost Value = { Reached };

    ghost coded = { reached_code };

    ghost view = { λ f. record { feed = f.seen.book; events = f.seen.log } };

    ghost invariant = { λ f. f.count ≡ length f.seen.log };
}

impl Front {
    /// A new list, which is empty.
    pub fn open() -> (Head, Front)
        ensures head { result.0 ≡ head_of result.1.feed }
        ensures none { result.1.events ≡ [] }
    {
        let (seen, mut first, _second) = Seen::open(Start::alone(), 0, 0);
        (Word::tracked(0, &mut first), Front { count: 0, seen })
    }

    /// How many events it has.
    pub fn count(&self) -> u64
        ensures { result ≡ length self.now.events }
    {
        self.count
    }

    /// A copy.
    pub fn again(&self) -> Front
        ensures { result ≡ self.now }
    {
        Front {
            count: self.count,
            seen: self.seen.again(),
        }
    }

    /// The longer of two fronts, which begins with the other; `other` where they are equal.
    pub fn longer(&self, other: &Front) -> Front
        requires feed { other.now.feed ≡ self.now.feed }
        ensures feed { result.feed ≡ self.now.feed }
        ensures this { IsPrefix self.now.events result.events }
        ensures that { IsPrefix other.now.events result.events }
        ensures other { length self.now.events ≤ length other.now.events → result ≡ other.now }
    {
        let mut both = self.seen.again();
        both.learn(&other.seen);
        if self.count <= other.count {
            other.again()
        } else {
            self.again()
        }
    }

    /// Adds an event, if this front is the whole list, and says whether it did. It did not if the list is longer.
    pub fn push(&mut self, head: &Head, event: &Event) -> bool
        requires head { head.now ≡ head_of self.old.feed }
        requires room { length self.old.events < u64.MAX }
        ensures { IsTrue result → self.new ≡ record self.old { events = self.old.events ++ event.now ∷ [] } }
    {
        let mut offer: Offer<Event, u64, Law, Nothing> = self
            .seen
            .plain::<Nothing, Event, Add>(event);
        let mut pen = self.seen.no_pen();
        let count = self.count;
        let found = head.compare_exchange::<Add, Nothing>(
            count,
            count + 1,
            &mut self.seen,
            &mut offer,
            &mut pen,
        );
        self.count = if found == count { count + 1 } else { found };
        found == count
    }
}

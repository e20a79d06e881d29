// The covers of the waits that events end, followed event by event over its own machine.
ghost use Rattle.std.specs.Prelude.{◌≡◌, ◌≤◌, ◌<◌, ◌^◌, [], IfOk, length};
ghost use Rattle.rset.specs.declared.TheConstants.{SEATS};
ghost use Rattle.rmodel.specs.Steps.{Comes};
ghost use Rattle.rcover.specs.Past.{Past, begun, state_of, with_event, AreLastEnded};
ghost use Rattle.rcover.specs.Knows.{Knows};

use crate::following::Following;
use rclaim::Event;
use rcover_laws::WaitEnd;
use rexpand::Groups;
use rmodel::Machine;
use rplain::Plain;
use std::alloc::{AllocError, Global};

/// The waits of a lock, followed event by event with a machine of its own. It keeps what the cover of each wait needs, and no
/// list of events. All room is made by `new`.
#[derive(Drop)]
pub struct Covers {
    machine: Plain,
    following: Following,
}

impl Covers {
    /// Covers with no event yet, over the resources of `groups`, for `seats` seats and at most `cap` incomplete requests.
    ///
    /// # Errors
    ///
    /// Out of memory.
    pub fn new(alloc: Global, groups: Groups, seats: u8, cap: u8) -> Result<Covers, AllocError>
        requires seats { (1 ≤ seats) × (seats ≤ SEATS) }
        requires cap { (1 ≤ cap) × (cap ≤ SEATS) }
        ensures { IfOk result (λ made. Knows made (begun groups seats cap)) }
    {
        Ok(Covers {
            machine: Plain::new(alloc, groups, seats, cap)?,
            following: Following::new(alloc)?,
        })
    }

    /// Takes an event, which comes after those given before. Takes no memory.
    pub fn told(&mut self, event: &Event)
        requires { (p : Past) × Knows self.old p × Comes (state_of p) event.now × (length p.events < 2 ^ 63) }
        ensures { (p : Past) → Knows self.old p → Comes (state_of p) event.now → Knows self.new (with_event p event.now) }
    {
        let _accepted = self.following.step(&mut self.machine, event);
    }

    /// The waits with at least one moment that the last event ended, by rising stamp, with the numbers of their covers.
    pub fn ended(&self) -> &[WaitEnd]
        ensures none { (p : Past) → Knows self.now p → p.events ≡ [] → result.now ≡ [] }
        ensures ended { (p : Past) → Knows self.now p → AreLastEnded p result.now }
    {
        self.following.ended()
    }
}

// A machine that reports its steps.
ghost use Rattle.std.specs.Prelude.{◌≡◌, Some, option_map};

use rclaim::{Changes, Event, Status};
use rexpand::Groups;
use rmodel::{Granted, Machine, Refused};
use rwatch::Audience;
use std::alloc::{AllocError, Global};
use std::marker::Model;

/// A machine and its watchers, if there are any, who are given each of its steps. Contracts see the lock state, the last
/// changes, and what the watchers have seen.
#[derive(Drop)]
pub struct Watching<M: Machine, A: Audience> {
    machine: M,
    audience: Option<A>,
}

impl<M: Machine, A: Audience> Model for Watching<M, A> {
    ghost use Rattle.std.specs.Prelude.{option_map};
    ghost use Rattle.rwatching.specs.Watching.{WatchedMachine, machine_code};

    ghost Value = { WatchedMachine };

    ghost coded = { machine_code };

    ghost view = { λ a. record { state = M.state a.machine; last = M.last a.machine; watched = option_map A.all a.audience } };
}

impl<M: Machine, A: Audience> Watching<M, A> {
    /// This machine, whose further steps are given to this audience.
    pub fn new_watched(machine: M, audience: A) -> Watching<M, A>
        ensures { result ≡ record { state = M.state machine; last = M.last machine; watched = Some (A.all audience) } }
    {
        Watching {
            machine,
            audience: Some(audience),
        }
    }

    /// The audience; None where there was none.
    pub fn into_audience(self) -> Option<A>
        ensures { option_map A.all result ≡ self.watched }
    {
        let Watching {
            machine: _,
            audience,
        } = self;
        audience
    }
}

impl<M: Machine, A: Audience> Machine for Watching<M, A> {
    ghost state = { λ m. m.state };

    ghost last = { λ m. m.last };

    ghost watched = { λ m. m.watched };

    fn new(
        alloc: Global,
        groups: Groups,
        seats: u8,
        cap: u8,
    ) -> Result<Watching<M, A>, AllocError> {
        let machine = M::new(alloc, groups, seats, cap)?;
        Ok(Watching {
            machine,
            audience: None,
        })
    }

    fn step(&mut self, event: Event) -> Result<(), Refused> {
        self.machine.step(event)?;
        if let Some(audience) = &mut self.audience {
            audience.tell(&event, self.machine.changes());
        }
        Ok(())
    }

    fn changes(&self) -> &Changes {
        self.machine.changes()
    }

    fn granted(&self, seat: u8) -> Granted {
        self.machine.granted(seat)
    }

    fn pending(&self, seat: u8) -> bool {
        self.machine.pending(seat)
    }

    fn idle(&self, seat: u8) -> bool {
        self.machine.idle(seat)
    }

    fn status(&self, seat: u8, write_half: bool) -> Option<Status> {
        self.machine.status(seat, write_half)
    }

    fn incomplete(&self) -> u8 {
        self.machine.incomplete()
    }

    fn issued(&self) -> u64 {
        self.machine.issued()
    }

    fn groups(&self) -> &Groups {
        self.machine.groups()
    }

    fn seats(&self) -> u8 {
        self.machine.seats()
    }

    fn cap(&self) -> u8 {
        self.machine.cap()
    }
}

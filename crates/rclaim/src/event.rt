// The events that a task causes.
ghost use Rattle.std.specs.Prelude.{◌≡◌};
ghost use Rattle.rclaim.specs.Events.{seat_of};

use crate::Request;
use rset::ResourceSet;

/// One step of the task at a seat.
#[derive(Clone, Copy, Debug)]
pub enum Event {
    /// The seat issues a request.
    Issue { seat: u8, request: Request },
    /// The seat's request is complete, and what it holds is given back.
    Finish { seat: u8 },
    /// The seat's upgrade is done with reading, and waits to write.
    Rise { seat: u8 },
    /// The seat's nested request asks for a further part.
    Ask { seat: u8, set: ResourceSet },
}

impl Event {
    /// The seat whose event it is.
    pub fn seat(&self) -> u8
        ensures { result ≡ seat_of self.now }
    {
        match self {
            Event::Issue { seat, .. } => *seat,
            Event::Finish { seat } => *seat,
            Event::Rise { seat } => *seat,
            Event::Ask { seat, .. } => *seat,
        }
    }
}

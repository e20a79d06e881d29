// What an event and its changes report of writes.
ghost use Rattle.std.specs.Prelude.{◌≡◌, ◌&&◌};
ghost use Rattle.rmodel.specs.Claims.{satisfied_by};
ghost use Rattle.rcover.specs.Lines.{is_finish};

use rclaim::{Event, Status, StatusChange};

/// Whether an event is a finish.
pub fn is_finish(event: &Event) -> bool
    ensures { result ≡ is_finish event.now }
{
    matches!(event, Event::Finish { .. })
}

/// Whether a change reports that a write became satisfied.
pub fn is_write_told(s: &StatusChange) -> bool
    ensures { result ≡ (s.now.write_half && satisfied_by s.now.status) }
{
    s.write_half && matches!(s.status, Status::Satisfied)
}

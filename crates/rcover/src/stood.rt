// Whether a wait was there before an event.
ghost use Rattle.std.specs.Prelude.{◌≡◌, not};
ghost use Rattle.rcover.specs.Begun.{rises_at};

use rclaim::Event;

/// Whether the wait of a seat was there before an event that is no issue: only that of the upgrade that rises begins with it.
pub fn has_stood(event: &Event, seat: u8) -> bool
    ensures { result ≡ not (rises_at event.now seat) }
{
    match event {
        Event::Rise { seat: other } => *other != seat,
        _ => true,
    }
}

// Notes of which seats have a claim that reads, and of what it reads.
ghost use Rattle.std.specs.Prelude.{if◌then◌else◌, ◌≡◌, ◌<◌, ℕ, length};
ghost use Rattle.std.specs.FinSet.{insert, remove};
ghost use Rattle.rset.specs.declared.TheConstants.{SEATS};
ghost use Rattle.rclaim.specs.Events.{seat_of};
ghost use Rattle.rcover.specs.Lines.{set_at};
ghost use Rattle.rcover.specs.Waiting.{has_read, wanted_by};

use rclaim::{Event, Kind, Request};
use rset::ResourceSet;

/// Whether a request of this kind has a claim that reads.
fn has_read(kind: Kind) -> bool
    ensures { result ≡ has_read kind }
{
    matches!(kind, Kind::Read | Kind::Upgrade)
}

/// Notes whether the request that a seat issues has a claim that reads.
pub(crate) fn note_reading(reading: &mut ResourceSet, seat: u8, request: &Request)
    requires { seat < SEATS }
    ensures { reading.new ≡ (if has_read request.now.kind then insert reading.old seat else remove reading.old seat) }
{
    *reading = if has_read(request.kind()) {
        reading.with(seat)
    } else {
        reading.without(seat)
    };
}

/// Notes what the request that a seat issues reads.
pub(crate) fn note_wanted(wanted: &mut [ResourceSet], event: &Event)
    requires { seat_of event.now < length wanted.old }
    ensures value { (seat : ℕ) → set_at wanted.new seat ≡ wanted_by wanted.old event.now seat }
    ensures len { length wanted.new ≡ length wanted.old }
{
    if let Event::Issue { seat, request } = event {
        wanted[*seat as usize] = request.reads();
    }
}

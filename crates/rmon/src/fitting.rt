//! Whether an event is one that a caller may ask for.
ghost use Rattle.std.specs.Prelude.{◌≡◌};
ghost use Rattle.rset.specs.Sets.{all_below};
ghost use Rattle.rmon.specs.Fitting.{fits};

use rclaim::Event;
use rmodel::{Machine, admit};
use rplain::Plain;
use rset::ResourceSet;

// Stamps are below this number.
const STAMPS: u64 = 1 << 63;

/// Whether each member of a set is below a number.
fn is_below(set: ResourceSet, q: u8) -> bool
    ensures { result ≡ all_below q set }
{
    for l in set.iter() {
        if l >= q {
            return false;
        }
    }
    true
}

/// Whether the event is one that a caller may ask for.
pub fn fits(machine: &Plain, event: &Event) -> bool
    ensures { result ≡ fits machine.now.state event.now }
{
    if event.seat() >= machine.seats() {
        return false;
    }
    let groups = machine.groups();
    match event {
        Event::Issue { request, .. } => {
            is_below(request.reads(), groups.q())
                && is_below(request.writes(), groups.q())
                && admit(groups, request).is_ok()
                && machine.issued() < STAMPS
        }
        Event::Finish { .. } | Event::Rise { .. } => true,
        Event::Ask { set, .. } => is_below(*set, groups.q()),
    }
}

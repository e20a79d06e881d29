// Whether something is due of the reads that wait.
ghost use Rattle.std.specs.Prelude.{◌≡◌, ◌⊎◌, ◌<◌, ℕ, true, false};
ghost use Rattle.std.specs.FinSet.{contains};
ghost use Rattle.rset.specs.Sets.{meets};
ghost use Rattle.rset.specs.declared.TheConstants.{SEATS};
ghost use Rattle.rclaim.specs.Events.{seat_of};
ghost use Rattle.rcover.specs.Lines.{set_at};
ghost use Rattle.rcover.specs.Begun.{rises_at};

use crate::lines::set_of;
use crate::stood::has_stood;
use rclaim::Event;
use rset::ResourceSet;

/// Whether one of these seats wants some of what came to be held, by what is noted of it.
fn some_wanted(wanted: &[ResourceSet], seats: ResourceSet, written: ResourceSet) -> bool
    ensures none { result ≡ false → (seat : ℕ) → contains seats seat ≡ true → meets (set_at wanted.now seat) written ≡ false }
    ensures some { result ≡ true → ((seat : ℕ) × (contains seats seat ≡ true) × (meets (set_at wanted.now seat) written ≡ true)) }
{
    if written.is_empty() {
        return false;
    }
    for seat in seats.iter() {
        if set_of(wanted, seat).meets(written) {
            return true;
        }
    }
    false
}

/// Whether nothing is due of any read that waits: no wait begins, and no waiting seat with a claim that reads wants some of what
/// came to be held.
pub(crate) fn reads_stay(
    event: &Event,
    written: ResourceSet,
    waiting: ResourceSet,
    reading: ResourceSet,
    wanted: &[ResourceSet],
) -> bool
    requires { seat_of event.now < SEATS }
    ensures calm { result ≡ true → rises_at event.now (seat_of event.now) ≡ false }
    ensures none { result ≡ true → (seat : ℕ) → contains reading seat ≡ true → contains waiting seat ≡ true → meets (set_at wanted.now seat) written ≡ false }
    ensures due { result ≡ false → (rises_at event.now (seat_of event.now) ≡ true) ⊎ ((seat : ℕ) × (contains reading seat ≡ true) × (contains waiting seat ≡ true) × (meets (set_at wanted.now seat) written ≡ true)) }
{
    !some_wanted(wanted, reading.meet(waiting), written) && has_stood(event, event.seat())
}

//! Whom to notify.
ghost use Rattle.std.specs.Prelude.{◌≡◌, ◌<◌, ◌==◌, ◌||◌, ℕ};
ghost use Rattle.std.specs.FinSet.{contains};
ghost use Rattle.rset.specs.declared.TheConstants.{SEATS};
ghost use Rattle.rpost.specs.Granted.{has_grant};

use rclaim::GrantChange;
use rset::{ResourceSet, SEATS};

/// The seats in the grants, as a set of numbers.
pub fn seats_granted(grants: &[GrantChange]) -> ResourceSet
    ensures { (seat : ℕ) → seat < SEATS → contains result seat ≡ has_grant grants.now seat }
{
    let mut seats = ResourceSet::empty();
    for g in grants {
        seats = with_seat(seats, g.seat);
    }
    seats
}

// The same seats and this one.
fn with_seat(seats: ResourceSet, seat: u8) -> ResourceSet
    ensures { (other : ℕ) → other < SEATS → contains result other ≡ ((other == seat) || contains seats other) }
{
    if seat < SEATS {
        seats.with(seat)
    } else {
        seats
    }
}

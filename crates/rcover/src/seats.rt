// The seats that changes are about.
ghost use Rattle.std.specs.Prelude.{◌≡◌, ◌<◌, ◌==◌, ◌&&◌, ◌||◌, true, ℕ};
ghost use Rattle.std.specs.FinSet.{contains};
ghost use Rattle.rset.specs.declared.TheConstants.{SEATS};
ghost use Rattle.rmodel.specs.Claims.{satisfied_by};
ghost use Rattle.rcover.specs.Lines.{tells_write_of};
ghost use Rattle.rcover.specs.Quiet.{has_grant};

use crate::writes_told::is_write_told;
use rclaim::{GrantChange, StatusChange};
use rset::{ResourceSet, SEATS};

/// The same seats, with this one if it `comes`.
fn with_seat_if(seats: ResourceSet, comes: bool, seat: u8) -> ResourceSet
    ensures { (other : ℕ) → other < SEATS → contains result other ≡ ((seat == other && comes) || contains seats other) }
{
    if comes && seat < SEATS {
        seats.with(seat)
    } else {
        seats
    }
}

/// The same seats, with that of a change if it reports that a write became satisfied.
fn with_told(seats: ResourceSet, s: &StatusChange) -> ResourceSet
    ensures { (other : ℕ) → other < SEATS → contains result other ≡ ((s.now.seat == other && (s.now.write_half && satisfied_by s.now.status)) || contains seats other) }
{
    with_seat_if(seats, is_write_told(s), s.seat)
}

/// The seats of the writes that these changes report to have become satisfied, and no others.
pub fn seats_told(statuses: &[StatusChange]) -> ResourceSet
    ensures { (seat : ℕ) → seat < SEATS → contains result seat ≡ tells_write_of statuses.now seat }
{
    let mut seats = ResourceSet::empty();
    for s in statuses {
        seats = with_told(seats, s);
    }
    seats
}

/// The seats to which something is granted.
fn seats_granted(grants: &[GrantChange]) -> ResourceSet
    ensures { (seat : ℕ) → seat < SEATS → contains result seat ≡ has_grant grants.now seat }
{
    let mut seats = ResourceSet::empty();
    for g in grants {
        seats = with_seat_if(seats, true, g.seat);
    }
    seats
}

/// The seat of an event, and those to which something is granted.
pub(crate) fn busy_seats(seat: u8, grants: &[GrantChange]) -> ResourceSet
    ensures { (other : ℕ) → other < SEATS → contains result other ≡ ((seat == other) || has_grant grants.now other) }
{
    with_seat_if(seats_granted(grants), true, seat)
}

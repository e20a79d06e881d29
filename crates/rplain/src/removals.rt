// Removes claims from a list, and copies lists.
ghost use Rattle.std.specs.Prelude.{◌≡◌, ◌==◌, ◌≤◌, ◌&&◌, not, length, vec_capacity, vec_len, filter};

use rmodel::Claimed;

/// Removes the read half of the seat's upgrade.
pub(crate) fn remove_read_half(claims: &mut Vec<Claimed>, seat: u8)
    ensures items { claims.new.items ≡ filter (λ x. not ((x.claim.seat == seat) && not x.claim.write_half)) claims.old.items }
    ensures capacity { vec_capacity claims.new ≡ vec_capacity claims.old }
{
    claims.retain(|x| !(x.claim.seat == seat && !x.claim.write_half));
}

/// Removes the claims of the seat.
pub(crate) fn remove_seat(claims: &mut Vec<Claimed>, seat: u8)
    ensures items { claims.new.items ≡ filter (λ x. not (x.claim.seat == seat)) claims.old.items }
    ensures capacity { vec_capacity claims.new ≡ vec_capacity claims.old }
{
    claims.retain(|x| x.claim.seat != seat);
}

/// Makes `to` a copy of the claims, in the room that it has. The room stays. `to` is first made equally long and then
/// copied as a whole, because the length hardly differs from copy to copy.
pub(crate) fn copy_into(to: &mut Vec<Claimed>, claims: &[Claimed])
    requires { length claims.now ≤ vec_capacity to.old }
    ensures items { to.new.items ≡ claims.now }
    ensures capacity { vec_capacity to.new ≡ vec_capacity to.old }
{
    to.truncate(claims.len());
    for i in to.len()..claims.len() {
        to.push_reserved(claims[i]);
    }
    to.copy_from_slice(claims);
}

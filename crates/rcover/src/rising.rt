// Whether a claim waits to rise.
ghost use Rattle.std.specs.Prelude.{◌≡◌, ◌&&◌, not};
ghost use Rattle.rmodel.specs.Claims.{is_satisfied};

use rmodel::Claimed;

/// Whether a claim waits to rise: the upgrade of its seat `rose`, and the claim is not satisfied.
pub fn still_rises(rose: bool, x: &Claimed) -> bool
    ensures { result ≡ (rose && not (is_satisfied x.now)) }
{
    rose && !x.is_satisfied()
}

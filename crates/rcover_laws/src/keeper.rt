// The write that keeps a read waiting.
ghost use Rattle.std.specs.Prelude.{◌≡◌, ◌∷◌, []};
ghost use Rattle.rcover_laws.specs.Sections.{keeper_of};

use crate::claims::keeps_out;
use rclaim::Claim;
use rmodel::Claimed;

/// The write that keeps a read claim waiting at a moment.
pub fn keeper_at(c: &Claim, moment: &[Claimed]) -> Option<Claim>
    ensures { result ≡ keeper_of c.now (moment.now ∷ []) }
{
    moment.iter().find(|x| keeps_out(c, x)).map(|x| x.claim)
}

// The claim that is satisfied at all of some moments.
ghost use Rattle.std.specs.Prelude.{◌≡◌, ◌∷◌};
ghost use Rattle.std.specs.List.{list_all};
ghost use Rattle.rcover_plain.specs.Lists.{moments_in};
ghost use Rattle.rcover_laws.specs.Lists.{is_wanted};
ghost use Rattle.rcover_laws.specs.Moments.{holds_at};
ghost use Rattle.rcover_laws.specs.Sections.{holder_of};

use rclaim::Claim;
use rcover_laws::{Wanted, holds_at, is_wanted};
use rmodel::Claimed;

/// Whether a claim is satisfied in all of these lists.
fn holds_in_all(c: &Claim, moments: &[Vec<Claimed>]) -> bool
    ensures { result ≡ list_all (λ m. holds_at c.now m.items) moments.now }
{
    moments.iter().all(|m| holds_at(c, m))
}

/// Whether a claim is satisfied at all of these moments.
fn holds_at_all(c: &Claim, moments: &[Vec<Claimed>]) -> bool
    ensures { result ≡ list_all (holds_at c.now) (moments_in moments.now) }
{
    holds_in_all(c, moments)
}

/// The claim of least stamp that is wanted at a moment, and is satisfied there and at all of the later ones.
fn holder_from(wanted: &Wanted, moment: &[Claimed], later: &[Vec<Claimed>]) -> Option<Claim>
    ensures { result ≡ holder_of (is_wanted wanted.now) (moment.now ∷ moments_in later.now) }
{
    moment
        .iter()
        .find(|x| {
            is_wanted(wanted, &x.claim) && x.is_satisfied() && holds_at_all(&x.claim, later)
        })
        .map(|x| x.claim)
}

/// The claim of least stamp that is wanted and is satisfied at all of these moments.
pub(crate) fn holder_of(wanted: &Wanted, moments: &[Vec<Claimed>]) -> Option<Claim>
    ensures { result ≡ holder_of (is_wanted wanted.now) (moments_in moments.now) }
{
    match moments.split_first() {
        Some((moment, later)) => holder_from(wanted, moment, later),
        None => None,
    }
}

// Questions about claims at a moment.
ghost use Rattle.std.specs.Prelude.{◌≡◌};
ghost use Rattle.rmodel.specs.Claims.{touches, conflicts};
ghost use Rattle.rmodel.specs.Laws.{keeps_out};
ghost use Rattle.rmodel.specs.Rules.{is_earlier_write};
ghost use Rattle.rcover_laws.specs.Moments.{is_claim, holds_at};
ghost use Rattle.rcover_laws.specs.Lists.{reads_against};

use rclaim::Claim;
use rmodel::Claimed;
use rset::ResourceSet;

/// Whether two claims are the same: the same stamp, and both read claims or both write claims.
pub fn is_claim(c: &Claim, d: &Claim) -> bool
    ensures { result ≡ is_claim c.now d.now }
{
    c.stamp == d.stamp && c.write_half == d.write_half
}

/// Whether a claim is satisfied at a moment.
pub fn holds_at(c: &Claim, moment: &[Claimed]) -> bool
    ensures { result ≡ holds_at c.now moment.now }
{
    moment
        .iter()
        .any(|x| x.is_satisfied() && is_claim(c, &x.claim))
}

/// Whether a claim reads or writes one of these resources.
fn touches(c: &Claim, resources: ResourceSet) -> bool
    ensures { result ≡ touches c.now resources }
{
    c.reads.meets(resources) || c.writes.meets(resources)
}

/// Whether two claims conflict.
pub(crate) fn conflicts(c: &Claim, d: &Claim) -> bool
    ensures { result ≡ conflicts c.now d.now }
{
    touches(d, c.writes) || touches(c, d.writes)
}

/// Whether a read claim conflicts with another claim.
pub(crate) fn reads_against(c: &Claim, d: &Claim) -> bool
    ensures { result ≡ reads_against c.now d.now }
{
    !d.write_half && conflicts(d, c)
}

/// Whether a claim at a moment is an entitled or satisfied write that conflicts with another.
pub fn keeps_out(c: &Claim, x: &Claimed) -> bool
    ensures { result ≡ keeps_out c.now x.now }
{
    x.claim.write_half && x.is_active() && conflicts(&x.claim, c)
}

// Which claim is looked for as a section of a cover.
ghost use Rattle.std.specs.Prelude.{◌≡◌};
ghost use Rattle.rcover_laws.specs.Lists.{is_wanted};

use crate::claims::{conflicts, reads_against};
use rclaim::Claim;
use rmodel::conflicts_on;
use rset::ResourceSet;

/// Which claim is looked for.
#[derive(Clone, Copy)]
pub enum Wanted {
    /// A claim that conflicts with this claim.
    Against(Claim),
    /// A read claim that does.
    ReadAgainst(Claim),
    /// A claim that conflicts with this claim on a part of what it reads and writes.
    OnPart(Claim, ResourceSet),
}

/// Whether a claim is wanted.
pub fn is_wanted(wanted: &Wanted, d: &Claim) -> bool
    ensures { result ≡ is_wanted wanted.now d.now }
{
    match wanted {
        Wanted::Against(v) => conflicts(d, v),
        Wanted::ReadAgainst(v) => reads_against(v, d),
        Wanted::OnPart(c, part) => conflicts_on(d, c, *part),
    }
}

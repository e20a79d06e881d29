// The zone of some places, found without memory.
ghost use Rattle.std.specs.Prelude.{◌≡◌};
ghost use Rattle.rbound.specs.Zones.{zone_of};
ghost use Rattle.rbound.specs.Sweeps.{swept};

use crate::Needed;
use rset::ResourceSet;

/// The places, with those of each claim that shares one of them or one of the claims taken before it.
#[tactic(auto, unfolding(crate::specs::Sweeps::swept))]
fn swept(needs: &[Needed], zone: ResourceSet) -> ResourceSet
    ensures { result ≡ swept needs.now zone }
{
    needs.iter().fold(zone, |all, n| {
        if n.claim.places.meets(all) {
            all.union(n.claim.places)
        } else {
            all
        }
    })
}

/// The zone of some places among these needs. Each sweep but the last takes at least one claim.
pub(crate) fn zone_among(needs: &[Needed], places: ResourceSet) -> ResourceSet
    ensures { result ≡ zone_of needs.now places }
{
    let mut zone = places;
    let mut next = swept(needs, zone);
    while !next.within(zone) {
        zone = next;
        next = swept(needs, zone);
    }
    zone
}

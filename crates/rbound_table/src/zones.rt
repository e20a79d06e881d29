// The zones of all places.
ghost use Rattle.std.specs.Prelude.{◌≡◌, ◌<◌, IfOk, map};
ghost use Rattle.std.specs.List.{range_with_len};
ghost use Rattle.rset.specs.declared.TheConstants.{RESOURCES};
ghost use Rattle.rbound.specs.TaskNeeds.{needed_in};
ghost use Rattle.rbound_table.specs.PlaceZones.{zone_at, places_in};

use rbound::{Needed, Needs, zone_of};
use rset::{RESOURCES, ResourceSet};
use std::alloc::{AllocError, Global};

/// The places of all claims.
fn places_in(needs: &[Needed]) -> ResourceSet
    ensures { result ≡ places_in needs.now }
{
    needs
        .iter()
        .fold(ResourceSet::empty(), |all, n| all.union(n.claim.places))
}

/// The zone of a place: the place alone where no claim has it, or the zone of an earlier place that has this one. Only
/// otherwise all claims are looked through.
fn zone_at(zones: &[ResourceSet], needs: &Needs, places: ResourceSet, l: u8) -> ResourceSet
    requires within { l < RESOURCES }
    requires places { places ≡ places_in (needed_in needs.now) }
    requires zones { zones.now ≡ map (zone_at (needed_in needs.now)) (range_with_len 0 l) }
    ensures { result ≡ zone_at (needed_in needs.now) l }
{
    if !places.has(l) {
        return ResourceSet::one(l);
    }
    for zone in zones {
        if zone.has(l) {
            return *zone;
        }
    }
    zone_of(needs, ResourceSet::one(l))
}

/// The zones of all places by number.
pub(crate) fn zones_of(alloc: Global, needs: &Needs) -> Result<Vec<ResourceSet>, AllocError>
    ensures { IfOk result (λ zones. zones.items ≡ map (zone_at (needed_in needs.now)) (range_with_len 0 RESOURCES)) }
{
    let places = places_in(needs.claims());
    let mut zones = Vec::new(alloc);
    for l in 0..RESOURCES {
        let zone = zone_at(&zones, needs, places, l as u8);
        zones.push(zone)?;
    }
    Ok(zones)
}

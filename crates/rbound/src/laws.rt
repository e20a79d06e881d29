//! What holds of zones. Each function is a theorem: it does nothing, and its contract is the law.
ghost use Rattle.rbound.specs.Zones.{ZonesAreClosed};

/// *Zones are closed*: the zone of some places has them all, and any claim that is needed and has a place in the zone has all
/// its places there. It is the least such set: every other such set contains the zone.
pub fn zones_are_closed()
    ensures { ZonesAreClosed }
{}

// The requests of a drill, and the lock that it begins with.
ghost use Rattle.std.specs.Prelude.{◌≡◌, ◌≢◌, ◌<◌, ◌≤◌, true, ◌++◌, ◌∷◌, [], IfOk, OnOk};
ghost use Rattle.std.specs.FinSet.{empty};
ghost use Rattle.rclaim.specs.Requests.{asked_set, first_fits, normalised};
ghost use Rattle.rdrill.specs.Draws.{drill_resources, drill_pairs, one, pair, kind_drawn, request_for, drill_groups};

use rclaim::{Kind, Request};
use rexpand::{GroupErr, Groups};
use rset::ResourceSet;
use std::alloc::{AllocError, Global};

/// The number of resources of a drill.
const DRILL_RESOURCES: u8 = 8;

/// How many resources have a next resource.
pub const DRILL_PAIRS: u8 = DRILL_RESOURCES - 1;

/// The kind of request that a draw from five gives.
pub fn kind_drawn(n: u32) -> Kind
    ensures { result ≡ kind_drawn n }
{
    match n {
        0 => Kind::Read,
        1 => Kind::Write,
        2 => Kind::Mixed,
        3 => Kind::Upgrade,
        _ => Kind::Nested,
    }
}

/// The request of this kind about a resource and the next one.
pub fn request_for(kind: Kind, l: u8) -> Request
    requires { l < drill_pairs }
    ensures { result ≡ request_for kind l }
{
    let none = ResourceSet::empty();
    let one = ResourceSet::one(l);
    let pair = one.with(l + 1);
    match kind {
        Kind::Read => made(Kind::Read, pair, none, none, 0),
        Kind::Write => made(Kind::Write, none, one, none, 0),
        Kind::Mixed => made(Kind::Mixed, ResourceSet::one(l + 1), one, none, 0),
        Kind::Upgrade => made(Kind::Upgrade, pair, none, none, 1),
        Kind::Nested => made(Kind::Nested, none, pair, one, 0),
    }
}

// The request with these sets and sections of length 1.
fn made(
    kind: Kind,
    reads: ResourceSet,
    writes: ResourceSet,
    first: ResourceSet,
    later: u32,
) -> Request
    requires some { asked_set kind reads writes ≢ empty }
    requires first { first_fits kind reads writes first ≡ true }
    requires later { later ≤ 1 }
    ensures { result ≡ normalised kind reads writes first 1 later }
{
    Request::new(kind, reads, writes, first, 1, later).unwrap()
}

/// The resources of a drill; each shares a group with the next.
///
/// # Errors
///
/// Out of memory.
pub fn drill_groups(alloc: Global) -> Result<Groups, AllocError>
    ensures { IfOk result (λ groups. groups ≡ drill_groups) }
{
    let mut groups = Groups::new(alloc, DRILL_RESOURCES)?;
    for l in 0u8..DRILL_PAIRS {
        declare_pair(&mut groups, l)?;
    }
    Ok(groups)
}

// Declares a resource and the next one as a group.
fn declare_pair(groups: &mut Groups, l: u8) -> Result<(), AllocError>
    requires { (l < drill_pairs) × (groups.old.q ≡ drill_resources) }
    ensures { OnOk result (groups.new ≡ record groups.old { groups = groups.old.groups ++ pair l ∷ [] }) }
{
    match groups.declare(ResourceSet::one(l).with(l + 1)) {
        Ok(()) => Ok(()),
        Err(GroupErr::EmptyGroup | GroupErr::TooMany | GroupErr::Memory) => Err(AllocError),
    }
}

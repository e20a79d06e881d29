// Which groups contain each resource, kept as sets of group numbers.
//
// The group number `n` is the member `n % RESOURCES` of the block `n / RESOURCES`. Each resource has `BLOCKS` sets side
// by side, one for each block.
ghost use Rattle.std.specs.Prelude.{◌≡◌, ◌<◌, ◌+◌, ◌*◌, ◌/◌, ◌%◌, ◌≤◌, IfOk, IsTrue, List, fold, length, replicate, slice_index_or};
ghost use Rattle.std.specs.FinSet.{empty, insert, contains};
ghost use Rattle.rset.specs.Sets.{Set, all_below, rising};
ghost use Rattle.rexpand.specs.Groups.{is_inside};
ghost use Rattle.rexpand.specs.Kept.{IsNoted, place_in, widen, narrow};

use crate::{BLOCKS, GROUPS};
use rset::{RESOURCES, ResourceSet};
use std::alloc::{AllocError, Global};

// No group is declared yet, so no group contains any of `q` resources.
pub(crate) fn unnoted(alloc: Global, q: u8) -> Result<Vec<ResourceSet>, AllocError>
    ensures { IfOk result (λ noted. noted.items ≡ replicate (q * BLOCKS) empty) }
{
    vec![in alloc; ResourceSet::empty(); usize::from(q) * BLOCKS]
}

// Adds the number of a group to the entry of each of its members.
pub(crate) fn note(noted: &mut [ResourceSet], number: usize, group: ResourceSet)
    requires few { number < GROUPS }
    requires within { IsTrue (all_below (length noted.old / BLOCKS) group) }
    ensures { noted.new
        ≡ fold (widen (place_in (number / RESOURCES)) (insert empty (number % RESOURCES))) noted.old (rising group) }
{
    let block = number / usize::from(RESOURCES);
    let one = ResourceSet::one((number % usize::from(RESOURCES)) as u8);
    for l in group.iter() {
        let place = usize::from(l) * BLOCKS + block;
        noted[place] = noted[place].union(one);
    }
}

// Whether the set, of which `l` is a member, lies inside one group: whether some group contains each of its members.
pub(crate) fn is_inside(noted: &[ResourceSet], set: ResourceSet, l: u8) -> bool
    requires within { IsTrue (all_below (length noted.now / BLOCKS) set) }
    requires member { IsTrue (contains set l) }
    ensures { (groups : List Set) → length groups ≤ GROUPS → IsNoted (length noted.now / BLOCKS) groups noted.now
        → result ≡ is_inside groups set }
{
    for block in 0..BLOCKS {
        if around(noted, block, set, l).first().is_some() {
            return true;
        }
    }
    false
}

// The groups of the block that contain each member of the set; `l` is a member.
fn around(noted: &[ResourceSet], block: usize, set: ResourceSet, l: u8) -> ResourceSet
    requires block { block < BLOCKS }
    requires within { IsTrue (all_below (length noted.now / BLOCKS) set) }
    requires member { l < length noted.now / BLOCKS }
    ensures value { result
        ≡ fold (narrow noted.now block) (slice_index_or noted.now (place_in block l) empty) (rising set) }
    ensures within { IsTrue (all_below RESOURCES set) }
{
    let mut groups = noted[usize::from(l) * BLOCKS + block];
    for m in set.iter() {
        groups = groups.meet(noted[usize::from(m) * BLOCKS + block]);
    }
    groups
}

// Tests of `rexpand`.
ghost use Rattle.std.specs.Prelude.{◌≡◌, IfOk};

use rexpand::{GROUPS, GroupErr, Groups};
use rset::{RESOURCES, ResourceSet};
use std::alloc::Global;
use std::test::Fail;

/// Groups where resources 0 and 1 are declared together, and so are 1 and 2.
pub fn two_groups(alloc: Global) -> Result<Groups, Fail>
    ensures { IfOk result (λ groups. groups.q ≡ RESOURCES) }
{
    let mut groups = Groups::new(alloc, RESOURCES as u8)?;
    declare(&mut groups, ResourceSet::one(0).with(1))?;
    declare(&mut groups, ResourceSet::one(1).with(2))?;
    Ok(groups)
}

// Groups are declared until there are as many as there may be.
fn is_filled(groups: &mut Groups, pair: ResourceSet) -> Result<bool, GroupErr>
    requires { groups.old.q ≡ RESOURCES }
{
    for _ in 0..GROUPS {
        declare(groups, pair)?;
    }
    Ok(declare(groups, pair) == Err(GroupErr::TooMany))
}

// A copy of full groups has them too.
fn is_filled_and_copied(alloc: Global) -> Result<bool, Fail> {
    let pair = ResourceSet::one(0).with(63);
    let mut groups = Groups::new(alloc, RESOURCES as u8)?;
    let filled = is_filled(&mut groups, pair)?;
    let copy = groups.copy(alloc)?;
    Ok(filled && copy.len() == GROUPS && copy.declared(pair))
}

// If the groups are over all resources, any set may be a group.
fn declare(groups: &mut Groups, set: ResourceSet) -> Result<(), GroupErr>
    requires { groups.old.q ≡ RESOURCES }
    ensures { groups.new.q ≡ RESOURCES }
{
    let _members = set.len();
    groups.declare(set)
}

#[test]
fn groups_have_memory(rt: HostRuntime) -> Result<(), Fail> {
    assert!(rt; is_filled_and_copied(rt.alloc())?);
    Ok(())
}

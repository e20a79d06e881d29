// Tests of `rbound`: bounds that were worked out by hand.
ghost use Rattle.std.specs.Prelude.{◌≡◌, ◌≤◌, ◌<◌, length};

use crate::groups::two_groups;
use rbound::{Bound, Needs, Which, bound_of};
use rclaim::{Kind, Request};
use rexpand::Groups;
use rset::{RESOURCES, ResourceSet};
use std::alloc::Global;
use std::test::Fail;

// Adds a request about this set after the others of a task.
fn push(
    needs: &mut Needs,
    task: u8,
    kind: Kind,
    set: ResourceSet,
    len: u32,
    later: u32,
) -> Result<(), Fail>
    requires q { needs.old.groups.q ≡ RESOURCES }
    requires task { task < length needs.old.tasks }
    requires len { len ≤ 9 }
    requires later { later ≤ 9 }
    ensures q { needs.new.groups.q ≡ RESOURCES }
    ensures tasks { length needs.new.tasks ≡ length needs.old.tasks }
{
    let request = Request::new(kind, set, set, set, len, later)?;
    let _ = (request.reads().len(), request.writes().len());
    needs.push(task, request)?;
    Ok(())
}

// Whether this is the bound of a wait of the first request of a task.
fn is_bound(
    alloc: Global,
    needs: &Needs,
    cap: u8,
    task: u8,
    which: Which,
    numbers: (u64, u64, u64),
) -> Result<bool, Fail>
    requires task { task < length needs.now.tasks }
    requires cap { 1 ≤ cap }
{
    if needs.len(task) == 0 {
        return Err(Fail::from("the task has no request"));
    }
    let (reads, writes, units) = numbers;
    let found = bound_of(alloc, needs, cap, task, 0, which)?;
    Ok(
        found
            == Bound {
                reads,
                writes,
                units,
            },
    )
}

// One task reads two resources of one group, and two others write one of them each.
fn need_a_reader(needs: &mut Needs) -> Result<(), Fail>
    requires q { needs.old.groups.q ≡ RESOURCES }
    requires tasks { length needs.old.tasks ≡ 3 }
    ensures { length needs.new.tasks ≡ 3 }
{
    let (a, b) = (ResourceSet::one(0), ResourceSet::one(1));
    push(needs, 0, Kind::Read, a.union(b), 3, 0)?;
    push(needs, 1, Kind::Write, a, 2, 0)?;
    push(needs, 2, Kind::Write, b, 5, 0)
}

// Their bounds.
fn are_bounds_of_a_reader(alloc: Global, needs: &Needs) -> Result<bool, Fail>
    requires { length needs.now.tasks ≡ 3 }
{
    Ok(
        is_bound(alloc, needs, 3, 0, Which::First, (0, 1, 5))?
            && is_bound(alloc, needs, 3, 1, Which::First, (2, 1, 11))?
            && is_bound(alloc, needs, 3, 2, Which::First, (2, 1, 8))?,
    )
}

fn bounds_a_reader(alloc: Global) -> Result<bool, Fail> {
    let mut needs = Needs::new(alloc, two_groups(alloc)?, 3)?;
    need_a_reader(&mut needs)?;
    are_bounds_of_a_reader(alloc, &needs)
}

// Three tasks write a resource, and a fourth may rise to write it.
fn need_an_upgrade(needs: &mut Needs) -> Result<(), Fail>
    requires q { needs.old.groups.q ≡ RESOURCES }
    requires tasks { length needs.old.tasks ≡ 4 }
    ensures { length needs.new.tasks ≡ 4 }
{
    let a = ResourceSet::one(0);
    push(needs, 3, Kind::Upgrade, a, 1, 3)?;
    push(needs, 0, Kind::Write, a, 2, 0)?;
    push(needs, 1, Kind::Write, a, 2, 0)?;
    push(needs, 2, Kind::Write, a, 2, 0)
}

// Their bounds.
fn are_bounds_of_an_upgrade(alloc: Global, needs: &Needs) -> Result<bool, Fail>
    requires { length needs.now.tasks ≡ 4 }
{
    Ok(
        is_bound(alloc, needs, 4, 0, Which::First, (4, 3, 11))?
            && is_bound(alloc, needs, 4, 3, Which::First, (0, 1, 2))?
            && is_bound(alloc, needs, 4, 3, Which::Rise, (0, 3, 6))?,
    )
}

fn bounds_an_upgrade(alloc: Global) -> Result<bool, Fail> {
    let groups = Groups::new(alloc, RESOURCES as u8)?;
    let mut needs = Needs::new(alloc, groups, 4)?;
    need_an_upgrade(&mut needs)?;
    are_bounds_of_an_upgrade(alloc, &needs)
}

#[test]
fn bounds_are_as_worked(rt: HostRuntime) -> Result<(), Fail> {
    assert!(rt; bounds_a_reader(rt.alloc())? && bounds_an_upgrade(rt.alloc())?);
    Ok(())
}

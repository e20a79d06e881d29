// Tests of `rclaim`.
ghost use Rattle.std.specs.Prelude.{◌≡◌, IfOk};

use rclaim::{Changes, Claim, Event, GrantChange, Kind, Status, StatusChange};
use rset::ResourceSet;
use std::alloc::{AllocError, Global};
use std::test::Fail;

// A clone is the value; proved here for each type whose clone is derived.
fn clone_of_event(event: &Event) -> Result<Event, AllocError>
    ensures { IfOk result (λ copy. copy ≡ event.now) }
{
    event.clone()
}

fn clone_of_claim(claim: &Claim) -> Result<Claim, AllocError>
    ensures { IfOk result (λ copy. copy ≡ claim.now) }
{
    claim.clone()
}

fn clone_of_status_change(change: &StatusChange) -> Result<StatusChange, AllocError>
    ensures { IfOk result (λ copy. copy ≡ change.now) }
{
    change.clone()
}

fn clone_of_grant_change(change: &GrantChange) -> Result<GrantChange, AllocError>
    ensures { IfOk result (λ copy. copy ≡ change.now) }
{
    change.clone()
}

// Changes have room from the start.
fn has_room(alloc: Global) -> Result<bool, AllocError> {
    let mut changes = Changes::new(alloc)?;
    changes.push_status(StatusChange {
        seat: 2,
        write_half: true,
        status: Status::Entitled,
    });
    changes.push_grant(GrantChange {
        seat: 1,
        reads: ResourceSet::one(3),
        writes: ResourceSet::empty(),
    });
    are_cloned(&changes.statuses[0], &changes.grants[0])
}

// The changes in it are cloned.
fn are_cloned(status: &StatusChange, grant: &GrantChange) -> Result<bool, AllocError> {
    let status = clone_of_status_change(status)?;
    let grant = clone_of_grant_change(grant)?;
    Ok(status.seat == 2 && grant.seat == 1)
}

// A claim and an event are cloned.
fn is_cloned() -> Result<bool, AllocError> {
    let set = ResourceSet::one(3);
    let claim = clone_of_claim(&Claim {
        stamp: 7,
        seat: 2,
        kind: Kind::Read,
        write_half: false,
        reads: set,
        writes: ResourceSet::empty(),
        places: set,
    })?;
    let event = clone_of_event(&Event::Finish { seat: 3 })?;
    Ok(claim.stamp == 7 && event.seat() == 3)
}

#[test]
fn changes_have_memory(rt: HostRuntime) -> Result<(), Fail> {
    assert!(rt; has_room(rt.alloc())? && is_cloned()?);
    Ok(())
}

// Tests of `rmodel`.
ghost use Rattle.std.specs.Prelude.{◌≡◌};

use rclaim::{Event, Kind, Request, Status};
use rexpand::Groups;
use rmodel::{Machine, Refused, admit};
use rplain::Plain;
use rset::{RESOURCES, ResourceSet};
use std::alloc::Global;
use std::test::Fail;

// Issues a request about these resources, after all conditions of a step are tested.
fn issue<M: Machine>(
    machine: &mut M,
    seat: u8,
    kind: Kind,
    reads: ResourceSet,
    writes: ResourceSet,
) -> Result<(), Fail>
    requires { (M.state machine.old).groups.q ≡ RESOURCES }
    ensures { (M.state machine.new).groups.q ≡ RESOURCES }
{
    let request = Request::new(kind, reads, writes, writes, 1, 0)?;
    admit(machine.groups(), &request)?;
    let _ = (request.reads().len(), request.writes().len());
    if seat >= machine.seats() || machine.issued() >= 1 << 63 {
        return Err(Fail::from("the seat or the stamp is out of range"));
    }
    machine.step(Event::Issue { seat, request })?;
    Ok(())
}

// Finishes the request of a seat, after a test that the seat exists.
fn finish<M: Machine>(machine: &mut M, seat: u8) -> Result<(), Fail>
    requires { (M.state machine.old).groups.q ≡ RESOURCES }
    ensures { (M.state machine.new).groups.q ≡ RESOURCES }
{
    if seat >= machine.seats() {
        return Err(Fail::from("the seat is out of range"));
    }
    machine.step(Event::Finish { seat })?;
    Ok(())
}

// A read and a write wait for a write, and its finish lets both in.
fn lets_both_in(alloc: Global) -> Result<bool, Fail> {
    let (a, b) = (ResourceSet::one(0), ResourceSet::one(1));
    let groups = Groups::new(alloc, RESOURCES as u8)?;
    let mut plain = Plain::new(alloc, groups, 3, 3)?;
    issue(&mut plain, 0, Kind::Write, a, a.union(b))?;
    issue(&mut plain, 1, Kind::Read, a, a)?;
    issue(&mut plain, 2, Kind::Write, b, b)?;
    let read = plain.status(1, false) == Some(Status::Entitled);
    let write = plain.status(2, true) == Some(Status::Waiting);
    finish(&mut plain, 0)?;
    let changes = plain.changes();
    Ok(read && write && changes.statuses.len() == 2 && changes.grants.len() == 2)
}

// An upgrade rises, and a nested request asks for a part that another holds.
fn rises_and_asks(alloc: Global) -> Result<bool, Fail> {
    let (a, b) = (ResourceSet::one(0), ResourceSet::one(1));
    let groups = Groups::new(alloc, RESOURCES as u8)?;
    let mut plain = Plain::new(alloc, groups, 2, 2)?;
    issue(&mut plain, 0, Kind::Upgrade, a, a)?;
    if plain.seats() == 0 {
        return Ok(false);
    }
    plain.step(Event::Rise { seat: 0 })?;
    let risen = plain.granted(0).writes.len() == 1;
    finish(&mut plain, 0)?;
    issue(&mut plain, 0, Kind::Read, a, a)?;
    issue(&mut plain, 1, Kind::Nested, b, a.union(b))?;
    let waits = plain.status(1, true) == Some(Status::Entitled);
    finish(&mut plain, 0)?;
    Ok(risen && waits && plain.status(1, true) == Some(Status::Satisfied))
}

#[test]
fn machines_have_memory(rt: HostRuntime) -> Result<(), Fail> {
    assert!(rt; lets_both_in(rt.alloc())? && rises_and_asks(rt.alloc())?);
    Ok(())
}

#[test]
fn refusals_have_the_numbers_that_users_are_told(rt: HostRuntime) {
    let first = Refused::SeatBusy as u8 == 1 && Refused::Full as u8 == 2;
    let second = Refused::NotHolding as u8 == 3 && Refused::NotUpgradeable as u8 == 4;
    let third = Refused::NotNested as u8 == 5 && Refused::AskOutside as u8 == 6;
    assert!(rt; first && second && third);
}

// A monitor shows what its feed published.
ghost use Rattle.std.specs.Prelude.{◌≡◌, Some, IfOk, OnOk};
ghost use Rattle.rset.specs.declared.TheConstants.{RESOURCES};
ghost use Rattle.rmodel.specs.Steps.{Fits};
ghost use Rattle.tests_on_threads.specs.Beside.{IsBeside, IsMonitorOf};

use rclaim::{Event, Kind, Request};
use rexpand::Groups;
use rmodel::{Machine, admit};
use rmon::{Feed, Look, Monitor, Note};
use rplain::Plain;
use rset::{RESOURCES, ResourceSet};
use std::alloc::Global;
use std::sync::Wait;
use std::test::Fail;

// Publishes an event that the machine beside the feed takes.
fn publish<R: Wait>(
    rt: &R,
    machine: &mut Plain,
    feed: &mut Feed,
    event: &Event,
) -> Result<Note, Fail>
    requires fits { Fits machine.old.state event.now }
    requires beside { IsBeside machine.old.state feed.old }
    ensures beside { OnOk result (IsBeside machine.new.state feed.new) }
    ensures feed { OnOk result (feed.new.feed ≡ feed.old.feed) }
    ensures note { IfOk result (λ note. note.feed ≡ feed.old.feed) }
{
    machine.step(*event)?;
    let events = [*event];
    let note = feed.pump(rt, &events)?;
    Ok(note)
}

// Publishes that a request is issued, once all conditions of a step are tested.
fn issue<R: Wait>(
    rt: &R,
    machine: &mut Plain,
    feed: &mut Feed,
    seat: u8,
    kind: Kind,
    set: ResourceSet,
) -> Result<Note, Fail>
    requires { IsBeside machine.old.state feed.old }
    ensures beside { OnOk result (IsBeside machine.new.state feed.new) }
    ensures feed { OnOk result (feed.new.feed ≡ feed.old.feed) }
    ensures note { IfOk result (λ note. note.feed ≡ feed.old.feed) }
{
    let request = Request::new(kind, set, set, set, 1, 0)?;
    admit(machine.groups(), &request)?;
    let _ = (request.reads().len(), request.writes().len());
    if seat >= machine.seats() || machine.issued() >= 1 << 63 {
        return Err(Fail::from("the seat or the stamp is out of range"));
    }
    publish(rt, machine, feed, &Event::Issue { seat, request })
}

// What a monitor sees at first, then without learning of what was published, and then with the note.
fn looks<R: Wait>(
    rt: &R,
    machine: &mut Plain,
    feed: &mut Feed,
    monitor: &mut Monitor,
) -> Result<[Look; 3], Fail>
    requires beside { IsBeside machine.old.state feed.old }
    requires monitor { IsMonitorOf feed.old monitor.old }
{
    let (a, b) = (ResourceSet::one(0), ResourceSet::one(1));
    let first = monitor.look(rt);
    issue(rt, machine, feed, 0, Kind::Write, a.union(b))?;
    issue(rt, machine, feed, 1, Kind::Read, a)?;
    let note = issue(rt, machine, feed, 2, Kind::Write, b)?;
    let unlearned = monitor.look(rt);
    monitor.learn(note);
    Ok([first, unlearned, monitor.look(rt)])
}

#[test]
fn a_look_shows_what_was_published(rt: HostRuntime) -> Result<(), Fail> {
    let alloc = rt.alloc();
    let groups = Groups::new(alloc, RESOURCES as u8)?;
    let mut machine = Plain::new(alloc, groups.copy(alloc)?, 3, 3)?;
    let (mut feed, mut monitors) = Feed::new(&rt, alloc, groups, 3, 3, 1)?;
    let mut monitor = monitors.pop().unwrap();
    let seen = looks(&rt, &mut machine, &mut feed, &mut monitor);
    let fed = feed.fed();
    feed.close(&rt);
    let [first, unlearned, learned] = seen?;
    let (a, b) = (ResourceSet::one(0), ResourceSet::one(1));
    assert_eq!(rt; (first.events, first.incomplete, first.holding), (0, 0, 0));
    assert_eq!(rt; (unlearned.events, fed), (3, 3));
    assert_eq!(rt;
        (learned.events, learned.incomplete, learned.holding),
        (3, 3, 1)
    );
    assert!(rt; learned.writes == a.union(b) && learned.reads.is_empty());
    Ok(())
}

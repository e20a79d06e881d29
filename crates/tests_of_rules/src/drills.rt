// Drills, and the watchers that see their steps.
ghost use Rattle.std.specs.Prelude.{◌≤◌};

use rclaim::Event;
use rdrill::{drill, drill_machine, push_summary, summary_room};
use rplain::Plain;
use rwatch::{Counter, Recorder, WatchKind, Watcher, Watchers};
use std::alloc::Global;
use std::test::Fail;

const KINDS: [WatchKind; 7] = [
    WatchKind::Issues,
    WatchKind::Finishes,
    WatchKind::Rises,
    WatchKind::Asks,
    WatchKind::Entitled,
    WatchKind::Satisfied,
    WatchKind::Grants,
];

const DRILL_OF_ONE: &str = "drill,1
issues,1
finishes,0
rises,0
asks,0
entitled,0
satisfied,1
grants,1
incomplete,1
holding,1
end
";

const DRILL_OF_FIVE: &str = "drill,5
issues,3
finishes,1
rises,0
asks,1
entitled,2
satisfied,2
grants,3
incomplete,2
holding,1
end
";

// One counter of each kind.
fn counters(alloc: Global) -> Result<Watchers, Fail> {
    let mut list = Vec::new(alloc);
    for kind in KINDS {
        let counter: Box<dyn Watcher + Send> = Box::new(alloc, Counter::new(kind))?;
        list.push(counter)?;
    }
    Ok(Watchers::new(list))
}

// Whether this is the summary of a drill of this many events.
fn is_summary(alloc: Global, count: u32, due: &str) -> Result<bool, Fail>
    requires { count ≤ 1000000 }
{
    let mut machine: Plain = drill_machine(alloc)?;
    let mut watchers = counters(alloc)?;
    drill(&mut machine, &mut watchers, count);
    is_summary_of(alloc, count, &watchers, &machine, due)
}

// The same for a drill that was made.
fn is_summary_of(
    alloc: Global,
    count: u32,
    watchers: &Watchers,
    machine: &Plain,
    due: &str,
) -> Result<bool, Fail> {
    let mut text = summary_room(alloc, watchers.len())?;
    push_summary(&mut text, count, watchers, machine);
    Ok(text.as_slice() == due.as_bytes())
}

// A recorder of issues that has room for five events.
fn recorder(alloc: Global) -> Result<Watchers, Fail> {
    let mut list = Vec::new(alloc);
    let recorder: Box<dyn Watcher + Send> = Box::new(
        alloc,
        Recorder::new(alloc, WatchKind::Issues, 5)?,
    )?;
    list.push(recorder)?;
    Ok(Watchers::new(list))
}

// Whether it keeps the events of a drill of five.
fn is_recorded(alloc: Global) -> Result<bool, Fail> {
    let mut machine: Plain = drill_machine(alloc)?;
    let mut watchers = recorder(alloc)?;
    drill(&mut machine, &mut watchers, 5);
    Ok(has_recorded(&watchers))
}

// Whether these are the events that it has kept.
fn has_recorded(watchers: &Watchers) -> bool {
    if watchers.len() != 1 {
        return false;
    }
    let begins = is_event(watchers.event_of(0, 0), 5, false);
    let ends = is_event(watchers.event_of(0, 4), 5, true);
    let no_more = watchers.event_of(0, 5).is_none();
    begins && ends && no_more && watchers.count_of(0) == 3
}

// Whether it is an issue of this seat, or its finish.
fn is_event(event: Option<Event>, seat: u8, finish: bool) -> bool {
    match event {
        Some(event) => event.seat() == seat && is_finish(&event) == finish,
        None => false,
    }
}

fn is_finish(event: &Event) -> bool {
    match event {
        Event::Finish { .. } => true,
        Event::Issue { .. } | Event::Rise { .. } | Event::Ask { .. } => false,
    }
}

#[test]
fn a_drill_of_one_event(rt: HostRuntime) -> Result<(), Fail> {
    let right = is_summary(rt.alloc(), 1, DRILL_OF_ONE)?;
    assert!(rt; right);
    Ok(())
}

#[test]
fn a_drill_of_five_events(rt: HostRuntime) -> Result<(), Fail> {
    let right = is_summary(rt.alloc(), 5, DRILL_OF_FIVE)?;
    assert!(rt; right);
    Ok(())
}

#[test]
fn a_recorder_keeps_the_events_of_a_drill(rt: HostRuntime) -> Result<(), Fail> {
    let right = is_recorded(rt.alloc())?;
    assert!(rt; right);
    Ok(())
}

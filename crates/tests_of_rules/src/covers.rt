// Stories: events that a machine takes, and the waits that each has to end, by everything that computes covers.
ghost use Rattle.std.specs.Prelude.{◌≡◌, [], OnOk, IfOk};
ghost use Rattle.rset.specs.declared.TheConstants.{RESOURCES};
ghost use Rattle.rmodel.specs.State.{opening};
ghost use Rattle.rmodel.specs.Steps.{Fits};
ghost use Rattle.rcover.specs.Follows.{Follows};
ghost use Rattle.rcover.specs.Knows.{Knows};
ghost use Rattle.tests_of_rules.specs.Stories.{IsStory, past};

use crate::groups::two_groups;
use rclaim::{Event, Kind, Request};
use rcover::{Covers, Following};
use rcover_laws::WaitEnd;
use rcover_plain::plain_cover;
use rexpand::Groups;
use rmodel::{Machine, admit};
use rplain::Plain;
use rset::{RESOURCES, ResourceSet};
use std::alloc::Global;
use std::test::Fail;

// A machine, and the events that it took; a follower and the covers beside it have seen them too.
#[derive(Drop)]
pub struct Story {
    machine: Plain,
    following: Following,
    covers: Covers,
    events: Vec<Event>,
    groups: Groups,
    seats: u8,
}

/// What a seat does.
#[derive(Clone, Copy)]
pub enum Move {
    /// It issues a request that reads and writes these sets, with these lengths.
    Issue(Kind, ResourceSet, ResourceSet, u32, u32),
    /// Its upgrade rises.
    Rise,
    /// Its nested request asks for these.
    Ask(ResourceSet),
    /// Its request is complete.
    Finish,
}

/// A move of a seat, and the waits that it has to end, at most two.
#[derive(Clone, Copy)]
pub struct Turn {
    pub seat: u8,
    pub makes: Move,
    pub first: Option<WaitEnd>,
    pub second: Option<WaitEnd>,
}

// A follower and covers for a story of four seats over these groups, which have seen no event of it.
fn followers(alloc: Global, groups: &Groups) -> Result<(Following, Covers), Fail>
    ensures follows { IfOk result (λ r. Follows r.0 (past groups.now 4 [])) }
    ensures told { IfOk result (λ r. Knows r.1 (past groups.now 4 [])) }
{
    let covers = Covers::new(alloc, groups.copy(alloc)?, 4, 4)?;
    let following = Following::new(alloc)?;
    Ok((following, covers))
}

// A story with no event, over a machine that has taken none.
fn tell(alloc: Global, machine: Plain, groups: Groups) -> Result<Story, Fail>
    requires resources { groups.q ≡ RESOURCES }
    requires placed { machine.state.groups.q ≡ RESOURCES }
    requires state { machine.state ≡ opening groups 4 4 }
    ensures { IfOk result (λ story. IsStory story.groups story.seats story.events.items story.machine.state story.following story.covers) }
{
    let (following, covers) = followers(alloc, &groups)?;
    Ok(Story {
        machine,
        following,
        covers,
        events: Vec::new(alloc),
        groups,
        seats: 4,
    })
}

// A story of four seats with no event; resources 0 and 1 are declared together, and so are 1 and 2.
fn begin(alloc: Global) -> Result<Story, Fail>
    ensures { IfOk result (λ story. IsStory story.groups story.seats story.events.items story.machine.state story.following story.covers) }
{
    let groups = two_groups(alloc)?;
    let machine = Plain::new(alloc, groups.copy(alloc)?, 4, 4)?;
    tell(alloc, machine, groups)
}

/// The set of these resources.
pub fn set(members: &[u8]) -> ResourceSet {
    let mut all = ResourceSet::empty();
    for l in members {
        if *l < RESOURCES as u8 {
            all = all.with(*l);
        }
    }
    all
}

// One more event.
fn step(story: &mut Story, event: &Event) -> Result<(), Fail>
    requires story { IsStory story.old.groups story.old.seats story.old.events.items story.old.machine.state story.old.following story.old.covers }
    requires fits { Fits story.old.machine.state event.now }
    ensures { OnOk result (IsStory story.new.groups story.new.seats story.new.events.items story.new.machine.state story.new.following story.new.covers) }
{
    if story.events.len() > 9 {
        return Err(Fail::from("there are too many events"));
    }
    story.following.step(&mut story.machine, event)?;
    story.covers.told(event);
    story.events.push(*event)?;
    Ok(())
}

// A request is issued, after all conditions of a step are tested.
fn issue(
    story: &mut Story,
    seat: u8,
    kind: Kind,
    reads: ResourceSet,
    writes: ResourceSet,
    lengths: (u32, u32),
) -> Result<(), Fail>
    requires { IsStory story.old.groups story.old.seats story.old.events.items story.old.machine.state story.old.following story.old.covers }
    ensures { OnOk result (IsStory story.new.groups story.new.seats story.new.events.items story.new.machine.state story.new.following story.new.covers) }
{
    let (len, later) = lengths;
    if len > 9 || later > 9 {
        return Err(Fail::from("the length is out of range"));
    }
    let request = Request::new(kind, reads, writes, ResourceSet::one(0), len, later)?;
    admit(story.machine.groups(), &request)?;
    let _ = (request.reads().len(), request.writes().len());
    if seat >= story.machine.seats() || story.machine.issued() >= 1 << 63 {
        return Err(Fail::from("the seat or the stamp is out of range"));
    }
    step(story, &Event::Issue { seat, request })
}

// A seat makes a move.
fn make(story: &mut Story, seat: u8, makes: Move) -> Result<(), Fail>
    requires { IsStory story.old.groups story.old.seats story.old.events.items story.old.machine.state story.old.following story.old.covers }
    ensures { OnOk result (IsStory story.new.groups story.new.seats story.new.events.items story.new.machine.state story.new.following story.new.covers) }
{
    if seat >= story.machine.seats() {
        return Err(Fail::from("the seat is out of range"));
    }
    match makes {
        Move::Issue(kind, reads, writes, len, later) => {
            issue(story, seat, kind, reads, writes, (len, later))
        }
        Move::Rise => step(story, &Event::Rise { seat }),
        Move::Ask(set) => ask(story, seat, set),
        Move::Finish => step(story, &Event::Finish { seat }),
    }
}

// A nested request asks for a part.
fn ask(story: &mut Story, seat: u8, set: ResourceSet) -> Result<(), Fail>
    requires { IsStory story.old.groups story.old.seats story.old.events.items story.old.machine.state story.old.following story.old.covers }
    ensures { OnOk result (IsStory story.new.groups story.new.seats story.new.events.items story.new.machine.state story.new.following story.new.covers) }
{
    let _ = set.len();
    if seat >= story.machine.seats() {
        return Err(Fail::from("the seat is out of range"));
    }
    step(story, &Event::Ask { seat, set })
}

// Whether these are just the waits that a turn has to end.
fn are_just(found: &[WaitEnd], turn: &Turn) -> bool {
    match (turn.first, turn.second) {
        (None, _) => found.is_empty(),
        (Some(first), None) => found == [first].as_slice(),
        (Some(first), Some(second)) => found == [first, second].as_slice(),
    }
}

// Whether the last event ended just the waits that a turn has to end, by everything that computes covers.
fn is_right(alloc: Global, story: &Story, turn: &Turn) -> Result<bool, Fail>
    requires { IsStory story.now.groups story.now.seats story.now.events.items story.now.machine.state story.now.following story.now.covers }
{
    let found = plain_cover(
        alloc,
        &story.groups,
        story.seats,
        story.seats,
        &story.events,
    )?;
    let followed = are_just(story.following.ended(), turn);
    let told = are_just(story.covers.ended(), turn);
    Ok(are_just(&found, turn) && followed && told)
}

// Plays the turns, and answers whether each ended just the waits that it has to end.
fn play(alloc: Global, story: &mut Story, turns: &[Turn]) -> Result<bool, Fail>
    requires { IsStory story.old.groups story.old.seats story.old.events.items story.old.machine.state story.old.following story.old.covers }
{
    for turn in turns {
        make(story, turn.seat, turn.makes)?;
        if !is_right(alloc, story, turn)? {
            return Ok(false);
        }
    }
    Ok(true)
}

/// Whether the turns, played from the beginning, each end just the waits that they have to end.
pub fn are_right(alloc: Global, turns: &[Turn]) -> Result<bool, Fail> {
    let mut story = begin(alloc)?;
    play(alloc, &mut story, turns)
}

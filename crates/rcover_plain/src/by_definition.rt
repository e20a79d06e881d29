// The covers of the waits that an event ends, by their definition.
ghost use Rattle.std.specs.Prelude.{◌≡◌, ◌≤◌, ◌<◌, ◌++◌, ◌∷◌, [], ◌^◌, IfOk, IsOk, OnOk, IfSome, List, length, Some};
ghost use Rattle.std.specs.List.{sum_by, filter_map, AllByRecursion};
ghost use Rattle.std.specs.Option.{option_to_list};
ghost use Rattle.rset.specs.declared.TheConstants.{SEATS};
ghost use Rattle.rclaim.specs.declared.event.Event.{Event};
ghost use Rattle.rclaim.specs.declared.TheConstants.{LENGTH_LIMIT};
ghost use Rattle.rbound.specs.declared.which.Which.{Which};
ghost use Rattle.rbound.specs.Needs.{length_of};
ghost use Rattle.rmodel.specs.State.{opening};
ghost use Rattle.rmodel.specs.Steps.{AreAccepted};
ghost use Rattle.rcover_laws.specs.Ended.{wait_of, waits_in, sections_in, wait_end, ended_if, ended_by};
ghost use Rattle.rcover_laws.specs.History.{count_ask, last_ask, length_in};
ghost use Rattle.rcover_plain.specs.Lists.{IsOpened, moments_in, sections_of, length_at, before_left};
ghost use Rattle.rcover_laws.specs.Lists.{AreFew};
ghost use Rattle.rcover_laws.specs.Told.{wait_so_far};
ghost use Rattle.rcover_laws.specs.Within.{numbers_of};

use crate::cover::{Cover, cover_in};
use crate::moments::{copy_of, moments_of, take, wait_so_far};
use rbound::Which;
use rclaim::{Claim, Event, Request};
use rcover_laws::{WaitEnd, stands, waits_first, waits_for_ask, waits_to_rise};
use rexpand::Groups;
use rmodel::{Claimed, Machine, is_upgrade};
use rplain::Plain;
use std::alloc::{AllocError, Global};

/// The length of a claim's section, for a claim of this request.
fn length_of(request: &Request, c: &Claim) -> u32
    ensures value { result ≡ length_of request.now c.now }
    ensures bound { result ≤ LENGTH_LIMIT }
{
    if is_upgrade(c.kind) && c.write_half {
        request.later()
    } else {
        request.len()
    }
}

/// The length of a claim's section by an event, if that is the issue of its request. That issue has `before` issues before it.
fn length_at(c: &Claim, before: u64, event: &Event) -> Option<u32>
    ensures value { result ≡ length_at c.now before event.now }
    ensures bound { IfSome result (λ n. n ≤ LENGTH_LIMIT) }
{
    match event {
        Event::Issue { request, .. } => {
            if before == 0 {
                Some(length_of(request, c))
            } else {
                None
            }
        }
        _ => None,
    }
}

/// How many issues come before that of a request, once an event came.
fn before_left(before: u64, event: &Event) -> u64
    ensures { result ≡ before_left before event.now }
{
    match event {
        Event::Issue { .. } => before.saturating_sub(1),
        _ => before,
    }
}

/// The length of the section of a claim.
fn length_in(events: &[Event], c: &Claim) -> u32
    ensures value { result ≡ length_in events.now c.now }
    ensures bound { result ≤ LENGTH_LIMIT }
{
    let mut before = c.stamp;
    for event in events {
        if let Some(len) = length_at(c, before, event) {
            return len;
        }
        before = before_left(before, event);
    }
    0
}

/// The sum of the lengths of these sections.
fn units_of(events: &[Event], claims: &[Claim]) -> u64
    requires { length claims.now ≤ 2 ^ 31 }
    ensures value { result ≡ sum_by (length_in events.now) claims.now }
    ensures bound { result ≤ 2 ^ 52 }
{
    let mut units = 0;
    for c in claims {
        units += length_in(events, c) as u64;
    }
    units
}

/// The asks of a seat since its last issue, once an event comes.
fn count_ask(seat: u8, count: usize, event: &Event) -> usize
    requires { count < 2 ^ 63 }
    ensures { result ≡ count_ask seat count event.now }
{
    match event {
        Event::Issue { seat: other, .. } => { if *other == seat { 0 } else { count } }
        Event::Ask { seat: other, .. } => { if *other == seat { count + 1 } else { count } }
        _ => count,
    }
}

/// The number of the last ask of a claim's request.
fn last_ask(events: &[Event], c: &Claim) -> usize
    ensures { result ≡ last_ask events.now c.now }
{
    let mut count = 0;
    for event in events {
        count = count_ask(c.seat, count, event);
    }
    count.saturating_sub(1)
}

/// The wait that a claim is in after some events, if any.
fn wait_of(events: &[Event], moment: &[Claimed], x: &Claimed) -> Option<Which>
    ensures { result ≡ wait_of events.now moment.now x.now }
{
    if waits_first(x) {
        Some(Which::First)
    } else if waits_to_rise(moment, x) {
        Some(Which::Rise)
    } else if waits_for_ask(x) {
        Some(Which::Ask(last_ask(events, &x.claim)))
    } else {
        None
    }
}

/// What is reported of a wait with this cover.
fn wait_end(events: &[Event], which: Which, c: &Claim, cover: &Cover) -> WaitEnd
    requires { AreFew (sections_of cover.now) }
    ensures { result ≡ wait_end which c.now (numbers_of (length_in events.now) (sections_of cover.now)) }
{
    let units = units_of(events, &cover.reads) + units_of(events, &cover.writes);
    WaitEnd {
        seat: c.seat,
        stamp: c.stamp,
        which,
        reads: cover.reads.len() as u64,
        writes: cover.writes.len() as u64,
        units,
    }
}

/// A wait of a claim at the last of these moments, if the next one ends it.
fn ended_in(
    alloc: Global,
    events: &[Event],
    moments: &[Vec<Claimed>],
    next: &[Claimed],
    x: &Claimed,
    which: Which,
) -> Result<Option<WaitEnd>, AllocError>
    requires { AreFew (sections_in which x.now (wait_so_far (waits_in which) x.now.claim (moments_in moments.now))) }
    ensures { IfOk result (λ end. end ≡ ended_if events.now (moments_in moments.now) next.now x.now (Some which)) }
{
    if stands(which, &x.claim, next) {
        return Ok(None);
    }
    let wait = wait_so_far(alloc, which, &x.claim, moments)?;
    let cover = cover_in(alloc, which, x, &wait)?;
    Ok(Some(wait_end(events, which, &x.claim, &cover)))
}

/// Adds the wait of a claim at the last of these moments, if it is in one and the next one ends it.
fn add_ended(
    alloc: Global,
    ended: &mut Vec<WaitEnd>,
    events: &[Event],
    moments: &[Vec<Claimed>],
    last: &[Claimed],
    next: &[Claimed],
    x: &Claimed,
) -> Result<(), AllocError>
    requires { (w : Which) → wait_of events.now last.now x.now ≡ Some w → AreFew (sections_in w x.now (wait_so_far (waits_in w) x.now.claim (moments_in moments.now))) }
    ensures { OnOk result (ended.new.items ≡ ended.old.items ++ option_to_list (ended_if events.now (moments_in moments.now) next.now x.now (wait_of events.now last.now x.now))) }
{
    let Some(which) = wait_of(events, last, x) else {
        return Ok(());
    };
    if let Some(end) = ended_in(alloc, events, moments, next, x, which)? {
        ended.push(end)?;
        return Ok(());
    }
    Ok(())
}

/// The waits of claims at the last of these moments that the next one ends.
fn all_ended(
    alloc: Global,
    events: &[Event],
    moments: &[Vec<Claimed>],
    last: &[Claimed],
    next: &[Claimed],
) -> Result<Vec<WaitEnd>, AllocError>
    requires { AllByRecursion (λ x. (w : Which) → wait_of events.now last.now x ≡ Some w → AreFew (sections_in w x (wait_so_far (waits_in w) x.claim (moments_in moments.now)))) last.now }
    ensures { IfOk result (λ v. v.items ≡ filter_map (λ x. ended_if events.now (moments_in moments.now) next.now x (wait_of events.now last.now x)) last.now) }
{
    let mut ended = Vec::new(alloc);
    for x in last {
        add_ended(alloc, &mut ended, events, moments, last, next, x)?;
    }
    Ok(ended)
}

/// What the last event ends after those before it, at a machine at which nothing was done yet.
fn ended_behind(
    alloc: Global,
    machine: &mut Plain,
    before: &[Event],
    event: &Event,
) -> Result<Vec<WaitEnd>, AllocError>
    requires opened { IsOpened machine.old.state }
    requires accepted { AreAccepted machine.old.state (before.now ++ event.now ∷ []) }
    ensures { IfOk result (λ v. v.items ≡ ended_by machine.old.state before.now event.now) }
{
    let moments = moments_of(alloc, machine, before)?;
    let last = copy_of(alloc, machine.claims())?;
    take(machine, event);
    all_ended(alloc, before, &moments, &last, machine.claims())
}

/// The waits with at least one moment that the last of these events ended, by rising stamp, with the numbers of their covers. If
/// there is no event, there are no waits. The events are accepted one after another.
///
/// It goes through the states from the first and keeps every moment: it says what the covers are, and takes long.
///
/// # Errors
///
/// Out of memory, if there is an event.
pub fn plain_cover(
    alloc: Global,
    groups: &Groups,
    seats: u8,
    cap: u8,
    events: &[Event],
) -> Result<Vec<WaitEnd>, AllocError>
    requires seats { (1 ≤ seats) × (seats ≤ SEATS) }
    requires cap { (1 ≤ cap) × (cap ≤ SEATS) }
    requires accepted { AreAccepted (opening groups.now seats cap) events.now }
    ensures none { IfOk result (λ v. events.now ≡ [] → v.items ≡ []) }
    ensures succeeds { events.now ≡ [] → IsOk result }
    ensures ended { IfOk result (λ v. (before : List Event) (last : Event) → events.now ≡ before ++ last ∷ [] → v.items ≡ ended_by (opening groups.now seats cap) before last) }
{
    let Some((event, before)) = events.split_last() else {
        return Ok(Vec::new(alloc));
    };
    let mut machine = Plain::new(alloc, groups.copy(alloc)?, seats, cap)?;
    ended_behind(alloc, &mut machine, before, event)
}

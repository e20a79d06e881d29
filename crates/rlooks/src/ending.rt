//! The last looks, once the runtime is closed.
ghost use Rattle.std.specs.Prelude.{◌≡◌, ◌≤◌, Some, IfOk, length};
ghost use mathlib.Core.List.{IsPrefix};
ghost use Rattle.rguard.specs.Scribes.{events_from};
ghost use Rattle.rmon.specs.declared.rule.Opening.{Opening};
ghost use Rattle.rmon.specs.Opened.{opening_of};
ghost use Rattle.rlooks.specs.Looks.{AreLooksAt};
ghost use Rattle.rlooks.specs.Watches.{MayEnd};
ghost use Rattle.rlooks.specs.Workers.{events_in};

use crate::lookout::Lookout;
use crate::watch::Watch;
use rclaim::Event;
use rmon::{Feed, Look};
use rvalue::{Entry, History};
use std::alloc::{AllocError, Global};
use std::sync::Wait;

/// The looks of one monitor, and those of another.
pub type Looks = (Vec<Look>, Vec<Look>);

/// Ends a watch of a runtime that was closed with this history: feeds what was not fed yet, looks with each monitor until it
/// shows all events, and gives the looks of the first monitor and those of the second.
///
/// # Errors
///
/// Out of memory. The watch is ended then too.
pub fn last_looks<R: Wait, E>(
    rt: &R,
    alloc: Global,
    watch: Watch,
    history: &History<E>,
) -> Result<Looks, AllocError>
    requires { MayEnd (events_in history.now.entries) watch }
    ensures kept { IfOk result (λ r. IsPrefix watch.first.looks r.0.items × IsPrefix watch.second.looks r.1.items) }
    ensures first { IfOk result (λ r. (o : Opening) → watch.feed.opening ≡ Some o → AreLooksAt (opening_of o) (events_in history.now.entries) r.0.items) }
    ensures second { IfOk result (λ r. (o : Opening) → watch.feed.opening ≡ Some o → AreLooksAt (opening_of o) (events_in history.now.entries) r.1.items) }
{
    let Watch {
        mut feed,
        first,
        second,
    } = watch;
    let looks = feed_rest(rt, alloc, &mut feed, first, second, history);
    feed.close(rt);
    looks
}

// Feeds what was not fed yet, and looks with each monitor until it shows all events.
fn feed_rest<R: Wait, E>(
    rt: &R,
    alloc: Global,
    feed: &mut Feed,
    first: Lookout,
    second: Lookout,
    history: &History<E>,
) -> Result<Looks, AllocError>
    requires { MayEnd (events_in history.now.entries) (record { feed = feed.old; first = first; second = second }) }
    ensures kept { IfOk result (λ r. IsPrefix first.looks r.0.items × IsPrefix second.looks r.1.items) }
    ensures first { IfOk result (λ r. (o : Opening) → feed.old.opening ≡ Some o → AreLooksAt (opening_of o) (events_in history.now.entries) r.0.items) }
    ensures second { IfOk result (λ r. (o : Opening) → feed.old.opening ≡ Some o → AreLooksAt (opening_of o) (events_in history.now.entries) r.1.items) }
{
    let mut first = first;
    let mut second = second;
    let from = feed.fed() as usize;
    let events = events_after(alloc, history.entries(), from)?;
    let note = feed.pump(rt, events.as_slice())?;
    first.learn(note);
    let again = feed.pump(rt, &[])?;
    second.learn(again);
    let all = feed.fed();
    let first = first.finish(rt, all);
    let second = second.finish(rt, all);
    Ok((first, second))
}

// The events of the entries from a position on.
fn events_after<E>(
    alloc: Global,
    entries: &[Entry<E>],
    from: usize,
) -> Result<Vec<Event>, AllocError>
    requires { from ≤ length entries.now }
    ensures { IfOk result (λ events. events.items ≡ events_from from entries.now) }
{
    let more = &entries[from..];
    let mut events = Vec::with_capacity(alloc, more.len())?;
    for entry in more {
        events.push_reserved(entry.event);
    }
    Ok(events)
}

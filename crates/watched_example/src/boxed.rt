//! The same work with watchers in boxes.
ghost use Rattle.std.specs.Prelude.{◌≡◌, ◌*◌, IfSome};

use crate::watched::watched;
use rwatch::{Audience, Counter, WatchKind, Watcher, Watchers, laws};
use std::alloc::Global;
use std::sync::Wait;
use std::thread::Threads;

/// Two threads make this many sections each at a runtime that boxed watchers watch: the count of the first of them
/// afterwards, which counts issues. None if a section was not made or memory ran out.
pub fn boxed<R: Threads + Wait + Sync>(rt: &R, alloc: Global, times: u32) -> Option<u64>
    ensures { IfSome result (λ count. count ≡ 2 * times) }
{
    let mut list = Vec::new(alloc);
    let Ok(counter) = Box::new(alloc, Counter::new(WatchKind::Issues)) else {
        return None;
    };
    let counter: Box<dyn Watcher + Send> = counter;
    let Ok(()) = list.push(counter) else {
        return None;
    };
    let watchers = Watchers::new(list);
    let after = watched(rt, alloc, watchers, times)?;
    // The law of what a watcher becomes.
    laws::steps_are_heard();
    Some(after.count_of(0))
}

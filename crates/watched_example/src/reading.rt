//! A thread that reads a published count while the lock runs.
ghost use Rattle.std.specs.Prelude.{◌≡◌, ◌*◌, IfSome};
ghost use Rattle.watched_example.specs.Watching.{HaveSeen};

use crate::alone::Alone;
use crate::gauge::Gauge;
use crate::watched::watched;
use rwatch::{Audience, laws};
use std::alloc::Global;
use std::sync::atomic::{AtomicBool, AtomicU64, Ordering};
use std::sync::{Arc, Wait};
use std::thread;
use std::thread::Threads;

// Reads the count until the work is done: what it was at last. None if a look saw less than the one before it. No clause can
// say what an atomic has.
fn follow<R: Wait>(rt: &R, published: &AtomicU64, is_done: &AtomicBool) -> Option<u64> {
    let mut last = 0;
    for _ in rt.forever() {
        let at_end = is_done.load(Ordering::SeqCst);
        let count = published.load(Ordering::SeqCst);
        if count < last {
            return None;
        }
        last = count;
        if at_end {
            break;
        }
        thread::yield_now();
    }
    Some(last)
}

// The work of `watched`, while another thread reads what the audience publishes.
fn followed<R: Threads + Wait + Sync, A: Audience>(
    rt: &R,
    alloc: Global,
    audience: A,
    published: &AtomicU64,
    times: u32,
) -> (Option<A>, Option<u64>)
    ensures { IfSome result.0 (λ after. HaveSeen (2 * times) (A.all audience) (A.all after)) }
{
    let is_done = AtomicBool::new(false);
    let (read, audience) = thread::join(
        rt,
        || follow(rt, published, &is_done),
        || -> Option<A>
            ensures { IfSome result (λ after. HaveSeen (2 * times) (A.all audience) (A.all after)) }
        {
            let after = watched(rt, alloc, audience, times);
            is_done.store(true, Ordering::SeqCst);
            after
        },
    );
    (audience, read)
}

/// Two threads make this many sections each at a runtime that a gauge watches, and a third reads what the gauge publishes: the
/// count of the gauge afterwards, and the published count as it was read last. None if a section was not made, memory ran out,
/// or a look saw less than the one before it.
pub fn gauged<R: Threads + Wait + Sync>(rt: &R, alloc: Global, times: u32) -> Option<(u64, u64)>
    ensures { IfSome result (λ r. r.0 ≡ 2 * times) }
{
    let published = Arc::new(alloc, AtomicU64::new(0)).ok()?;
    let audience = Alone::new(Gauge::new(Arc::try_clone(&published).ok()?));
    let (after, read) = followed(rt, alloc, audience, &published, times);
    // The law of what a watcher becomes.
    laws::steps_are_heard();
    let after = after?;
    let counted = after.count_of(0);
    Some((counted, read?))
}

// One round of the worker that feeds.
ghost use Rattle.std.specs.Prelude.{◌≡◌, IfOk, IfErr, OnOk, OnErr};
ghost use mathlib.Core.List.{IsPrefix};
ghost use Rattle.rstate.specs.Histories.{Beginning};
ghost use Rattle.rlooks.specs.Workers.{Feeds, IsLookFrom};

use rguard::{Rnlp, Scribe};
use rmodel::Machine;
use rmon::{Feed, Look, Monitor};
use rvalue::Editable;
use std::alloc::{AllocError, Global};
use std::sync::Wait;

/// Reads on in the history, publishes what is new, and looks: the look shows all that was published.
///
/// # Errors
///
/// Out of memory. The scribe comes back, and the monitor is as it was.
pub fn feed_once<R: Wait, T: Editable, M: Machine>(
    rt: &R,
    alloc: Global,
    rnlp: &Rnlp<T, M>,
    scribe: Scribe<T, M>,
    feed: &mut Feed,
    monitor: &mut Monitor,
) -> Result<(Scribe<T, M>, Look), (Scribe<T, M>, AllocError)>
    requires { (b : Beginning T) × Feeds T.after T.taken T.number rnlp.now b scribe feed.old monitor.old }
    ensures feeds { IfOk result (λ r. (b : Beginning T) → Feeds T.after T.taken T.number rnlp.now b scribe feed.old monitor.old → Feeds T.after T.taken T.number rnlp.now b r.0 feed.new monitor.new) }
    ensures look { IfOk result (λ r. (b : Beginning T) → Feeds T.after T.taken T.number rnlp.now b scribe feed.old monitor.old → IsLookFrom b monitor.old monitor.new r.1) }
    ensures its { OnOk result ((monitor.new.feed ≡ monitor.old.feed) × (monitor.new.opening ≡ monitor.old.opening)) }
    ensures fed { IfOk result (λ r. IsPrefix feed.new.fed monitor.new.seen) }
    ensures err { IfErr result (λ e. (b : Beginning T) → Feeds T.after T.taken T.number rnlp.now b scribe feed.old monitor.old → Feeds T.after T.taken T.number rnlp.now b e.0 feed.new monitor.new) }
    ensures same { OnErr result (monitor.new ≡ monitor.old) }
{
    let mut events = Vec::new(alloc);
    let from = feed.fed() as usize;
    match rnlp.read_on(rt, scribe, from, &mut events) {
        Ok(scribe) => match feed.pump(rt, events.as_slice()) {
            Ok(note) => {
                monitor.learn(note);
                Ok((scribe, monitor.look(rt)))
            }
            Err(e) => Err((scribe, e)),
        },
        Err(e) => Err(e),
    }
}

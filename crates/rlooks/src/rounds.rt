//! The rounds of the two workers.
ghost use Rattle.std.specs.Prelude.{◌≡◌, ◌+◌, ◌<◌, ◌≤◌, IfOk, IfErr, OnOk, OnErr, length};
ghost use mathlib.Core.List.{IsPrefix};
ghost use Rattle.rstate.specs.Histories.{Beginning};
ghost use Rattle.rlooks.specs.Lookouts.{GoesOn};
ghost use Rattle.rlooks.specs.Watches.{MayFeed, HasFed};
ghost use Rattle.rlooks.specs.Workers.{Feeds, IsLookFrom};

use crate::lookout::{LOOKS, Lookout, ROUNDS};
use crate::worker::feed_once;
use rguard::{Rnlp, Scribe};
use rmodel::Machine;
use rmon::{Feed, Look};
use rvalue::Editable;
use std::alloc::{AllocError, Global};
use std::sync::Wait;

// One round of the worker that feeds, of which the look is kept.
fn feed_and_keep<R: Wait, T: Editable, M: Machine>(
    rt: &R,
    alloc: Global,
    rnlp: &Rnlp<T, M>,
    scribe: Scribe<T, M>,
    feed: &mut Feed,
    lookout: &mut Lookout,
) -> Result<Scribe<T, M>, (Scribe<T, M>, AllocError)>
    requires feeds { (b : Beginning T) × Feeds T.after T.taken T.number rnlp.now b scribe feed.old lookout.old.monitor }
    requires room { length lookout.old.looks < LOOKS }
    ensures feeds { IfOk result (λ s. (b : Beginning T) → Feeds T.after T.taken T.number rnlp.now b scribe feed.old lookout.old.monitor → Feeds T.after T.taken T.number rnlp.now b s feed.new lookout.new.monitor) }
    ensures on { OnOk result (GoesOn 1 lookout.old lookout.new) }
    ensures fed { OnOk result (IsPrefix feed.new.fed lookout.new.monitor.seen) }
    ensures back { IfErr result (λ e. (b : Beginning T) → Feeds T.after T.taken T.number rnlp.now b scribe feed.old lookout.old.monitor → Feeds T.after T.taken T.number rnlp.now b e.0 feed.new lookout.new.monitor) }
    ensures same { OnErr result (lookout.new ≡ lookout.old) }
{
    match feed_once(rt, alloc, rnlp, scribe, feed, &mut lookout.monitor) {
        Ok((scribe, look)) => {
            lookout.looks.push_reserved(look);
            Ok(scribe)
        }
        Err(e) => Err(e),
    }
}

/// All rounds of the worker that feeds. Each keeps one look, which shows all that was fed by then.
///
/// # Errors
///
/// Out of memory. The scribe comes back, and the rounds end early.
pub fn feed_rounds<R: Wait, T: Editable, M: Machine>(
    rt: &R,
    alloc: Global,
    rnlp: &Rnlp<T, M>,
    scribe: Scribe<T, M>,
    feed: &mut Feed,
    lookout: &mut Lookout,
) -> Result<Scribe<T, M>, (Scribe<T, M>, AllocError)>
    requires feeds { (b : Beginning T) × Feeds T.after T.taken T.number rnlp.now b scribe feed.old lookout.old.monitor }
    requires room { length lookout.old.looks + ROUNDS ≤ LOOKS }
    ensures feeds { IfOk result (λ s. (b : Beginning T) → Feeds T.after T.taken T.number rnlp.now b scribe feed.old lookout.old.monitor → Feeds T.after T.taken T.number rnlp.now b s feed.new lookout.new.monitor) }
    ensures on { OnOk result (GoesOn ROUNDS lookout.old lookout.new) }
    ensures fed { OnOk result (IsPrefix feed.new.fed lookout.new.monitor.seen) }
    ensures back { IfErr result (λ e. (b : Beginning T) → Feeds T.after T.taken T.number rnlp.now b scribe feed.old lookout.old.monitor → Feeds T.after T.taken T.number rnlp.now b e.0 feed.new lookout.new.monitor) }
{
    let mut scribe = scribe;
    for _ in 0..ROUNDS {
        match feed_and_keep(rt, alloc, rnlp, scribe, feed, lookout) {
            Ok(back) => scribe = back,
            Err(e) => return Err(e),
        }
    }
    Ok(scribe)
}

/// The same for the scribe at a place, which it leaves empty: so a closure that is called once can do it.
///
/// # Errors
///
/// Out of memory. The scribe comes back, and the rounds end early.
pub fn feed_from<R: Wait, T: Editable, M: Machine>(
    rt: &R,
    alloc: Global,
    rnlp: &Rnlp<T, M>,
    place: &mut Option<Scribe<T, M>>,
    feed: &mut Feed,
    lookout: &mut Lookout,
) -> Result<Scribe<T, M>, (Scribe<T, M>, AllocError)>
    requires { MayFeed T.after T.taken T.number rnlp.now place.old feed.old lookout.old }
    ensures { HasFed T.after T.taken T.number rnlp.now place.old feed.old lookout.old result feed.new lookout.new }
{
    let scribe = place.take().unwrap();
    feed_rounds(rt, alloc, rnlp, scribe, feed, lookout)
}

/// One more round of the worker that feeds. Its look is given, and not kept.
///
/// # Errors
///
/// Out of memory. The scribe comes back, and the lookout is as it was.
pub fn feed_and_look<R: Wait, T: Editable, M: Machine>(
    rt: &R,
    alloc: Global,
    rnlp: &Rnlp<T, M>,
    scribe: Scribe<T, M>,
    feed: &mut Feed,
    lookout: &mut Lookout,
) -> Result<(Scribe<T, M>, Look), (Scribe<T, M>, AllocError)>
    requires { (b : Beginning T) × Feeds T.after T.taken T.number rnlp.now b scribe feed.old lookout.old.monitor }
    ensures feeds { IfOk result (λ r. (b : Beginning T) → Feeds T.after T.taken T.number rnlp.now b scribe feed.old lookout.old.monitor → Feeds T.after T.taken T.number rnlp.now b r.0 feed.new lookout.new.monitor) }
    ensures look { IfOk result (λ r. (b : Beginning T) → Feeds T.after T.taken T.number rnlp.now b scribe feed.old lookout.old.monitor → IsLookFrom b lookout.old.monitor lookout.new.monitor r.1) }
    ensures on { OnOk result (GoesOn 0 lookout.old lookout.new) }
    ensures back { IfErr result (λ e. (b : Beginning T) → Feeds T.after T.taken T.number rnlp.now b scribe feed.old lookout.old.monitor → Feeds T.after T.taken T.number rnlp.now b e.0 feed.new lookout.new.monitor) }
    ensures same { OnErr result (lookout.new ≡ lookout.old) }
{
    match feed_once(rt, alloc, rnlp, scribe, feed, &mut lookout.monitor) {
        Ok((scribe, look)) => return Ok((scribe, look)),
        Err(e) => return Err(e),
    }
}

/// All rounds of the worker that only looks. It takes no memory and no lock.
pub fn look_rounds<R: Wait>(rt: &R, lookout: &mut Lookout)
    requires { length lookout.old.looks + ROUNDS ≤ LOOKS }
    ensures { GoesOn ROUNDS lookout.old lookout.new }
{
    for _ in 0..ROUNDS {
        lookout.look(rt);
    }
}

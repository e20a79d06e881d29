//! A feed with two monitors and their looks.
ghost use Rattle.std.specs.Prelude.{◌≡◌, ◌≤◌, All, IfOk, length};
ghost use Rattle.rset.specs.declared.TheConstants.{SEATS};
ghost use Rattle.rmon.specs.declared.rule.Opening.{Opening};
ghost use Rattle.rmon.specs.Known.{newcomer};
ghost use Rattle.rlooks.specs.Watches.{IsNew};

use crate::lookout::{LOOKS, Lookout};
use rexpand::Groups;
use rmon::{Feed, Monitor};
use std::alloc::{AllocError, Global};
use std::sync::Wait;

/// A feed with two monitors and their looks. One worker feeds, and looks with the first monitor; another only looks, with the
/// second. It is not `Drop`: end it by [`last_looks`](crate::last_looks) or by [`Watch::close`].
pub struct Watch {
    /// Publishes the events of the lock.
    pub feed: Feed,
    /// Is fed before each look.
    pub first: Lookout,
    /// Looks at what happens to be published.
    pub second: Lookout,
}

impl Watch {
    /// A watch of a lock that begins like this. All memory for looks is taken here.
    ///
    /// # Errors
    ///
    /// Out of memory.
    pub fn new<R: Wait>(
        rt: &R,
        alloc: Global,
        groups: Groups,
        seats: u8,
        cap: u8,
    ) -> Result<Watch, AllocError>
        requires seats { (1 ≤ seats) × (seats ≤ SEATS) }
        requires cap { (1 ≤ cap) × (cap ≤ SEATS) }
        ensures { IfOk result (IsNew (record { groups = groups; seats = seats; cap = cap })) }
    {
        let first = Vec::with_capacity(alloc, LOOKS)?;
        let second = Vec::with_capacity(alloc, LOOKS)?;
        let (feed, monitors) = Feed::new(rt, alloc, groups, seats, cap, 2)?;
        let (one, other) = both(&feed, monitors);
        Ok(Watch {
            feed,
            first: Lookout::new(one, first),
            second: Lookout::new(other, second),
        })
    }

    /// Ends the watch, and waits for looks in progress.
    pub fn close<R: Wait>(self, rt: &R) {
        let Watch {
            feed,
            first: _first,
            second: _second,
        } = self;
        feed.close(rt);
    }
}

// The two monitors of a feed.
fn both(feed: &Feed, monitors: Vec<Monitor>) -> (Monitor, Monitor)
    requires { length monitors.items ≡ 2 }
    ensures { (o : Opening) → All (λ m. m ≡ newcomer feed.now.feed o) monitors.items → (result.0 ≡ newcomer feed.now.feed o) × (result.1 ≡ newcomer feed.now.feed o) }
{
    let mut monitors = monitors;
    let _ = feed;
    let other = monitors.pop().unwrap();
    let one = monitors.pop().unwrap();
    (one, other)
}

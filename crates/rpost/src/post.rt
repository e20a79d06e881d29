//! The post of one seat.
use crossbeam_utils::CachePadded;
use crossbeam_utils::sync::{Parker, Unparker};
use std::alloc::{AllocError, Global};
use std::hint;
use std::sync::atomic::{AtomicU64, Ordering};
use std::sync::{Mutex, Wait};

// How often a waiter looks for a token before it parks: about as long as a park and a wake take.
const LOOKS: u32 = 5000;

// No token is there.
const NONE: u64 = 0;

// A token is there.
const TOKEN: u64 = 1;

// No token is there, and the waiter parks.
const PARKED: u64 = 2;

/// Where tokens for a seat are left, and where it waits for one. Two tokens that nobody has taken are one.
///
/// Leaving a token only sets the flag, unless the waiter parks: then it has to be woken.
#[derive(Drop)]
pub(crate) struct Post {
    flag: CachePadded<AtomicU64>,
    parker: Mutex<Option<Parker>>,
    unparker: Mutex<Unparker>,
}

impl Post {
    /// A post with no token.
    ///
    /// # Errors
    ///
    /// Out of memory.
    pub(crate) fn new(alloc: Global) -> Result<Post, AllocError> {
        let parker = Parker::new(alloc)?;
        let unparker = parker.unparker().clone()?;
        Ok(Post {
            flag: CachePadded::new(AtomicU64::new(NONE)),
            parker: Mutex::new(Some(parker)),
            unparker: Mutex::new(unparker),
        })
    }

    /// Leaves a token, and wakes the waiter if it parks.
    pub(crate) fn put<R: Wait>(&self, rt: &R) {
        if self.flag.swap(TOKEN, Ordering::SeqCst) == PARKED {
            self.unparker.lock(rt).unpark();
        }
    }

    /// Takes a token, or waits if there is none: looks for a while, and then parks. If another thread already waits here, it
    /// returns at once.
    pub(crate) fn rest<R: Wait>(&self, rt: &R) {
        if !self.comes_soon() {
            let marked = self
                .flag
                .compare_exchange(NONE, PARKED, Ordering::SeqCst, Ordering::SeqCst);
            if marked.is_ok() {
                self.park(rt);
            }
        }
        // Whatever was reported before this is in the locked state, which the waiter looks at next.
        self.flag.store(NONE, Ordering::SeqCst);
    }

    // Whether a token is there, or comes soon.
    fn comes_soon(&self) -> bool {
        for _ in 0..LOOKS {
            if self.flag.load(Ordering::SeqCst) == TOKEN {
                return true;
            }
            hint::spin_loop();
        }
        false
    }

    // Takes the parker out, parks until a token wakes it, and puts the parker back.
    fn park<R: Wait>(&self, rt: &R) {
        if let Some(parker) = self.take(rt) {
            parker.park(rt);
            self.put_back(rt, parker);
        }
    }

    fn take<R: Wait>(&self, rt: &R) -> Option<Parker> {
        self.parker.lock(rt).take()
    }

    fn put_back<R: Wait>(&self, rt: &R, parker: Parker) {
        let mut place = self.parker.lock(rt);
        *place = Some(parker);
    }
}

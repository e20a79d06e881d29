//! A pace that is seen: it is shown looks at the run while the tasks run.
use crate::tools::run_with;
use rmon::Look;
use rnlp_cli::ToolStatus;
use rrun::Pace;
use std::alloc::{AllocError, Global};
use std::sync::Wait;
use std::sync::atomic::{AtomicU64, Ordering};
use std::test::Fail;
use std::thread::Threads;

// How many looks the second section waits for.
const WANTED: u64 = 3;

// How often it looks for them.
const LOOKS: u64 = 1_000_000_000;

/// The second section of the only task lasts until so many looks were right: one request is complete, one is incomplete,
/// and one task holds something.
#[derive(Drop)]
struct Seen {
    begun: AtomicU64,
    ended: AtomicU64,
    right: AtomicU64,
    most: AtomicU64,
    back: AtomicU64,
}

impl Seen {
    fn new() -> Seen {
        Seen {
            begun: AtomicU64::new(0),
            ended: AtomicU64::new(0),
            right: AtomicU64::new(0),
            most: AtomicU64::new(0),
            back: AtomicU64::new(0),
        }
    }
}

impl Pace for Seen {
    fn section(&self, _task: u8, k: u64) {
        if k != 1 {
            return;
        }
        self.begun.store(1, Ordering::SeqCst);
        for _ in 0..LOOKS {
            if self.right.load(Ordering::SeqCst) >= WANTED {
                return;
            }
        }
    }

    fn turn(&self) {}

    fn is_seen(&self) -> bool {
        true
    }

    fn waits_for_look(&self) -> bool {
        for _ in 0..LOOKS {
            if self.ended.load(Ordering::SeqCst) == 1 {
                return false;
            }
            if self.begun.load(Ordering::SeqCst) == 1 {
                return true;
            }
        }
        false
    }

    fn look(&self, look: &Look, completed: u64) {
        if completed == 1 && look.incomplete == 1 && look.holding == 1 {
            self.right.fetch_add(1, Ordering::SeqCst);
        }
        if completed < self.most.load(Ordering::SeqCst) {
            self.back.fetch_add(1, Ordering::SeqCst);
        }
        self.most.store(completed, Ordering::SeqCst);
    }

    fn end(&self) {
        self.ended.store(1, Ordering::SeqCst);
    }
}

// Whether a run was done that showed the looks which its second section waits for, none of which went back.
fn is_shown<R: Threads + Wait + Sync>(rt: &R, alloc: Global) -> Result<bool, AllocError> {
    let script =
        b"rnlp,1\nresource,a\ntask,t1\nwrite,a,1\nfinish\nwrite,a,1\nadd,a,1\nfinish\nend\n";
    let seen = Seen::new();
    let ran = run_with(rt, alloc, script, &[], &[], &seen)?;
    let all = seen.right.load(Ordering::SeqCst) >= WANTED;
    let on = seen.back.load(Ordering::SeqCst) == 0 && seen.ended.load(Ordering::SeqCst) == 1;
    Ok(ran.status == ToolStatus::Done && all && on)
}

#[test]
fn a_pace_that_is_seen_is_shown_the_run(rt: HostRuntime) -> Result<(), Fail> {
    let shown = is_shown(&rt, rt.alloc())?;
    assert!(rt; shown);
    Ok(())
}

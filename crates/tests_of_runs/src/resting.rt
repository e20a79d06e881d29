//! A waiter rests: it looks a few times only, however long the section lasts that it waits for.
use crate::tools::run_with;
use rnlp_cli::ToolStatus;
use rrun::Pace;
use std::alloc::{AllocError, Global};
use std::sync::Wait;
use std::sync::atomic::{AtomicU64, Ordering};
use std::test::Fail;
use std::thread::Threads;

// How often the first section looks whether somebody waits for it.
const LOOKS: u64 = 1_000_000_000;

// How long it lasts after that, in loads of the count.
const LASTS: u64 = 100_000_000;

/// Counts the looks in vain. The first section goes on once there was one, and lasts long after it.
#[derive(Drop)]
struct Counting {
    begun: AtomicU64,
    turns: AtomicU64,
}

impl Pace for Counting {
    fn section(&self, _task: u8, _k: u64) {
        if self.begun.fetch_add(1, Ordering::SeqCst) > 0 {
            return;
        }
        for _ in 0..LOOKS {
            if self.turns.load(Ordering::SeqCst) > 0 {
                break;
            }
        }
        for _ in 0..LASTS {
            let _ = self.turns.load(Ordering::SeqCst);
        }
    }

    fn turn(&self) {
        self.turns.fetch_add(1, Ordering::SeqCst);
    }
}

// How often a task looked in vain that waits for a long section of another; None if the run was not done.
fn looks_in_vain<R: Threads + Wait + Sync>(
    rt: &R,
    alloc: Global,
) -> Result<Option<u64>, AllocError> {
    let script =
        b"rnlp,1\nresource,a\ntask,t1\nwrite,a,1\nfinish\ntask,t2\nwrite,a,1\nfinish\nend\n";
    let counting = Counting {
        begun: AtomicU64::new(0),
        turns: AtomicU64::new(0),
    };
    let ran = run_with(rt, alloc, script, &[], &[], &counting)?;
    let looks = counting.turns.load(Ordering::SeqCst);
    Ok((ran.status == ToolStatus::Done).then_some(looks))
}

#[test]
fn a_waiter_looks_a_few_times_only(rt: HostRuntime) -> Result<(), Fail> {
    let looks = looks_in_vain(&rt, rt.alloc())?;
    assert!(rt; matches!(looks, Some(1..=100)));
    Ok(())
}

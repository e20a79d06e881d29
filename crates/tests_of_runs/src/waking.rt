//! Waiters that rest at the same time, each for a resource of its own: each is woken by the task that held its resource.
use crate::tools::run_with;
use rnlp_cli::ToolStatus;
use rrun::Pace;
use std::alloc::{AllocError, Global};
use std::sync::Wait;
use std::sync::atomic::{AtomicU64, Ordering};
use std::test::Fail;
use std::thread::Threads;

// How many resources there are. Two tasks write each: whichever comes first holds it, and the other waits.
const PAIRS: u8 = 4;

// How often a section looks for what others do.
const LOOKS: u64 = 100_000_000;

// How long it lasts before that, in loads of a count: so long that those who wait rest.
const LASTS: u64 = 30_000_000;

// How many looks in vain all waiters may make together.
const MOST: u64 = 400;

/// Each first section of a resource lasts until all first sections have begun, their waiters rest, and the second
/// sections of all resources before its own have begun. So they end one after another, and each end lets one waiter go.
#[derive(Drop)]
struct OneByOne {
    begun: [AtomicU64; 4],
    turns: AtomicU64,
    late: AtomicU64,
}

impl OneByOne {
    fn new() -> OneByOne {
        OneByOne {
            begun: [
                AtomicU64::new(0),
                AtomicU64::new(0),
                AtomicU64::new(0),
                AtomicU64::new(0),
            ],
            turns: AtomicU64::new(0),
            late: AtomicU64::new(0),
        }
    }

    // Whether this many sections of each of the first resources have begun.
    fn have_begun(&self, resources: u8, sections: u64) -> bool {
        for count in self.begun.iter().take(usize::from(resources)) {
            if count.load(Ordering::SeqCst) < sections {
                return false;
            }
        }
        true
    }

    // The same, or whether they begin soon.
    fn begin_soon(&self, resources: u8, sections: u64) -> bool {
        for _ in 0..LOOKS {
            if self.have_begun(resources, sections) {
                return true;
            }
        }
        false
    }

    // Lasts long enough for those who wait to rest.
    fn last(&self) {
        for _ in 0..LASTS {
            let _ = self.turns.load(Ordering::SeqCst);
        }
    }
}

impl Pace for OneByOne {
    fn section(&self, task: u8, _k: u64) {
        let resource = task % PAIRS;
        if self.begun[usize::from(resource)].fetch_add(1, Ordering::SeqCst) > 0 {
            return;
        }
        let held = self.begin_soon(PAIRS, 1);
        self.last();
        let woken = self.begin_soon(resource, 2);
        if !held || !woken {
            self.late.fetch_add(1, Ordering::SeqCst);
        }
    }

    fn turn(&self) {
        self.turns.fetch_add(1, Ordering::SeqCst);
    }
}

// How often all waiters looked in vain; None if the run was not done, or a waiter slept on after its holder was gone.
fn looks_one_by_one<R: Threads + Wait + Sync>(
    rt: &R,
    alloc: Global,
) -> Result<Option<u64>, AllocError> {
    let script = b"rnlp,1\nresource,a\nresource,b\nresource,c\nresource,d\n\
        task,a1\nwrite,a,1\nfinish\ntask,b1\nwrite,b,1\nfinish\ntask,c1\nwrite,c,1\nfinish\ntask,d1\nwrite,d,1\nfinish\n\
        task,a2\nwrite,a,1\nfinish\ntask,b2\nwrite,b,1\nfinish\ntask,c2\nwrite,c,1\nfinish\ntask,d2\nwrite,d,1\nfinish\nend\n";
    let pace = OneByOne::new();
    let ran = run_with(rt, alloc, script, &[], &[], &pace)?;
    let in_time = pace.late.load(Ordering::SeqCst) == 0 && pace.have_begun(PAIRS, 2);
    let looks = pace.turns.load(Ordering::SeqCst);
    Ok((ran.status == ToolStatus::Done && in_time).then_some(looks))
}

#[test]
fn each_waiter_is_woken_by_its_holder(rt: HostRuntime) -> Result<(), Fail> {
    let looks = looks_one_by_one(&rt, rt.alloc())?;
    assert!(rt; matches!(looks, Some(1..=MOST)));
    Ok(())
}

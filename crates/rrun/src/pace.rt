//! How a run reports its progress.
use rmon::Look;

/// The workers of a run call this to say where they are. It answers nothing, and each call has to return by itself.
///
/// Where it `is_seen`, [`run_script`](crate::run_script) lets a monitor look at the run for it, so that no worker is held
/// up: a further worker asks it again and again whether a look is due. If nothing else is said, it is not seen.
pub trait Pace: Sync {
    /// The section number `k` of a task, counted from 0, has what it waited for, and has done nothing yet.
    fn section(&self, task: u8, k: u64);

    /// A worker has looked, and still waits.
    fn turn(&self);

    /// Whether looks at the run are wanted while it goes on.
    fn is_seen(&self) -> bool {
        false
    }

    /// Waits until the next look is due, and answers whether it is; false once all tasks have ended. No worker of a task
    /// calls this.
    fn waits_for_look(&self) -> bool {
        false
    }

    /// A look at the run, by which so many requests were complete.
    fn look(&self, _look: &Look, _completed: u64) {}

    /// All tasks have ended, and no further look is due.
    fn end(&self) {}
}

/// Does nothing.
#[derive(Clone, Copy)]
pub struct NoPace;

impl Pace for NoPace {
    fn section(&self, _task: u8, _k: u64) {}

    fn turn(&self) {}
}

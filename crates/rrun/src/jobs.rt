//! A task with its seat, and how all tasks are run.
ghost use Rattle.std.specs.Prelude.{◌≡◌, ◌<◌, Some, List, length, slice_get};
ghost use Rattle.rrun.specs.Statement.{Statement};
ghost use Rattle.rrun.specs.Jobs.{IsReady, IsDone, AreReady, AreDone};

use crate::pace::Pace;
use crate::task::run_task;
use rguard::{Rnlp, Seat};
use rmodel::Machine;
use rscript::Script;
use rvalue::Ledger;
use std::alloc::Global;
use std::sync::Wait;
use std::thread;
use std::thread::Threads;

/// A task with its seat, which is away only while its worker has it; and after how many whole sections it was stopped, if it
/// was.
#[derive(Drop)]
pub(crate) struct Job<P> {
    pub(crate) seat: Option<P>,
    pub(crate) stopped: Option<u64>,
}

/// A job with a seat of a runtime.
pub(crate) type Task<M> = Job<Seat<Ledger, M>>;

/// Does a job: the sections of its task, one after another.
fn work<R: Wait, M: Machine, G: Pace>(
    rt: &R,
    alloc: Global,
    rnlp: &Rnlp<Ledger, M>,
    script: &Script,
    pace: &G,
    task: usize,
    job: &mut Task<M>,
)
    requires task { task < length script.now.tasks }
    requires ready { IsReady rnlp.now script.now task job.old }
    ensures { (statements : List Statement) → slice_get script.now.steps task ≡ Some statements → IsDone rnlp.now script.now task statements job.old job.new }
{
    let seat = job.seat.take().unwrap();
    let task = seat.number();
    match run_task(rt, alloc, rnlp, seat, script, task, pace) {
        Ok(seat) => {
            job.seat = Some(seat);
            job.stopped = None;
        }
        Err(broken) => {
            job.seat = Some(broken.seat);
            job.stopped = Some(broken.sections);
        }
    }
}

/// Does all jobs. It asks for a thread for each. How many there are is not said; if no thread can be made, the jobs are
/// done one after another.
pub(crate) fn work_all<R: Threads + Wait + Sync, M: Machine, G: Pace>(
    rt: &R,
    alloc: Global,
    rnlp: &Rnlp<Ledger, M>,
    script: &Script,
    pace: &G,
    jobs: &mut [Task<M>],
)
    requires count { length jobs.old ≡ length script.now.tasks }
    requires ready { AreReady rnlp.now script.now jobs.old }
    ensures count { length jobs.new ≡ length jobs.old }
    ensures done { AreDone rnlp.now script.now jobs.old jobs.new }
{
    if jobs.is_empty() {
        return;
    }
    let threads = jobs.len();
    thread::for_each_mut(
        rt,
        jobs,
        threads,
        &|task: usize, job: &mut Task<M>|
            requires { (task < length script.now.tasks) × IsReady rnlp.now script.now task job.now }
            ensures { (statements : List Statement) → slice_get script.entry.now.steps task ≡ Some statements → IsDone rnlp.entry.now script.entry.now task statements job.entry.now job.exit.now }
        { work(rt, alloc, rnlp, script, pace, task, job) },
    );
}

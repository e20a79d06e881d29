//! The tasks of a script, on threads.
ghost use Rattle.std.specs.Prelude.{◌≡◌, ◌≤◌, ◌+◌, [], map, length, vec_capacity, All, IsSome, IfOk, IfErr};
ghost use Rattle.rrun.specs.Tasks.{AreSeatsFor};
ghost use Rattle.rrun.specs.Endings.{waiting, resting, AreEnded};

use crate::jobs::{Job, Task, work_all};
use crate::pace::Pace;
use rguard::{Rnlp, Seat};
use rmodel::Machine;
use rscript::Script;
use rvalue::Ledger;
use std::alloc::{AllocError, Global};
use std::sync::Wait;
use std::thread::Threads;

/// A task that has ended.
#[derive(Drop)]
pub struct Ended<M: Machine> {
    /// Its seat, which is idle.
    pub seat: Seat<Ledger, M>,
    /// None if it is complete. If its worker ran out of memory, after how many whole sections: then the next one is broken
    /// off, and the later ones were not begun.
    pub stopped: Option<u64>,
}

/// Runs the tasks of a script at a runtime over what the script declares, each with the seat of its number. It asks for
/// a thread for each. How many there are is not said; if no thread can be made, the tasks are run one after another.
///
/// # Errors
///
/// Out of memory for the run itself. Then no section was begun, and the seats come back as they were.
pub fn run_tasks<R: Threads + Wait + Sync, M: Machine, G: Pace>(
    rt: &R,
    alloc: Global,
    rnlp: &Rnlp<Ledger, M>,
    seats: Vec<Seat<Ledger, M>>,
    script: &Script,
    pace: &G,
) -> Result<Vec<Ended<M>>, (Vec<Seat<Ledger, M>>, AllocError)>
    requires { AreSeatsFor rnlp.now script.now seats.items }
    ensures ran { IfOk result (λ ended. AreEnded rnlp.entry.now script.entry.now seats.items ended.items) }
    ensures back { IfErr result (λ e. e.0.items ≡ seats.items) }
{
    let Ok(jobs) = Vec::with_capacity(alloc, seats.len()) else {
        return Err((seats, AllocError));
    };
    let Ok(ended) = Vec::with_capacity(alloc, seats.len()) else {
        return Err((seats, AllocError));
    };
    let _ = script.tasks();
    let mut jobs = jobs_of(seats, jobs);
    work_all(rt, alloc, rnlp, script, pace, jobs.as_mut_slice());
    Ok(ended_of(jobs, ended))
}

/// A job for each seat, which was not done yet.
///
/// # Errors
///
/// Out of memory. The seats are dropped.
pub(crate) fn jobs_for<M: Machine>(
    alloc: Global,
    seats: Vec<Seat<Ledger, M>>,
) -> Result<Vec<Task<M>>, AllocError>
    ensures { IfOk result (λ jobs. jobs.items ≡ map waiting seats.items) }
{
    let room = Vec::with_capacity(alloc, seats.len())?;
    Ok(jobs_of(seats, room))
}

// A job for each seat, in a list with enough room.
fn jobs_of<M: Machine>(seats: Vec<Seat<Ledger, M>>, room: Vec<Task<M>>) -> Vec<Task<M>>
    requires empty { room.items ≡ [] }
    requires room { length seats.items ≤ vec_capacity room }
    ensures { result.items ≡ map waiting seats.items }
{
    let mut jobs = room;
    for seat in seats {
        jobs.push_reserved(Job {
            seat: Some(seat),
            stopped: None,
        });
    }
    jobs
}

/// How the jobs ended, in a list with enough room.
pub(crate) fn ended_of<M: Machine>(jobs: Vec<Task<M>>, room: Vec<Ended<M>>) -> Vec<Ended<M>>
    requires there { All (λ job. IsSome job.seat) jobs.items }
    requires empty { room.items ≡ [] }
    requires room { length jobs.items ≤ vec_capacity room }
    ensures { jobs.items ≡ map resting result.items }
{
    let mut ended = room;
    for job in jobs {
        let Job { seat, stopped } = job;
        let seat = seat.unwrap();
        ended.push_reserved(Ended { seat, stopped });
    }
    ended
}

//! Tasks on running threads, each with a seat of its own.
ghost use Rattle.std.specs.Prelude.{◌≡◌, ◌<◌, ◌≤◌, length, IsSomeAnd, All, IfOk};
ghost use Rattle.rset.specs.declared.TheConstants.{SEATS, RESOURCES};
ghost use Rattle.rguard.specs.Resting.{Rests, all_with};

use crate::closing::{Left, closed, ledger_of};
use crate::sections::{OPENING, Place, Runtime, move_in, opened, read_in, write_in};
use rlock::{Kept, Pass};
use rmodel::Machine;
use rplain::Plain;
use rset::{RESOURCES, ResourceSet};
use rstate::State;
use rvalue::{Edit, Ledger};
use std::alloc::{AllocError, Global};
use std::process::Abort;
use std::sync::Wait;
use std::test::Fail;
use std::thread;
use std::thread::Threads;

/// What a task does again and again.
#[derive(Clone, Copy)]
pub enum Work {
    /// It adds 1 to these.
    Add(ResourceSet),
    /// It takes 1 from each of the first, and adds 1 to each of the others.
    Move(ResourceSet, ResourceSet),
    /// It reads what is declared together, whose sum is this.
    Read(u64),
}

/// A task: its seat, which is away only while it is at work, what it does, and whether all of that was as it should be.
#[derive(Drop)]
pub struct Job<S: Kept> {
    pub seat: Option<Pass<S>>,
    pub work: Work,
    pub right: bool,
}

type Task<M> = Job<State<Ledger, M>>;

// One section of a task, and whether it was as it should be.
fn section<R: Wait, M: Machine>(
    rt: &R,
    alloc: Global,
    lock: &Runtime<M>,
    seat: Place<M>,
    group: ResourceSet,
    work: Work,
) -> (Place<M>, bool)
    requires { Rests (all_with group) lock.now seat }
    ensures { Rests (all_with group) lock.now result.0 }
{
    match work {
        Work::Add(set) => write_in(rt, alloc, lock, seat, group, set, Edit::Add(1)),
        Work::Move(from, to) => move_in(rt, alloc, lock, seat, group, from, to),
        Work::Read(sum) => {
            let (seat, read) = read_in(rt, alloc, lock, seat, group);
            (seat, read == Some(sum))
        }
    }
}

// All sections of a task.
fn run_job<R: Wait, M: Machine>(
    rt: &R,
    alloc: Global,
    lock: &Runtime<M>,
    group: ResourceSet,
    sections: u32,
    job: &mut Task<M>,
)
    requires { IsSomeAnd job.old.seat (Rests (all_with group) lock.now) }
    ensures { IsSomeAnd job.new.seat (Rests (all_with group) lock.now) }
{
    let mut seat = job.seat.take().unwrap();
    let mut right = true;
    for _ in 0..sections {
        let (next, done) = section(rt, alloc, lock, seat, group, job.work);
        seat = next;
        right = right && done;
    }
    job.seat = Some(seat);
    job.right = right;
}

// The tasks, each on a thread of its own.
fn run_all<R: Threads + Wait + Sync, M: Machine>(
    rt: &R,
    alloc: Global,
    lock: &Runtime<M>,
    group: ResourceSet,
    sections: u32,
    mut jobs: Vec<Task<M>>,
) -> Vec<Task<M>>
    requires { All (λ j. IsSomeAnd j.seat (Rests (all_with group) lock.now)) jobs.items }
    ensures { All (λ j. IsSomeAnd j.seat (Rests (all_with group) lock.now)) result.items }
{
    if jobs.is_empty() {
        return jobs;
    }
    let threads = jobs.len();
    thread::for_each_mut(
        rt,
        jobs.as_mut_slice(),
        threads,
        &|_task: usize, job: &mut Task<M>|
            requires { IsSomeAnd job.now.seat (Rests (all_with group) lock.now) }
            ensures { IsSomeAnd job.exit.now.seat (Rests (all_with group) lock.entry.now) }
        { run_job(rt, alloc, lock, group, sections, job) },
    );
    jobs
}

// The tasks at their work.
fn jobs_for(
    rt: &impl Abort,
    alloc: Global,
    lock: &Runtime<Plain>,
    group: ResourceSet,
    seats: Vec<Place<Plain>>,
    works: &[Work],
) -> Result<Vec<Task<Plain>>, AllocError>
    requires { All (Rests (all_with group) lock.now) seats.items }
    ensures { IfOk result (λ v. All (λ j. IsSomeAnd j.seat (Rests (all_with group) lock.now)) v.items) }
{
    let _ = lock;
    let _ = group.len();
    let mut jobs = Vec::new(alloc);
    for seat in seats {
        let number = usize::from(seat.number());
        assert!(rt; number < works.len());
        jobs.push(Job {
            work: works[number],
            seat: Some(seat),
            right: false,
        })?;
    }
    Ok(jobs)
}

// The seats of the tasks, after checking that each of them did all as it should.
fn seats_of(
    rt: &impl Abort,
    alloc: Global,
    lock: &Runtime<Plain>,
    group: ResourceSet,
    jobs: Vec<Task<Plain>>,
) -> Result<Vec<Place<Plain>>, AllocError>
    requires { All (λ j. IsSomeAnd j.seat (Rests (all_with group) lock.now)) jobs.items }
    ensures { IfOk result (λ v. All (Rests (all_with group) lock.now) v.items) }
{
    let _ = lock;
    let _ = group.len();
    let mut seats = Vec::new(alloc);
    for job in jobs {
        assert!(rt; job.right);
        if let Some(seat) = job.seat {
            seats.push(seat)?;
        }
    }
    Ok(seats)
}

// Closes a runtime where each of these tasks had a thread of its own, and made this many sections.
fn left_by<R: Threads + Wait + Abort + Sync>(
    rt: &R,
    alloc: Global,
    group: ResourceSet,
    works: &[Work],
    sections: u32,
) -> Result<Left<Ledger>, AllocError>
    requires some { 0 < length works.now }
    requires few { length works.now ≤ SEATS }
{
    let count = works.len() as u8;
    let (lock, seats) = opened(alloc, group, count)?;
    let jobs = jobs_for(rt, alloc, &lock, group, seats, works)?;
    let jobs = run_all(rt, alloc, &lock, group, sections, jobs);
    let seats = seats_of(rt, alloc, &lock, group, jobs)?;
    Ok(closed(rt, lock, group, seats, count))
}

// The set of the resources below a number.
fn first_resources(count: u8) -> ResourceSet
    requires { count ≤ RESOURCES }
{
    let mut set = ResourceSet::empty();
    for l in 0..count {
        set = set.with(l);
    }
    set
}

#[test]
fn eight_tasks_write_one_record(rt: HostRuntime) -> Result<(), Fail> {
    let one = ResourceSet::one(0);
    let left = left_by(&rt, rt.alloc(), one, &[Work::Add(one); 8], 1000)?;
    let ledger = ledger_of(&rt, &left, 0);
    assert!(rt;
        left.history.len() == 16_000 && ledger.edits == 8000 && ledger.balance == OPENING + 8000
    );
    Ok(())
}

#[test]
fn readers_see_one_sum(rt: HostRuntime) -> Result<(), Fail> {
    let all = first_resources(64);
    let (a, b) = (ResourceSet::one(0), ResourceSet::one(63));
    let read = Work::Read(64 * OPENING);
    let works = [read, Work::Move(a, b), read, Work::Move(b, a)];
    let left = left_by(&rt, rt.alloc(), all, &works, 200)?;
    let (first, last) = (ledger_of(&rt, &left, 0), ledger_of(&rt, &left, 63));
    assert!(rt;
        left.history.len() == 1600
            && first.edits == 400
            && last.edits == 400
            && first.balance == OPENING
    );
    Ok(())
}

//! Threads that make sections at one runtime.
ghost use Rattle.std.specs.Prelude.{◌≡◌, ℕ, ◌%◌, ◌^◌, ◌<◌, ◌≤◌, length, map, sum_by, All, IsTrue, IsSomeAnd, IfOk, IfSome, slice_index_or};
ghost use Rattle.std.specs.Arc.{arc_value};
ghost use Rattle.rset.specs.declared.TheConstants.{SEATS, RESOURCES};
ghost use Rattle.rset.specs.Sets.{rising};
ghost use Rattle.rexpand.specs.Groups.{no_groups};
ghost use Rattle.rguard.specs.Seats.{SeatOf};
ghost use Rattle.rvalue.specs.declared.ledger.Ledger.{Ledger};
ghost use Rattle.rvalue.specs.declared.ledger.Edit.{Edit};
ghost use Rattle.rguard.specs.Resting.{Rests};
ghost use Rattle.bench_sections.specs.Measure.{records_from, first_record, writes_at, ones_asked, IsNew, HasCapOfSeats, HasMade, HasRun, HasMadeAll, IsSumLeft};

use crate::section::made_in;
use crate::words::Asked;
use rexpand::Groups;
use rguard::{Rnlp, Seat};
use rlock::{Kept, Pass};
use rmodel::Machine;
use rplain::Plain;
use rset::{RESOURCES, ResourceSet};
use rstate::State;
use rvalue::Ledger;
use std::alloc::{AllocError, Global};
use std::sync::{Arc, Wait};
use std::thread;
use std::thread::Threads;

// A thread: its seat, which is away only while it is at work, what its sections write, and whether all of them did.
#[derive(Drop)]
struct Job<S: Kept> {
    seat: Option<Pass<S>>,
    set: ResourceSet,
    done: bool,
}

type Task<M> = Job<State<Ledger, M>>;

// A runtime over a ledger for each resource, and its seats, none of which has done anything.
fn opened(
    alloc: Global,
    seats: u8,
) -> Result<(Rnlp<Ledger, Plain>, Vec<Seat<Ledger, Plain>>), AllocError>
    requires some { 0 < seats }
    requires few { seats ≤ SEATS }
    ensures count { IfOk result (λ r. r.0.passes ≡ seats) }
    ensures all { IfOk result (λ r. length r.1.items ≡ seats) }
    ensures seats { IfOk result (λ r. All (Rests (no_groups RESOURCES) r.0) r.1.items) }
    ensures new { IfOk result (λ r. All IsNew r.1.items) }
    ensures cap { IfOk result (λ r. All HasCapOfSeats r.1.items) }
{
    let groups = Groups::new(alloc, RESOURCES as u8)?;
    let machine = Plain::new(alloc, groups, seats, seats)?;
    let values = vec![in alloc; Ledger::new(); RESOURCES as usize]?;
    let (lock, seats) = Rnlp::<Ledger, Plain>::new(alloc, machine, values, seats)?;
    Ok((lock, seats))
}

// This many resources from this one on, as far as there are any.
fn resources_from(first: u32, count: u8) -> ResourceSet
    ensures { rising result ≡ records_from first count }
{
    let mut set = ResourceSet::empty();
    for k in 0..count {
        let l = u64::from(first) + u64::from(k);
        if l < u64::from(RESOURCES) {
            set = set.with(l as u8);
        }
    }
    set
}

// Whether the section with this number writes.
fn writes_at(asked: &Asked, k: u32) -> bool
    ensures { result ≡ writes_at asked.now k }
{
    !asked.reads || k % 10 == 9
}

// All sections of a thread.
fn run_job<R: Wait, M: Machine>(
    rt: &R,
    alloc: Global,
    lock: &Rnlp<Ledger, M>,
    asked: &Asked,
    job: &mut Task<M>,
)
    requires { IsSomeAnd job.old.seat (HasMade asked.now lock.now job.old.set 0) }
    ensures { IsSomeAnd job.new.seat (HasRun asked.now lock.now job.new.done) }
{
    let mut seat = job.seat.take().unwrap();
    let mut done = true;
    for k in 0..asked.sections {
        let (next, made) = made_in(rt, alloc, lock, seat, job.set, writes_at(asked, k));
        seat = next;
        done = done && made;
    }
    job.seat = Some(seat);
    job.done = done;
}

// The jobs, each on a thread of its own.
fn run_all<R: Threads + Wait + Sync, M: Machine>(
    rt: &R,
    alloc: Global,
    lock: &Rnlp<Ledger, M>,
    asked: &Asked,
    mut jobs: Vec<Task<M>>,
) -> Vec<Task<M>>
    requires { All (λ j. IsSomeAnd j.seat (HasMade asked.now lock.now j.set 0)) jobs.items }
    ensures { All (λ j. IsSomeAnd j.seat (HasRun asked.now lock.now j.done)) result.items }
{
    if jobs.is_empty() {
        return jobs;
    }
    let threads = jobs.len();
    thread::for_each_mut(
        rt,
        jobs.as_mut_slice(),
        threads,
        &|_task: usize, job: &mut Task<M>|
            requires { IsSomeAnd job.now.seat (HasMade asked.now lock.now job.now.set 0) }
            ensures { IsSomeAnd job.exit.now.seat (HasRun asked.entry.now lock.entry.now job.exit.now.done) }
        { run_job(rt, alloc, lock, asked, job) },
    );
    jobs
}

// The first record of a thread.
fn first_of(asked: &Asked, thread: u8) -> u32
    ensures { result ≡ first_record asked.now thread }
{
    if asked.apart {
        u32::from(thread) * u32::from(asked.resources)
    } else {
        0
    }
}

// What each thread is to do. Its seat has made no section yet.
fn jobs_for<M: Machine>(
    alloc: Global,
    lock: &Rnlp<Ledger, M>,
    seats: Vec<Seat<Ledger, M>>,
    asked: &Asked,
) -> Result<Vec<Task<M>>, AllocError>
    requires rest { All (Rests (no_groups RESOURCES) lock.now) seats.items }
    requires new { All IsNew seats.items }
    ensures { IfOk result (λ v. All (λ j. IsSomeAnd j.seat (HasMade asked.now lock.now j.set 0)) v.items) }
{
    // For the proof, whose clauses mention the lock.
    let _ = lock;
    let mut jobs = Vec::new(alloc);
    for seat in seats {
        let first = first_of(asked, seat.number());
        jobs.push(Job {
            seat: Some(seat),
            set: resources_from(first, asked.resources),
            done: false,
        })?;
    }
    Ok(jobs)
}

// Whether all sections of all threads did everything.
fn are_done<M: Machine>(jobs: &[Task<M>]) -> bool
    ensures { IsTrue result → All (λ j. IsTrue j.done) jobs.now }
{
    for job in jobs {
        if !job.done {
            return false;
        }
    }
    true
}

// The seats of the threads, each of which made all of its sections.
fn seats_of(
    alloc: Global,
    lock: &Rnlp<Ledger, Plain>,
    asked: &Asked,
    jobs: Vec<Task<Plain>>,
) -> Result<Vec<Seat<Ledger, Plain>>, AllocError>
    requires { All (λ j. IsSomeAnd j.seat (HasMadeAll asked.now lock.now)) jobs.items }
    ensures { IfOk result (λ v. All (HasMadeAll asked.now lock.now) v.items) }
{
    // For the proof, whose clauses mention both.
    let _ = lock;
    let _ = asked;
    let mut seats = Vec::new(alloc);
    for job in jobs {
        if let Some(seat) = job.seat {
            seats.push(seat)?;
        }
    }
    Ok(seats)
}

// Whether the seats are numbered from 0 in their order.
fn are_in_order<M: Machine>(seats: &[Seat<Ledger, M>]) -> bool
    ensures { IsTrue result → (k : ℕ) (d : SeatOf Ledger Edit) → k < length seats.now → (slice_index_or seats.now k d).number ≡ k }
{
    for (k, seat) in seats.iter().enumerate() {
        if usize::from(seat.number()) != k {
            return false;
        }
    }
    true
}

// What is in these ledgers together, modulo 2^64.
fn sum_of(ledgers: &[Arc<Ledger, Global>]) -> u64
    ensures { result ≡ sum_by (λ ledger. ledger.balance) (map arc_value ledgers.now) % 2 ^ 64 }
{
    let mut sum = 0u64;
    for ledger in ledgers {
        sum = sum.wrapping_add(ledger.balance);
    }
    sum
}

// Closes the runtime: what is in all ledgers together. None if a seat is missing.
fn sum_left<M: Machine>(
    lock: Rnlp<Ledger, M>,
    seats: Vec<Seat<Ledger, M>>,
    count: u8,
) -> Option<u64>
    requires rest { All (Rests (no_groups RESOURCES) lock) seats.items }
    requires count { lock.passes ≡ count }
    ensures { IfSome result (IsSumLeft seats.items count) }
{
    if seats.len() != usize::from(count) {
        return None;
    }
    if !are_in_order(seats.as_slice()) {
        return None;
    }
    let (_, values, _) = lock.close(seats);
    Some(sum_of(values.as_slice()))
}

/// What is in all ledgers together after each thread has made its sections: just the 1s that they were asked to add.
/// None if a section was not done, or if there was no memory.
pub fn measured<R: Threads + Wait + Sync>(rt: &R, alloc: Global, asked: &Asked) -> Option<u64>
    requires some { 0 < asked.now.threads }
    requires few { asked.now.threads ≤ SEATS }
    ensures { IfSome result (λ sum. sum ≡ ones_asked asked.now) }
{
    // Read here for the proof that the sum fits in 64 bits.
    let _sections = asked.sections;
    let (lock, seats) = opened(alloc, asked.threads).ok()?;
    let jobs = jobs_for(alloc, &lock, seats, asked).ok()?;
    let jobs = run_all(rt, alloc, &lock, asked, jobs);
    if !are_done(jobs.as_slice()) {
        return None;
    }
    let seats = seats_of(alloc, &lock, asked, jobs).ok()?;
    sum_left(lock, seats, asked.threads)
}

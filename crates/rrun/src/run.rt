//! The run of a script, from its beginning to its report.
ghost use Rattle.std.specs.Prelude.{◌≡◌, ◌≤◌, [], true, false, is_some, map, replicate, length, vec_capacity, All, IsSome, IfOk, IfErr, OnErr};
ghost use Rattle.std.specs.List.{list_any};
ghost use Rattle.rtrace_form.specs.Written.{MayBeWritten};
ghost use Rattle.rtrace_write.specs.Report.{told_by};
ghost use Rattle.rvalue.specs.Ledgers.{opening_ledger};
ghost use Rattle.rrun.specs.Endings.{AreLeftBy};
ghost use Rattle.rrun.specs.Tasks.{AreSeatsFor};
ghost use Rattle.rrun.specs.Reporting.{HaveEnded, HasOpened, IsReportOf, IsReportOfRun};
ghost use Rattle.rrun.specs.Steps.{list_steps, opening_for};
ghost use Rattle.rwatch.specs.Seen.{watched_after};

use crate::jobs::Task;
use crate::monitored::run_all_monitored;
use crate::pace::Pace;
use crate::reporting::run_of;
use crate::tasks::{Ended, ended_of, run_tasks};
use rguard::{Receipt, Rnlp, Seat};
use rmodel::Machine;
use rplain::Plain;
use rscript::Script;
use rtrace_write::Report;
use rvalue::{Edit, Ledger};
use std::alloc::{AllocError, Global};
use std::sync::Wait;
use std::thread::Threads;

/// A runtime with its seats.
type Opened<M> = (Rnlp<Ledger, M>, Vec<Seat<Ledger, M>>);

/// The seats of a runtime, and after how many whole sections each of their tasks was stopped, if it was.
pub(crate) type Left<M> = (Vec<Seat<Ledger, M>>, Vec<Option<u64>>);

/// A run of a script.
#[derive(Drop)]
pub struct Run {
    /// What happened. It may be written.
    pub report: Report,
    /// The receipt of the report's history.
    pub receipt: Receipt<Edit>,
    /// For each task, by number: None if it is complete. If its worker ran out of memory, after how many whole sections: then
    /// the next one is broken off, and the later ones were not begun.
    pub stopped: Vec<Option<u64>>,
}

/// Runs a script at a runtime of its own: makes it, runs the tasks, closes it, and gives the report of what happened. A
/// task whose worker runs out of memory is stopped, and the others go on to their ends. If the pace is seen, monitors look at
/// the run for it.
///
/// # Errors
///
/// Out of memory for the run itself, or for the monitors.
pub fn run_all<R: Threads + Wait + Sync, G: Pace>(
    rt: &R,
    alloc: Global,
    script: &Script,
    pace: &G,
) -> Result<Run, AllocError>
    ensures report { IfOk result (λ run. IsReportOfRun script.entry.now run.stopped.items run.report) }
    ensures written { IfOk result (λ run. MayBeWritten (told_by run.report)) }
    ensures receipt { IfOk result (λ run. run.receipt ≡ run.report.entries) }
{
    if pace.is_seen() {
        return run_seen(rt, alloc, script, pace);
    }
    let machine = machine_of(alloc, script)?;
    match run_over(rt, alloc, script, pace, machine) {
        Ok((run, _)) => Ok(run),
        Err(e) => Err(e),
    }
}

// The same with monitors that look at the run for the pace.
fn run_seen<R: Threads + Wait + Sync, G: Pace>(
    rt: &R,
    alloc: Global,
    script: &Script,
    pace: &G,
) -> Result<Run, AllocError>
    ensures report { IfOk result (λ run. IsReportOfRun script.entry.now run.stopped.items run.report) }
    ensures written { IfOk result (λ run. MayBeWritten (told_by run.report)) }
    ensures receipt { IfOk result (λ run. run.receipt ≡ run.report.entries) }
{
    let (run, _) = run_all_monitored(rt, alloc, script, pace)?;
    Ok(run)
}

/// The same as [`run_all`] at a runtime over this machine, which comes back, and with no monitors. Its watchers, if it has
/// any, have been given just the steps of the history.
///
/// # Errors
///
/// Out of memory for the run itself. The machine is dropped.
pub fn run_over<R: Threads + Wait + Sync, M: Machine, G: Pace>(
    rt: &R,
    alloc: Global,
    script: &Script,
    pace: &G,
    machine: M,
) -> Result<(Run, M), AllocError>
    requires { M.state machine ≡ opening_for script.now }
    ensures report { IfOk result (λ r. IsReportOfRun script.entry.now r.0.stopped.items r.0.report) }
    ensures written { IfOk result (λ r. MayBeWritten (told_by r.0.report)) }
    ensures receipt { IfOk result (λ r. r.0.receipt ≡ r.0.report.entries) }
    ensures watched { IfOk result (λ r. M.watched r.1 ≡ watched_after (list_steps (told_by r.0.report)) (M.watched machine)) }
{
    let (rnlp, seats) = open(alloc, script, machine)?;
    let _ = script.tasks();
    match left_behind(rt, alloc, &rnlp, seats, script, pace) {
        Ok((seats, stopped)) => {
            let (closed, machine) = rnlp.close_whole(seats);
            let run = run_of(alloc, script, closed, stopped)?;
            Ok((run, machine))
        }
        Err(e) => Err(e),
    }
}

/// The same as [`run_all`] where no task is stopped: the report of the whole run, with the receipt of its history.
///
/// # Errors
///
/// Out of memory, for the run itself, for one of its tasks, or for the monitors.
pub fn run_script<R: Threads + Wait + Sync, G: Pace>(
    rt: &R,
    alloc: Global,
    script: &Script,
    pace: &G,
) -> Result<(Report, Receipt<Edit>), AllocError>
    ensures report { IfOk result (λ r. IsReportOf script.entry.now r.0) }
    ensures written { IfOk result (λ r. MayBeWritten (told_by r.0)) }
    ensures receipt { IfOk result (λ r. r.1 ≡ r.0.entries) }
{
    let _ = script.tasks();
    let run = run_all(rt, alloc, script, pace)?;
    match whole_run(run) {
        Ok(done) => Ok(done),
        Err(_) => Err(AllocError),
    }
}

/// The report and the receipt of a run in which no task was stopped.
///
/// # Errors
///
/// The run, if one was stopped.
pub fn whole_run(run: Run) -> Result<(Report, Receipt<Edit>), Run>
    ensures none { IfOk result (λ _. list_any is_some run.stopped.items ≡ false) }
    ensures same { IfOk result (λ r. (r.0 ≡ run.report) × (r.1 ≡ run.receipt)) }
    ensures some { OnErr result (list_any is_some run.stopped.items ≡ true) }
    ensures back { IfErr result (λ back. back ≡ run) }
{
    if is_any(run.stopped.as_slice()) {
        return Err(run);
    }
    let Run {
        report,
        receipt,
        stopped: _,
    } = run;
    Ok((report, receipt))
}

// Whether any task was stopped.
fn is_any(stopped: &[Option<u64>]) -> bool
    ensures { result ≡ list_any is_some stopped.now }
{
    stopped.iter().any(|one| one.is_some())
}

/// A machine over what the script declares, with a seat for each task, where nothing was done yet.
///
/// # Errors
///
/// Out of memory.
pub fn machine_of(alloc: Global, script: &Script) -> Result<Plain, AllocError>
    ensures { IfOk result (λ machine. machine.state ≡ opening_for script.now) }
{
    let groups = script.groups().copy(alloc)?;
    let seats = script.tasks().len();
    Plain::new(alloc, groups, seats, seats)
}

/// What each resource of a script is at the beginning: a fresh ledger.
///
/// # Errors
///
/// Out of memory.
pub(crate) fn values_of(alloc: Global, script: &Script) -> Result<Vec<Ledger>, AllocError>
    ensures { IfOk result (λ values. values.items ≡ replicate (length script.now.resources) opening_ledger) }
{
    let resources = script.resources().len();
    vec![in alloc; Ledger::new(); usize::from(resources)]
}

// A runtime over such a machine, where nothing was done yet, with its seats.
fn open<M: Machine>(alloc: Global, script: &Script, machine: M) -> Result<Opened<M>, AllocError>
    requires { M.state machine ≡ opening_for script.now }
    ensures opened { IfOk result (λ r. HasOpened script.now (M.watched machine) r.0 r.1.items) }
    ensures count { IfOk result (λ r. r.0.passes ≡ length script.now.tasks) }
{
    let seats = script.tasks().len();
    let values = values_of(alloc, script)?;
    let (rnlp, all) = Rnlp::new(alloc, machine, values, seats)?;
    Ok((rnlp, all))
}

// Runs all tasks; gives their seats, and after how many sections each of them was stopped, if it was.
fn left_behind<R: Threads + Wait + Sync, M: Machine, G: Pace>(
    rt: &R,
    alloc: Global,
    rnlp: &Rnlp<Ledger, M>,
    seats: Vec<Seat<Ledger, M>>,
    script: &Script,
    pace: &G,
) -> Result<Left<M>, AllocError>
    requires { AreSeatsFor rnlp.now script.now seats.items }
    ensures seats { IfOk result (λ left. AreSeatsFor rnlp.entry.now script.entry.now left.0.items) }
    ensures count { IfOk result (λ left. length left.1.items ≡ length script.entry.now.tasks) }
    ensures ended { IfOk result (λ left. HaveEnded script.entry.now left.1.items seats.items left.0.items) }
{
    let room = Vec::with_capacity(alloc, seats.len())?;
    let flags = Vec::with_capacity(alloc, seats.len())?;
    match run_tasks(rt, alloc, rnlp, seats, script, pace) {
        Ok(ended) => {
            let stopped = stopped_of(ended.as_slice(), flags);
            Ok((seats_of(ended, room), stopped))
        }
        Err((_, e)) => Err(e),
    }
}

/// The seats of jobs, and after how many sections each of their tasks was stopped, if it was.
///
/// # Errors
///
/// Out of memory. The seats are dropped.
pub(crate) fn left_of<M: Machine>(alloc: Global, jobs: Vec<Task<M>>) -> Result<Left<M>, AllocError>
    requires { All (λ job. IsSome job.seat) jobs.items }
    ensures { IfOk result (λ left. AreLeftBy M jobs.items left.0.items left.1.items) }
{
    let room = Vec::with_capacity(alloc, jobs.len())?;
    let flags = Vec::with_capacity(alloc, jobs.len())?;
    let ended = Vec::with_capacity(alloc, jobs.len())?;
    let ended = ended_of(jobs, ended);
    let stopped = stopped_of(ended.as_slice(), flags);
    Ok((seats_of(ended, room), stopped))
}

// After how many sections each of the tasks was stopped, if it was, in a list with enough room.
fn stopped_of<M: Machine>(all: &[Ended<M>], room: Vec<Option<u64>>) -> Vec<Option<u64>>
    requires empty { room.items ≡ [] }
    requires room { length all.now ≤ vec_capacity room }
    ensures { result.items ≡ map (λ ended. ended.stopped) all.now }
{
    let mut stopped = room;
    for ended in all {
        stopped.push_reserved(ended.stopped);
    }
    stopped
}

// The seats of the tasks, in a list with enough room.
fn seats_of<M: Machine>(all: Vec<Ended<M>>, room: Vec<Seat<Ledger, M>>) -> Vec<Seat<Ledger, M>>
    requires empty { room.items ≡ [] }
    requires room { length all.items ≤ vec_capacity room }
    ensures { result.items ≡ map (λ ended. ended.seat) all.items }
{
    let mut seats = room;
    for ended in all {
        let Ended { seat, stopped: _ } = ended;
        seats.push_reserved(seat);
    }
    seats
}

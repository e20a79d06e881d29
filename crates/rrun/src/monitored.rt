//! The run of a script that monitors look at.
ghost use Rattle.std.specs.Prelude.{◌≡◌, Some, map, length, IfOk, OnOk};
ghost use Rattle.std.specs.Arc.{arc_value};
ghost use Rattle.rstate.specs.Histories.{Beginning};
ghost use Rattle.rtrace_form.specs.Written.{MayBeWritten};
ghost use Rattle.rtrace_write.specs.Report.{told_by};
ghost use Rattle.rvalue.specs.Ledgers.{value_after, is_taken};
ghost use Rattle.rvalue.specs.declared.ledger.Ledger.{Ledger};
ghost use Rattle.rlooks.specs.Lookouts.{GoesOn};
ghost use Rattle.rlooks.specs.Watches.{IsNew, MayEnd, MayFeed, HasFed, MayWatch, HasWatched};
ghost use Rattle.rlooks.specs.Workers.{Feeds, events_in};
ghost use Rattle.rlooks.specs.declared.lookout.TheConstants.{ROUNDS};
ghost use Rattle.rrun.specs.Jobs.{AreReady, AreDone};
ghost use Rattle.rrun.specs.Monitors.{AreLooksOf, HasClosedFed, HasGathered, watch_for};
ghost use Rattle.rrun.specs.Reporting.{IsReportOf, IsReportOfRun};

use crate::jobs::{Task, work_all};
use crate::pace::Pace;
use crate::reporting::run_of;
use crate::run::{Run, left_of, machine_of, values_of, whole_run};
use crate::tasks::jobs_for;
use rguard::{Closed, Receipt, Rnlp, Scribe};
use rlooks::{Lookout, Looks, Watch, feed_and_look, feed_from, last_looks, look_rounds};
use rmon::Feed;
use rplain::Plain;
use rscript::Script;
use rtrace_write::Report;
use rvalue::{Edit, Ledger};
use std::alloc::{AllocError, Global};
use std::sync::Wait;
use std::thread::{Threads, join_mut};

/// What a run that monitors look at leaves: its report, the receipt of its history, and the looks.
pub type Monitored = (Report, Receipt<Edit>, Looks);

// What a closed runtime leaves, and after how many sections each of the tasks was stopped, if it was.
type Ran = (Closed<Ledger>, Vec<Option<u64>>);

// Who works at a runtime that is fed: the jobs of the tasks, and the scribe, which is away only while it is at work.
#[derive(Drop)]
struct Team {
    jobs: Vec<Task<Plain>>,
    scribe: Option<Scribe<Ledger, Plain>>,
}

/// The same as [`run_script`](crate::run_script), with two workers more that look at the runtime by monitors while the tasks
/// run. A look takes no lock. One of the two takes a turn before each of its looks, to read what is new; after its rounds it
/// looks whenever the pace says that a look is due.
///
/// # Errors
///
/// Out of memory, for the run itself, for one of its tasks or for one of the two workers.
pub fn run_monitored<R: Threads + Wait + Sync, G: Pace>(
    rt: &R,
    alloc: Global,
    script: &Script,
    pace: &G,
) -> Result<Monitored, AllocError>
    ensures report { IfOk result (λ r. IsReportOf script.entry.now r.0) }
    ensures written { IfOk result (λ r. MayBeWritten (told_by r.0)) }
    ensures receipt { IfOk result (λ r. r.1 ≡ r.0.entries) }
    ensures first { IfOk result (λ r. AreLooksOf (told_by r.0) r.2.0.items) }
    ensures second { IfOk result (λ r. AreLooksOf (told_by r.0) r.2.1.items) }
{
    let _ = script.tasks();
    let (run, looks) = run_all_monitored(rt, alloc, script, pace)?;
    match whole_run(run) {
        Ok((report, receipt)) => Ok((report, receipt, looks)),
        Err(_) => Err(AllocError),
    }
}

/// The same where tasks may be stopped, as in [`run_all`](crate::run_all).
///
/// # Errors
///
/// Out of memory, for the run itself or for one of the two workers.
pub fn run_all_monitored<R: Threads + Wait + Sync, G: Pace>(
    rt: &R,
    alloc: Global,
    script: &Script,
    pace: &G,
) -> Result<(Run, Looks), AllocError>
    ensures report { IfOk result (λ r. IsReportOfRun script.entry.now r.0.stopped.items r.0.report) }
    ensures written { IfOk result (λ r. MayBeWritten (told_by r.0.report)) }
    ensures receipt { IfOk result (λ r. r.0.receipt ≡ r.0.report.entries) }
    ensures first { IfOk result (λ r. AreLooksOf (told_by r.0.report) r.1.0.items) }
    ensures second { IfOk result (λ r. AreLooksOf (told_by r.0.report) r.1.1.items) }
{
    let mut watch = watch_of(rt, alloc, script)?;
    match run_fed(rt, alloc, script, pace, &mut watch) {
        Ok(ran) => report_with_looks(rt, alloc, script, ran, watch),
        Err(e) => {
            watch.close(rt);
            Err(e)
        }
    }
}

// A watch of the runtime of a script.
fn watch_of<R: Wait>(rt: &R, alloc: Global, script: &Script) -> Result<Watch, AllocError>
    ensures { IfOk result (IsNew (watch_for script.now)) }
{
    let groups = script.groups().copy(alloc)?;
    let tasks = script.tasks().len();
    Watch::new(rt, alloc, groups, tasks, tasks)
}

// Runs the tasks of a script with both workers of the watch beside them, and closes the runtime.
fn run_fed<R: Threads + Wait + Sync, G: Pace>(
    rt: &R,
    alloc: Global,
    script: &Script,
    pace: &G,
    watch: &mut Watch,
) -> Result<Ran, AllocError>
    requires { IsNew (watch_for script.now) watch.old }
    ensures closed { IfOk result (λ r. HasClosedFed script.entry.now r.0.0.entries (map arc_value r.0.1.items) r.1.items) }
    ensures receipt { IfOk result (λ r. r.0.2 ≡ r.0.0.entries) }
    ensures watch { IfOk result (λ r. MayEnd (events_in r.0.0.entries) watch.new) }
    ensures began { OnOk result (watch.new.feed.opening ≡ Some (watch_for script.now)) }
{
    let _ = script.tasks();
    let (rnlp, mut team) = gather(alloc, script)?;
    match work_beside(rt, alloc, &rnlp, script, pace, &mut team, watch) {
        Ok(scribe) => {
            let (seats, stopped) = left_of(alloc, team.jobs)?;
            Ok((rnlp.close_fed(seats, scribe), stopped))
        }
        Err((_, e)) => Err(e),
    }
}

// A runtime that is fed, over what the script declares, where nothing was done yet, and who works there.
fn gather(alloc: Global, script: &Script) -> Result<(Rnlp<Ledger, Plain>, Team), AllocError>
    ensures { IfOk result (λ r. HasGathered script.now r.0 r.1.jobs.items r.1.scribe) }
{
    let machine = machine_of(alloc, script)?;
    let values = values_of(alloc, script)?;
    let (rnlp, seats, scribe) = Rnlp::new_fed(alloc, machine, values, script.tasks().len())?;
    let team = Team {
        jobs: jobs_for(alloc, seats)?,
        scribe: Some(scribe),
    };
    Ok((rnlp, team))
}

// Does all jobs, with both workers of the watch beside them. The scribe comes back. If no thread can be made, the jobs are
// done first: a watch may wait for their end.
fn work_beside<R: Threads + Wait + Sync, G: Pace>(
    rt: &R,
    alloc: Global,
    rnlp: &Rnlp<Ledger, Plain>,
    script: &Script,
    pace: &G,
    team: &mut Team,
    watch: &mut Watch,
) -> Result<Scribe<Ledger, Plain>, (Scribe<Ledger, Plain>, AllocError)>
    requires count { length team.old.jobs.items ≡ length script.now.tasks }
    requires ready { AreReady rnlp.now script.now team.old.jobs.items }
    requires watch { MayWatch value_after is_taken (λ (ledger : Ledger). ledger.balance) rnlp.now team.old.scribe watch.old }
    ensures count { length team.new.jobs.items ≡ length team.old.jobs.items }
    ensures done { AreDone rnlp.now script.now team.old.jobs.items team.new.jobs.items }
    ensures watched { HasWatched value_after is_taken (λ (ledger : Ledger). ledger.balance) rnlp.now team.old.scribe watch.old result watch.new }
{
    let Team { jobs, scribe } = team;
    let (back, _) = join_mut(
        rt,
        &mut ||
            requires { MayWatch value_after is_taken (λ (ledger : Ledger). ledger.balance) rnlp.now scribe.now watch.now }
            ensures { HasWatched value_after is_taken (λ (ledger : Ledger). ledger.balance) rnlp.entry.now scribe.entry.now watch.entry.now result watch.exit.now }
        { watch_all(rt, alloc, rnlp, pace, scribe, watch) },
        &mut ||
            requires { (length jobs.now.items ≡ length script.now.tasks) × AreReady rnlp.now script.now jobs.now.items }
            ensures { (length jobs.exit.now.items ≡ length jobs.entry.now.items) × AreDone rnlp.entry.now script.entry.now jobs.entry.now.items jobs.exit.now.items }
        { work_to_the_end(rt, alloc, rnlp, script, pace, jobs.as_mut_slice()) },
    );
    back
}

// Does all jobs, and then says that they are done, so that nobody waits for a look any longer.
fn work_to_the_end<R: Threads + Wait + Sync, G: Pace>(
    rt: &R,
    alloc: Global,
    rnlp: &Rnlp<Ledger, Plain>,
    script: &Script,
    pace: &G,
    jobs: &mut [Task<Plain>],
)
    requires count { length jobs.old ≡ length script.now.tasks }
    requires ready { AreReady rnlp.now script.now jobs.old }
    ensures count { length jobs.new ≡ length jobs.old }
    ensures done { AreDone rnlp.now script.now jobs.old jobs.new }
{
    work_all(rt, alloc, rnlp, script, pace, jobs);
    pace.end();
}

// The rounds of both workers of a watch. The scribe is at its place.
fn watch_all<R: Threads + Wait + Sync, G: Pace>(
    rt: &R,
    alloc: Global,
    rnlp: &Rnlp<Ledger, Plain>,
    pace: &G,
    place: &mut Option<Scribe<Ledger, Plain>>,
    watch: &mut Watch,
) -> Result<Scribe<Ledger, Plain>, (Scribe<Ledger, Plain>, AllocError)>
    requires { MayWatch value_after is_taken (λ (ledger : Ledger). ledger.balance) rnlp.now place.old watch.old }
    ensures { HasWatched value_after is_taken (λ (ledger : Ledger). ledger.balance) rnlp.now place.old watch.old result watch.new }
{
    let Watch {
        feed,
        first,
        second,
    } = watch;
    let (_, back) = join_mut(
        rt,
        &mut ||
            requires { length second.now.looks ≡ 0 }
            ensures { GoesOn ROUNDS second.entry.now second.exit.now }
        { look_rounds(rt, second) },
        &mut ||
            requires { MayFeed value_after is_taken (λ (ledger : Ledger). ledger.balance) rnlp.now place.now feed.now first.now }
            ensures { HasFed value_after is_taken (λ (ledger : Ledger). ledger.balance) rnlp.entry.now place.entry.now feed.entry.now first.entry.now result feed.exit.now first.exit.now }
        { feed_and_show(rt, alloc, rnlp, pace, place, feed, first) },
    );
    back
}

// The rounds of the worker that feeds, and then one more for each look that is due while the tasks run.
fn feed_and_show<R: Wait, G: Pace>(
    rt: &R,
    alloc: Global,
    rnlp: &Rnlp<Ledger, Plain>,
    pace: &G,
    place: &mut Option<Scribe<Ledger, Plain>>,
    feed: &mut Feed,
    lookout: &mut Lookout,
) -> Result<Scribe<Ledger, Plain>, (Scribe<Ledger, Plain>, AllocError)>
    requires { MayFeed value_after is_taken (λ (ledger : Ledger). ledger.balance) rnlp.now place.old feed.old lookout.old }
    ensures { HasFed value_after is_taken (λ (ledger : Ledger). ledger.balance) rnlp.now place.old feed.old lookout.old result feed.new lookout.new }
{
    let scribe = feed_from(rt, alloc, rnlp, place, feed, lookout)?;
    Ok(show_looks(rt, alloc, rnlp, pace, scribe, feed, lookout))
}

// A round for each look that is due, which is shown. If memory runs out for one, no more are shown.
fn show_looks<R: Wait, G: Pace>(
    rt: &R,
    alloc: Global,
    rnlp: &Rnlp<Ledger, Plain>,
    pace: &G,
    scribe: Scribe<Ledger, Plain>,
    feed: &mut Feed,
    lookout: &mut Lookout,
) -> Scribe<Ledger, Plain>
    requires { (b : Beginning Ledger) × Feeds value_after is_taken (λ (ledger : Ledger). ledger.balance) rnlp.now b scribe feed.old lookout.old.monitor }
    ensures feeds { (b : Beginning Ledger) → Feeds value_after is_taken (λ (ledger : Ledger). ledger.balance) rnlp.now b scribe feed.old lookout.old.monitor → Feeds value_after is_taken (λ (ledger : Ledger). ledger.balance) rnlp.now b result feed.new lookout.new.monitor }
    ensures on { GoesOn 0 lookout.old lookout.new }
{
    let mut scribe = scribe;
    for _ in rt.forever() {
        if !pace.waits_for_look() {
            return scribe;
        }
        match feed_and_look(rt, alloc, rnlp, scribe, feed, lookout) {
            Ok((back, look)) => {
                pace.look(&look, feed.completed());
                scribe = back;
            }
            Err((back, _)) => return back,
        }
    }
    unreachable!()
}

// A run, and the looks at it, once the last ones were made.
fn report_with_looks<R: Wait>(
    rt: &R,
    alloc: Global,
    script: &Script,
    ran: Ran,
    watch: Watch,
) -> Result<(Run, Looks), AllocError>
    requires closed { HasClosedFed script.now ran.0.0.entries (map arc_value ran.0.1.items) ran.1.items }
    requires receipt { ran.0.2 ≡ ran.0.0.entries }
    requires watch { MayEnd (events_in ran.0.0.entries) watch }
    requires began { watch.feed.opening ≡ Some (watch_for script.now) }
    ensures report { IfOk result (λ r. IsReportOfRun script.now r.0.stopped.items r.0.report) }
    ensures written { IfOk result (λ r. MayBeWritten (told_by r.0.report)) }
    ensures receipt { IfOk result (λ r. r.0.receipt ≡ r.0.report.entries) }
    ensures first { IfOk result (λ r. AreLooksOf (told_by r.0.report) r.1.0.items) }
    ensures second { IfOk result (λ r. AreLooksOf (told_by r.0.report) r.1.1.items) }
{
    let _ = script.tasks();
    let (closed, stopped) = ran;
    let looks = last_looks(rt, alloc, watch, &closed.0)?;
    let run = run_of(alloc, script, closed, stopped)?;
    Ok((run, looks))
}

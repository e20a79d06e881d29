//! The run of a script that is watched.
ghost use Rattle.std.specs.Prelude.{◌≡◌, map, IfOk};
ghost use Rattle.rtrace_form.specs.Written.{MayBeWritten};
ghost use Rattle.rtrace_write.specs.Report.{told_by};
ghost use Rattle.rwatch.specs.Seen.{told_all};
ghost use Rattle.rrun.specs.Reporting.{IsReportOf, IsReportOfRun};
ghost use Rattle.rrun.specs.Steps.{list_steps};

use crate::pace::Pace;
use crate::run::{Run, machine_of, run_over, whole_run};
use rguard::Receipt;
use rscript::Script;
use rtrace_write::Report;
use rvalue::Edit;
use rwatch::Audience;
use rwatching::Watching;
use std::alloc::{AllocError, Global};
use std::sync::Wait;
use std::thread::Threads;

/// The same as [`run_script`](crate::run_script), with watchers: they are under the lock of the run, are given each step in
/// the turn that makes it, and come back at the end.
///
/// # Errors
///
/// Out of memory, for the run itself or for one of its tasks. The watchers are dropped.
pub fn run_watched<R: Threads + Wait + Sync, G: Pace, A: Audience>(
    rt: &R,
    alloc: Global,
    script: &Script,
    pace: &G,
    audience: A,
) -> Result<(Report, Receipt<Edit>, A), AllocError>
    ensures report { IfOk result (λ r. IsReportOf script.entry.now r.0) }
    ensures written { IfOk result (λ r. MayBeWritten (told_by r.0)) }
    ensures receipt { IfOk result (λ r. r.1 ≡ r.0.entries) }
    ensures watched { IfOk result (λ r. A.all r.2 ≡ map (told_all (list_steps (told_by r.0))) (A.all audience)) }
{
    let _ = script.tasks();
    let (run, audience) = run_all_watched(rt, alloc, script, pace, audience)?;
    match whole_run(run) {
        Ok((report, receipt)) => Ok((report, receipt, audience)),
        Err(_) => Err(AllocError),
    }
}

/// The same where tasks may be stopped, as in [`run_all`](crate::run_all).
///
/// # Errors
///
/// Out of memory for the run itself. The watchers are dropped.
pub fn run_all_watched<R: Threads + Wait + Sync, G: Pace, A: Audience>(
    rt: &R,
    alloc: Global,
    script: &Script,
    pace: &G,
    audience: A,
) -> Result<(Run, A), AllocError>
    ensures report { IfOk result (λ r. IsReportOfRun script.entry.now r.0.stopped.items r.0.report) }
    ensures written { IfOk result (λ r. MayBeWritten (told_by r.0.report)) }
    ensures receipt { IfOk result (λ r. r.0.receipt ≡ r.0.report.entries) }
    ensures watched { IfOk result (λ r. A.all r.1 ≡ map (told_all (list_steps (told_by r.0.report))) (A.all audience)) }
{
    let machine = machine_of(alloc, script)?;
    let machine = Watching::new_watched(machine, audience);
    match run_over(rt, alloc, script, pace, machine) {
        Ok((run, machine)) => {
            let audience = machine.into_audience().unwrap();
            Ok((run, audience))
        }
        Err(e) => Err(e),
    }
}

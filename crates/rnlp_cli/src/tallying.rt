// Runs with watchers, and what is written of these.
ghost use Rattle.std.specs.Prelude.{◌≡◌, ◌≤◌, ◌+◌, ◌*◌, ◌++◌, Some, [], map, length, vec_capacity, IfOk, OnErr};
ghost use Rattle.io_ends.specs.Faults.{Rose};
ghost use Rattle.rtrace_form.specs.Written.{MayBeWritten};
ghost use Rattle.rrun.specs.Report.{told_by};
ghost use Rattle.rrun.specs.Reporting.{IsReportOfRun};
ghost use Rattle.rnlp_cli.specs.Forms.{tally_text, told_run};
ghost use Rattle.rnlp_cli.specs.Running.{IsRun};
ghost use Rattle.rnlp_cli.specs.Stopping.{MayBeAside};

use crate::command::RunForm;
use crate::running::hand_out;
use crate::status::ToolStatus;
use crate::stopping::whole_or_aside;
use io_ends::Sink;
use rdrill::{LINE_ROOM, lines_room, push_count, push_piece, push_watchers};
use rguard::Receipt;
use rrun::{Pace, Report, Run, run_all_watched};
use rscript::Script;
use rvalue::Edit;
use rwatch::Audience;
use std::alloc::{AllocError, Global};
use std::sync::Wait;
use std::thread::Threads;

/// Runs a script with the watchers under its lock, writes the report and what they counted, and hands out the receipt.
/// All other memory is taken before the watchers are. A run in which tasks were stopped is put aside, and nothing is written.
pub fn run_tallied<R: Threads + Wait + Sync, K: Sink, G: Pace, A: Audience>(
    rt: &R,
    alloc: Global,
    script: &Script,
    sink: &mut K,
    pace: &G,
    receipts: &mut Vec<Receipt<Edit>>,
    audience: &mut A,
    aside: &mut Option<Run>,
) -> ToolStatus
    ensures run { IsRun RunForm.Tally script.now (K.written sink.old) (K.written sink.new) (K.faults sink.new ≡ K.faults sink.old) (Rose (K.faults sink.old) (K.faults sink.new)) (sink.new ≡ sink.old) receipts.old.items receipts.new.items (A.all audience.old) (A.all audience.new) result }
    ensures aside { MayBeAside script.now aside.old aside.new result }
{
    let Ok(()) = receipts.reserve(1) else {
        return ToolStatus::NoMemory;
    };
    let Ok(mut lines) = lines_room(alloc, audience.count(), 2) else {
        return ToolStatus::NoMemory;
    };
    let Ok(run) = run_heard(rt, alloc, script, pace, audience) else {
        return ToolStatus::NoMemory;
    };
    match whole_or_aside(script, run, aside) {
        Some((report, receipt)) => {
            push_tally(&mut lines, &report, audience);
            hand_out(alloc, &report, &lines, receipt, sink, receipts)
        }
        None => ToolStatus::NoMemory,
    }
}

// Runs a script with the watchers under its lock. They are back before this returns; if memory runs out for the run itself they
// are gone.
fn run_heard<R: Threads + Wait + Sync, G: Pace, A: Audience>(
    rt: &R,
    alloc: Global,
    script: &Script,
    pace: &G,
    audience: &mut A,
) -> Result<Run, AllocError>
    ensures report { IfOk result (λ run. IsReportOfRun script.entry.now run.stopped.items run.report) }
    ensures written { IfOk result (λ run. MayBeWritten (told_by run.report)) }
    ensures receipt { IfOk result (λ run. run.receipt ≡ run.report.entries) }
    ensures watched { IfOk result (λ run. A.all audience.new ≡ told_run (told_by run.report) (A.all audience.old)) }
    ensures gone { OnErr result (A.all audience.new ≡ []) }
{
    let all = audience.take();
    match run_all_watched(rt, alloc, script, pace, all) {
        Ok((run, back)) => {
            *audience = back;
            Ok(run)
        }
        Err(e) => Err(e),
    }
}

// Writes how many events a run had, and what the watchers have counted, into the room that was made for it.
fn push_tally<A: Audience>(lines: &mut Vec<u8>, report: &Report, audience: &A)
    requires empty { lines.old.items ≡ [] }
    requires room { LINE_ROOM * (length (A.all audience.now) + 2) ≤ vec_capacity lines.old }
    ensures { lines.new.items ≡ tally_text (length report.now.entries) (A.all audience.now) }
{
    let events = report.history.len() as u64;
    push_count(lines, b"tally", events);
    push_watchers(lines, audience);
    push_piece(lines, b"end\n");
}

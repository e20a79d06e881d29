// Runs that monitors look at, and what is written of their looks.
ghost use Rattle.std.specs.Prelude.{◌≡◌, ◌++◌, List, OnOk, flat_map};
ghost use Rattle.io_ends.specs.Faults.{Rose};
ghost use Rattle.rwatch.specs.Seen.{Seen};
ghost use Rattle.rnlp_cli.specs.Forms.{look_line, looks_text};
ghost use Rattle.rnlp_cli.specs.Running.{IsRun};
ghost use Rattle.rnlp_cli.specs.Stopping.{MayBeAside};

use crate::bound_line::push_number;
use crate::command::RunForm;
use crate::running::hand_out;
use crate::status::ToolStatus;
use crate::stopping::whole_or_aside;
use io_ends::Sink;
use rguard::Receipt;
use rlooks::LOOKS;
use rmon::Look;
use rrun::{Pace, Run, run_all_monitored};
use rscript::Script;
use rvalue::Edit;
use std::alloc::{AllocError, Global};
use std::sync::Wait;
use std::thread::Threads;

// The most bytes of a look's line: a word, a monitor, three numbers of at most 20, 3 and 3 digits, and four commas.
const LOOK_ROOM: usize = 36;

// Room for the lines of all looks, and for the last one.
const LOOKS_ROOM: usize = 2 * LOOKS * LOOK_ROOM + 4;

/// Runs a script while two workers look at it by monitors, writes the report and what these saw, and hands out the receipt.
/// The room for the lines and for the receipt is made before the run. A run in which tasks were stopped is put aside, and nothing
/// is written.
pub fn run_looked_at<R: Threads + Wait + Sync, K: Sink, G: Pace>(
    rt: &R,
    alloc: Global,
    script: &Script,
    sink: &mut K,
    pace: &G,
    receipts: &mut Vec<Receipt<Edit>>,
    aside: &mut Option<Run>,
) -> ToolStatus
    ensures run { (watchers : List Seen) → IsRun RunForm.Watch script.now (K.written sink.old) (K.written sink.new) (K.faults sink.new ≡ K.faults sink.old) (Rose (K.faults sink.old) (K.faults sink.new)) (sink.new ≡ sink.old) receipts.old.items receipts.new.items watchers watchers result }
    ensures aside { MayBeAside script.now aside.old aside.new result }
{
    let Ok(()) = receipts.reserve(1) else {
        return ToolStatus::NoMemory;
    };
    let Ok(mut lines) = Vec::with_capacity(alloc, LOOKS_ROOM) else {
        return ToolStatus::NoMemory;
    };
    let Ok((run, (first, second))) = run_all_monitored(rt, alloc, script, pace) else {
        return ToolStatus::NoMemory;
    };
    match whole_or_aside(script, run, aside) {
        Some((report, receipt)) => match push_all(&mut lines, &first, &second) {
            Ok(()) => hand_out(alloc, &report, &lines, receipt, sink, receipts),
            Err(_) => ToolStatus::NoMemory,
        },
        None => ToolStatus::NoMemory,
    }
}

// Appends the lines of the looks of both monitors, and the last line.
fn push_all(text: &mut Vec<u8>, first: &[Look], second: &[Look]) -> Result<(), AllocError>
    ensures { OnOk result (text.new.items ≡ text.old.items ++ looks_text first.now second.now) }
{
    push_looks(text, 1, first)?;
    push_looks(text, 2, second)?;
    text.extend_from_slice(b"end\n")
}

// Appends the lines of the looks of a monitor.
fn push_looks(text: &mut Vec<u8>, monitor: u64, looks: &[Look]) -> Result<(), AllocError>
    ensures { OnOk result (text.new.items ≡ text.old.items ++ flat_map (look_line monitor) looks.now) }
{
    for look in looks {
        push_look(text, monitor, look)?;
    }
    Ok(())
}

// Appends the line of a look.
fn push_look(text: &mut Vec<u8>, monitor: u64, look: &Look) -> Result<(), AllocError>
    ensures { OnOk result (text.new.items ≡ text.old.items ++ look_line monitor look.now) }
{
    text.extend_from_slice(b"look")?;
    push_number(text, monitor)?;
    push_number(text, look.events)?;
    push_number(text, u64::from(look.incomplete))?;
    push_number(text, u64::from(look.holding))?;
    text.push(b'\n')?;
    Ok(())
}

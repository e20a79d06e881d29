//! All sections of a task.
ghost use Rattle.std.specs.Prelude.{◌≡◌, ◌<◌, Some, IfOk, IfErr, List, length, slice_get};
ghost use Rattle.rscript.specs.declared.statement.Statement.{Statement};
ghost use Rattle.rrun.specs.Runs.{HasRun, HasBrokenOff};
ghost use Rattle.rrun.specs.Seats.{IsSeatFor};

use crate::desk::At;
use crate::pace::Pace;
use crate::steps::{Broken, run_steps};
use rguard::{Rnlp, Seat};
use rmodel::Machine;
use rscript::Script;
use rvalue::Ledger;
use std::alloc::Global;
use std::sync::Wait;

/// Runs all sections of a task, one after another, with the seat of the task.
///
/// # Errors
///
/// Out of memory. The section it happened in is broken off, later ones are not begun, and the seat is idle.
pub fn run_task<R: Wait, M: Machine, G: Pace>(
    rt: &R,
    alloc: Global,
    rnlp: &Rnlp<Ledger, M>,
    seat: Seat<Ledger, M>,
    script: &Script,
    task: u8,
    pace: &G,
) -> Result<Seat<Ledger, M>, Broken<M>>
    requires task { task < length script.now.tasks }
    requires seat { IsSeatFor rnlp.now script.now task seat }
    ensures ran { IfOk result (λ later. (statements : List Statement) → slice_get script.entry.now.steps task ≡ Some statements → HasRun statements seat later) }
    ensures seat { IfOk result (IsSeatFor rnlp.entry.now script.entry.now task) }
    ensures broken { IfErr result (λ e. (statements : List Statement) → slice_get script.entry.now.steps task ≡ Some statements → HasBrokenOff e.sections statements seat e.seat) }
    ensures left { IfErr result (λ e. IsSeatFor rnlp.entry.now script.entry.now task e.seat) }
{
    let steps = script.steps(task);
    let first = At { task, section: 0 };
    run_steps(rt, alloc, rnlp, seat, steps, first, pace)
}

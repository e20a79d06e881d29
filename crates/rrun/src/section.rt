//! One section of a task.
ghost use Rattle.std.specs.Prelude.{◌≡◌, ◌<◌, Some, IfOk, IfErr, List, length, slice_get};
ghost use Rattle.rscript.specs.declared.statement.Statement.{Statement};
ghost use Rattle.rrun.specs.Runs.{HasRun, HasBrokenOff};
ghost use Rattle.rrun.specs.Sections.{section_at};
ghost use Rattle.rrun.specs.Seats.{IsSeatFor};

use crate::desk::At;
use crate::pace::Pace;
use crate::steps::run_steps;
use rguard::{Rnlp, Seat};
use rmodel::Machine;
use rscript::Script;
use rvalue::Ledger;
use std::alloc::{AllocError, Global};
use std::sync::Wait;

/// Runs the section number `k` of a task, counted from 0, with the seat of the task; does nothing if the task has no
/// such section.
///
/// # Errors
///
/// Out of memory. The section is broken off if it was begun, and the seat is idle.
pub fn run_section<R: Wait, M: Machine, G: Pace>(
    rt: &R,
    alloc: Global,
    rnlp: &Rnlp<Ledger, M>,
    seat: Seat<Ledger, M>,
    script: &Script,
    task: u8,
    k: u64,
    pace: &G,
) -> Result<Seat<Ledger, M>, (Seat<Ledger, M>, AllocError)>
    requires task { task < length script.now.tasks }
    requires seat { IsSeatFor rnlp.now script.now task seat }
    ensures ran { IfOk result (λ later. (statements : List Statement) → slice_get script.entry.now.steps task ≡ Some statements → HasRun (section_at k statements) seat later) }
    ensures seat { IfOk result (IsSeatFor rnlp.entry.now script.entry.now task) }
    ensures broken { IfErr result (λ e. (statements : List Statement) → slice_get script.entry.now.steps task ≡ Some statements → HasBrokenOff 0 (section_at k statements) seat e.0) }
    ensures left { IfErr result (λ e. IsSeatFor rnlp.entry.now script.entry.now task e.0) }
{
    // Reading all statements shows the proof that each section of them is whole.
    let _ = script.steps(task);
    let section = script.section(task, k);
    let at = At { task, section: k };
    match run_steps(rt, alloc, rnlp, seat, section, at, pace) {
        Ok(seat) => Ok(seat),
        Err(broken) => Err((broken.seat, AllocError)),
    }
}

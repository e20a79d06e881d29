//! The report of a run, from what a closed runtime leaves.
ghost use Rattle.std.specs.Prelude.{◌≡◌, map, length, IfOk};
ghost use Rattle.std.specs.Arc.{arc_value};
ghost use Rattle.rrun.specs.Reporting.{TellsHeadOf};

use crate::run::Run;
use rexpand::Groups;
use rguard::Closed;
use rscript::Script;
use rset::NameTable;
use rtrace_write::Report;
use rvalue::Ledger;
use std::alloc::{AllocError, Global};
use std::sync::Arc;

/// The run that a closed runtime leaves, where the tasks were stopped after so many sections.
///
/// # Errors
///
/// Out of memory.
pub fn run_of(
    alloc: Global,
    script: &Script,
    closed: Closed<Ledger>,
    stopped: Vec<Option<u64>>,
) -> Result<Run, AllocError>
    ensures head { IfOk result (λ run. TellsHeadOf script.now run.report) }
    ensures entries { IfOk result (λ run. run.report.entries ≡ closed.0.entries) }
    ensures ledgers { IfOk result (λ run. run.report.ledgers ≡ map arc_value closed.1.items) }
    ensures receipt { IfOk result (λ run. run.receipt ≡ closed.2) }
    ensures stopped { IfOk result (λ run. run.stopped.items ≡ stopped.items) }
{
    let (history, values, receipt) = closed;
    match head_of(alloc, script, values.as_slice()) {
        Ok(head) => {
            let ReportHead {
                resources,
                groups,
                tasks,
                ledgers,
            } = head;
            let report = Report {
                resources,
                groups,
                tasks,
                cap: script.tasks().len(),
                history,
                ledgers,
            };
            Ok(Run {
                report,
                receipt,
                stopped,
            })
        }
        Err(e) => Err(e),
    }
}

// What a report has besides its history.
#[derive(Drop)]
struct ReportHead {
    resources: NameTable,
    groups: Groups,
    tasks: NameTable,
    ledgers: Vec<Ledger>,
}

// What the script declares, and the ledgers that are shared here.
fn head_of(
    alloc: Global,
    script: &Script,
    values: &[Arc<Ledger, Global>],
) -> Result<ReportHead, AllocError>
    ensures declared { IfOk result (λ b. (b.resources ≡ script.now.resources) × (b.groups ≡ record { q = length script.now.resources; groups = script.now.groups }) × (b.tasks ≡ script.now.tasks)) }
    ensures ledgers { IfOk result (λ b. b.ledgers.items ≡ map arc_value values.now) }
{
    let ledgers = ledgers_of(alloc, values)?;
    let groups = script.groups().copy(alloc)?;
    let resources = script.resources().copy(alloc)?;
    let tasks = script.tasks().copy(alloc)?;
    Ok(ReportHead {
        resources,
        groups,
        tasks,
        ledgers,
    })
}

// The ledgers that are shared here.
fn ledgers_of(alloc: Global, values: &[Arc<Ledger, Global>]) -> Result<Vec<Ledger>, AllocError>
    ensures { IfOk result (λ ledgers. ledgers.items ≡ map arc_value values.now) }
{
    let mut ledgers = Vec::with_capacity(alloc, values.len())?;
    for value in values {
        let ledger: &Ledger = value;
        ledgers.push_reserved(*ledger);
    }
    Ok(ledgers)
}

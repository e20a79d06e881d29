// Audits, and what is written about an audited report.
ghost use Rattle.std.specs.Prelude.{◌≡◌, Some, List, [], IfOk};
ghost use Rattle.io_ends.specs.Faults.{Rose};
ghost use Rattle.rwatch.specs.Seen.{Seen};
ghost use Rattle.rnlp_cli.specs.Outputs.{audit_text};
ghost use Rattle.rnlp_cli.specs.Answer.{ToolAnswer};
ghost use Rattle.rnlp_cli.specs.Told.{Tells};
ghost use Rattle.rnlp_cli.specs.Writing.{IsWritten};
ghost use Rattle.rnlp_cli.specs.declared.command.Command.TheVariants.{Audit};
ghost use Rattle.rtrace.specs.Collects.{KnowsCount};

use crate::command::REPORT_LIMIT;
use crate::due_line::expected;
use crate::explained::Told;
use crate::list_fault::refuse;
use crate::output::write_output;
use crate::status::ToolStatus;
use io_ends::{Sink, Source};
use itoa::Buffer;
use rtrace::{AuditCounts, AuditErr, Counting, count_stream};
use std::alloc::{AllocError, Global};

/// Checks the report that a source has left, as it is read, and writes how many events and waits it has. If the input
/// is not a right report, its first fault is put into `told` too, for the user, with the line that was due in its
/// place, if there is one.
pub fn audit<S: Source, K: Sink>(
    alloc: Global,
    source: &mut S,
    sink: &mut K,
    told: &mut Option<Told>,
) -> ToolStatus
    ensures answer { (watchers : List Seen) → ToolAnswer S.left S.faults K.written K.faults watchers (Some Audit) source.old source.new sink.old sink.new result }
    ensures told { (watchers : List Seen) → Tells watchers (Some Audit) (S.left source.old) told.old told.new result }
{
    audit_by(alloc, source, sink, &mut Counting::new(alloc), told)
}

// The same, with a reader that has read nothing.
fn audit_by<S: Source, K: Sink>(
    alloc: Global,
    source: &mut S,
    sink: &mut K,
    counting: &mut Counting,
    told: &mut Option<Told>,
) -> ToolStatus
    requires { KnowsCount counting.old [] }
    ensures answer { (watchers : List Seen) → ToolAnswer S.left S.faults K.written K.faults watchers (Some Audit) source.old source.new sink.old sink.new result }
    ensures told { (watchers : List Seen) → Tells watchers (Some Audit) (S.left source.old) told.old told.new result }
{
    match count_stream(alloc, source, REPORT_LIMIT, counting) {
        Ok(counts) => tell(alloc, counts, sink),
        Err(AuditErr::Bad(fault)) => match expected(alloc, &counting.reading, fault.code) {
            Ok(due) => refuse(alloc, fault, due, sink, told),
            Err(_) => ToolStatus::NoMemory,
        },
        Err(AuditErr::ReadFault) => ToolStatus::ReadFault,
        Err(AuditErr::TooLong) => ToolStatus::TooLong,
        Err(AuditErr::Memory) => ToolStatus::NoMemory,
    }
}

// Writes what is said about a report with these counts.
fn tell<K: Sink>(alloc: Global, counts: AuditCounts, sink: &mut K) -> ToolStatus
    ensures { IsWritten (audit_text counts.events counts.waits) (K.written sink.old) (K.written sink.new) (K.faults sink.new ≡ K.faults sink.old) (Rose (K.faults sink.old) (K.faults sink.new)) (sink.new ≡ sink.old) result }
{
    let Ok(text) = audit_text(alloc, counts) else {
        return ToolStatus::NoMemory;
    };
    write_output(sink, &text)
}

// What is said about a report with these counts.
fn audit_text(alloc: Global, counts: AuditCounts) -> Result<Vec<u8>, AllocError>
    ensures { IfOk result (λ text. text.items ≡ audit_text counts.events counts.waits) }
{
    let mut text = Vec::from_slice(alloc, b"audit,")?;
    let mut digits = Buffer::new();
    text.extend_from_slice(digits.format(counts.events).as_bytes())?;
    text.push(b',')?;
    let mut digits = Buffer::new();
    text.extend_from_slice(digits.format(counts.waits).as_bytes())?;
    text.extend_from_slice(b"\nend\n")?;
    Ok(text)
}

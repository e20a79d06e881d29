// Writing a report to a sink.
ghost use Rattle.std.specs.Prelude.{◌≡◌, ◌≤◌, ◌++◌, IfOk, OnOk, OnErr};
ghost use Rattle.io_ends.specs.Faults.{Rose};
ghost use Rattle.io_ends.specs.Ends.{Appends, AppendsPrefix};
ghost use Rattle.rtrace_form.specs.Texts.{report_text};
ghost use Rattle.rtrace_form.specs.Written.{MayBeWritten};
ghost use Rattle.rtrace_write.specs.Report.{told_by, IsOverResources, HasItsLedgers};
ghost use Rattle.rtrace_write.specs.declared.write.WriteErr.TheVariants as cause;

use crate::ending::ending_of;
use crate::head::head_of;
use crate::history::history_of;
use crate::names::NameRows;
use crate::page::Page;
use crate::report::Report;
use io_ends::{Sink, WriteFault, write_all};
use std::alloc::{AllocError, Global};
use thiserror::Error;

/// Why a report was not written.
#[derive(Clone, Copy, Debug, PartialEq, Eq, Error)]
pub enum WriteErr {
    /// The sink failed, after a front part of the text.
    #[error("writing failed")]
    WriteFault,
    /// Memory ran out, before the first byte.
    #[error("out of memory")]
    Memory,
}

impl From<AllocError> for WriteErr {
    ghost from_gives = { λ _ e. e ≡ cause.Memory };

    fn from(_: AllocError) -> WriteErr {
        WriteErr::Memory
    }
}

impl From<WriteFault> for WriteErr {
    ghost from_gives = { λ _ e. e ≡ cause.WriteFault };

    fn from(_: WriteFault) -> WriteErr {
        WriteErr::WriteFault
    }
}

/// Writes a report, in its one spelling. All of the text is made before its first byte is written.
///
/// # Errors
///
/// `WriteFault` where the sink failed: then a front part of the text was written, and not all of it. Out of memory:
/// then nothing was written.
pub fn write_report<K: Sink>(alloc: Global, report: &Report, sink: &mut K) -> Result<(), WriteErr>
    requires may { MayBeWritten (told_by report.now) }
    requires over { IsOverResources report.now }
    requires ledgers { HasItsLedgers report.now }
    ensures whole { OnOk result (Appends (K.written sink.old) (K.written sink.new) (report_text (told_by report.now))) }
    ensures quiet { OnOk result (K.faults sink.new ≡ K.faults sink.old) }
    ensures fault { result ≡ Err WriteErr.WriteFault → Rose (K.faults sink.old) (K.faults sink.new) }
    ensures prefix { result ≡ Err WriteErr.WriteFault → AppendsPrefix (K.written sink.old) (K.written sink.new) (report_text (told_by report.now)) }
    ensures memory { result ≡ Err WriteErr.Memory → sink.new ≡ sink.old }
    ensures counted { K.faults sink.old ≤ K.faults sink.new }
{
    let parts = parts_of(alloc, report)?;
    write_parts(
        sink,
        parts.head.as_slice(),
        parts.history.as_slice(),
        parts.ending.as_slice(),
    )?;
    Ok(())
}

// The text of a report, in its three parts.
#[derive(Drop)]
struct Parts {
    head: Page,
    history: Page,
    ending: Page,
}

// Makes the text of a report.
fn parts_of(alloc: Global, report: &Report) -> Result<Parts, AllocError>
    requires may { MayBeWritten (told_by report.now) }
    requires over { IsOverResources report.now }
    requires ledgers { HasItsLedgers report.now }
    ensures { IfOk result (λ parts. parts.head ++ (parts.history ++ parts.ending) ≡ report_text (told_by report.now)) }
{
    let names = NameRows::new(alloc, &report.resources, &report.tasks)?;
    let head = head_of(alloc, &names, &report.groups, report.cap)?;
    let history = history_of(alloc, &names, report)?;
    let ending = ending_of(alloc, &names, &report.ledgers)?;
    Ok(Parts {
        head,
        history,
        ending,
    })
}

/// Writes three parts of a text, one after another, so that none of them is copied.
///
/// # Errors
///
/// The sink failed: then a front part of the text was written, and not all of it.
pub fn write_parts<K: Sink>(
    sink: &mut K,
    head: &[u8],
    history: &[u8],
    ending: &[u8],
) -> Result<(), WriteFault>
    ensures whole { OnOk result (Appends (K.written sink.old) (K.written sink.new) (head.now ++ (history.now ++ ending.now))) }
    ensures quiet { OnOk result (K.faults sink.new ≡ K.faults sink.old) }
    ensures fault { OnErr result (Rose (K.faults sink.old) (K.faults sink.new)) }
    ensures prefix { OnErr result (AppendsPrefix (K.written sink.old) (K.written sink.new) (head.now ++ (history.now ++ ending.now))) }
    ensures counted { K.faults sink.old ≤ K.faults sink.new }
{
    write_all(sink, head)?;
    write_all(sink, history)?;
    write_all(sink, ending)
}

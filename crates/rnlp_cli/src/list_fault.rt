// The line of a fault.
ghost use Rattle.std.specs.Prelude.{◌≡◌, ◌≢◌, Some};
ghost use Rattle.io_ends.specs.Faults.{Rose};
ghost use Rattle.rnlp_cli.specs.Writing.{IsTold};
ghost use Rattle.rtrace_write.specs.ErrorLine.{error_line};

use crate::explained::Told;
use crate::output::write_line;
use crate::status::ToolStatus;
use io_ends::Sink;
use rtrace_form::Fault;
use rtrace_write::error_line;
use std::alloc::Global;

/// Writes the line of the fault of a list or a report, and notes the fault for the user, with the line that was due in
/// its place, if there is one. If memory runs out before that, nothing is noted.
pub fn refuse<K: Sink>(
    alloc: Global,
    fault: Fault,
    expected: Option<String>,
    sink: &mut K,
    told: &mut Option<Told>,
) -> ToolStatus
    ensures written { IsTold (error_line fault) (K.written sink.old) (K.written sink.new) (K.faults sink.new ≡ K.faults sink.old) (Rose (K.faults sink.old) (K.faults sink.new)) (sink.new ≡ sink.old) ToolStatus.Trace result }
    ensures noted { result ≡ ToolStatus.Trace → told.new ≡ Some (Told.List fault expected) }
    ensures kept { result ≢ ToolStatus.Trace → told.new ≡ told.old }
{
    let Ok(line) = error_line(alloc, fault) else {
        return ToolStatus::NoMemory;
    };
    *told = Some(Told::List { fault, expected });
    write_line(sink, &line);
    ToolStatus::Trace
}

// The line of a fault.
ghost use Rattle.std.specs.Prelude.{◌≡◌, ◌≢◌, Some};
ghost use Rattle.io_ends.specs.Faults.{Rose};
ghost use Rattle.rnlp_cli.specs.Outputs.{script_line};
ghost use Rattle.rnlp_cli.specs.Writing.{IsTold};

use crate::explained::Told;
use crate::output::write_line;
use crate::script_line::script_line;
use crate::status::ToolStatus;
use io_ends::Sink;
use rscript::ScriptCode;
use std::alloc::Global;

/// Writes the line of the fault of a script, and notes the fault for the user. If memory runs out before that, nothing
/// is noted.
pub fn refuse_script<K: Sink>(
    alloc: Global,
    line: u64,
    code: ScriptCode,
    sink: &mut K,
    told: &mut Option<Told>,
) -> ToolStatus
    ensures written { IsTold (script_line line code) (K.written sink.old) (K.written sink.new) (K.faults sink.new ≡ K.faults sink.old) (Rose (K.faults sink.old) (K.faults sink.new)) (sink.new ≡ sink.old) ToolStatus.Script result }
    ensures noted { result ≡ ToolStatus.Script → told.new ≡ Some (Told.Script line code) }
    ensures kept { result ≢ ToolStatus.Script → told.new ≡ told.old }
{
    let Ok(text) = script_line(alloc, line, code) else {
        return ToolStatus::NoMemory;
    };
    *told = Some(Told::Script { line, code });
    write_line(sink, &text);
    ToolStatus::Script
}

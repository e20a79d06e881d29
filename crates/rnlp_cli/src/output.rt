// How outputs and lines of faults are written.
ghost use Rattle.std.specs.Prelude.{◌≡◌};
ghost use Rattle.io_ends.specs.Faults.{Rose};
ghost use Rattle.rnlp_cli.specs.Writing.{IsWritten, LineWritten};

use crate::status::ToolStatus;
use io_ends::{Sink, write_all};

/// Writes an output that was made, and answers how that ended: done, or a fault of the sink after a front part of it.
/// It takes no memory.
pub fn write_output<K: Sink>(sink: &mut K, text: &[u8]) -> ToolStatus
    ensures { IsWritten text.now (K.written sink.old) (K.written sink.new) (K.faults sink.new ≡ K.faults sink.old) (Rose (K.faults sink.old) (K.faults sink.new)) ⊥ result }
{
    match write_all(sink, text) {
        Ok(()) => ToolStatus::Done,
        Err(_) => ToolStatus::WriteFault,
    }
}

/// Writes the line of a fault, or a front part of it if the sink fails.
pub fn write_line<K: Sink>(sink: &mut K, line: &[u8])
    ensures { LineWritten line.now (K.written sink.old) (K.written sink.new) (K.faults sink.new ≡ K.faults sink.old) (Rose (K.faults sink.old) (K.faults sink.new)) }
{
    match write_all(sink, line) {
        Ok(()) | Err(_) => (),
    }
}

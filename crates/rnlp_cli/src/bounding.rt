// Bounds of scripts.
ghost use Rattle.std.specs.Prelude.{◌≡◌, ◌≤◌, Some, List, IfSome};
ghost use Rattle.io_ends.specs.Faults.{Rose};
ghost use Rattle.rwatch.specs.Seen.{Seen};
ghost use Rattle.rnlp_cli.specs.BoundText.{bounds_text};
ghost use Rattle.rnlp_cli.specs.Told.{Tells};
ghost use Rattle.rnlp_cli.specs.Writing.{IsAnswer, IsWritten};
ghost use Rattle.rnlp_cli.specs.declared.command.Command.TheVariants.{Bound};

use crate::bound_lines::bound_text;
use crate::explained::Told;
use crate::output::write_output;
use crate::script_fault::refuse_script;
use crate::status::ToolStatus;
use io_ends::Sink;
use rscript::{Script, ScriptErr, read_script};
use std::alloc::Global;

/// Writes the bounds of the script that an input spells, under a cap, or under the number of its tasks if none is
/// given. If the input is not a script, its first fault is put into `told` too, for the user.
pub fn bound<K: Sink>(
    alloc: Global,
    cap: Option<u8>,
    bytes: &[u8],
    sink: &mut K,
    told: &mut Option<Told>,
) -> ToolStatus
    requires { IfSome cap (λ m. 1 ≤ m) }
    ensures answer { (watchers : List Seen) → IsAnswer watchers (Some (Bound cap)) bytes.now (K.written sink.old) (K.written sink.new) (K.faults sink.new ≡ K.faults sink.old) (Rose (K.faults sink.old) (K.faults sink.new)) (sink.new ≡ sink.old) result }
    ensures told { (watchers : List Seen) → Tells watchers (Some (Bound cap)) (Some bytes.now) told.old told.new result }
{
    match read_script(alloc, bytes) {
        Ok(script) => write_bounds(alloc, &script, cap, sink),
        Err(ScriptErr::Bad { line, code }) => refuse_script(alloc, line, code, sink, told),
        Err(ScriptErr::Memory) => ToolStatus::NoMemory,
    }
}

// Writes the bounds of a script.
fn write_bounds<K: Sink>(
    alloc: Global,
    script: &Script,
    cap: Option<u8>,
    sink: &mut K,
) -> ToolStatus
    requires { IfSome cap (λ m. 1 ≤ m) }
    ensures { IsWritten (bounds_text script.now cap) (K.written sink.old) (K.written sink.new) (K.faults sink.new ≡ K.faults sink.old) (Rose (K.faults sink.old) (K.faults sink.new)) (sink.new ≡ sink.old) result }
{
    let Ok(text) = bound_text(alloc, script, cap) else {
        return ToolStatus::NoMemory;
    };
    write_output(sink, &text)
}

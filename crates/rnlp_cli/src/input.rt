// How the input of a command is read.
ghost use Rattle.std.specs.Prelude.{Some, IfOk, IfErr};
ghost use Rattle.rnlp_cli.specs.Reading.{WasRead, NotRead};

use crate::command::Command;
use crate::status::ToolStatus;
use io_ends::{ReadErr, Source, read_all};
use std::alloc::Global;

/// Reads the input of a command to its end. For a command that reads none the input is empty, and the source stays as
/// it was.
///
/// # Errors
///
/// The status for a fault of the source, an input above its limit, or out of memory.
pub fn read_input<S: Source>(
    alloc: Global,
    command: Command,
    source: &mut S,
) -> Result<Vec<u8>, ToolStatus>
    ensures read { IfOk result (λ bytes. WasRead S.left S.faults (Some command) source.old source.new bytes.items) }
    ensures not_read { IfErr result (NotRead S.left S.faults (Some command) source.old source.new) }
{
    let Some(limit) = command.limit() else {
        return Ok(Vec::new(alloc));
    };
    match read_all(alloc, source, limit) {
        Ok(bytes) => Ok(bytes),
        Err(ReadErr::ReadFault) => Err(ToolStatus::ReadFault),
        Err(ReadErr::TooLong) => Err(ToolStatus::TooLong),
        Err(ReadErr::Memory) => Err(ToolStatus::NoMemory),
    }
}

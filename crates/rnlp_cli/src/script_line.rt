// The line of the fault of a script.
ghost use Rattle.std.specs.Prelude.{◌≡◌, IfOk};
ghost use Rattle.rnlp_cli.specs.Outputs.{script_line};

use itoa::Buffer;
use rscript::ScriptCode;
use std::alloc::{AllocError, Global};

/// The line for the fault of a script: the record's number, and the code.
///
/// # Errors
///
/// Out of memory.
pub fn script_line(alloc: Global, line: u64, code: ScriptCode) -> Result<Vec<u8>, AllocError>
    ensures { IfOk result (λ text. text.items ≡ script_line line code) }
{
    let mut text = Vec::from_slice(alloc, b"error,")?;
    let mut digits = Buffer::new();
    text.extend_from_slice(digits.format(line).as_bytes())?;
    text.push(b',')?;
    let mut digits = Buffer::new();
    text.extend_from_slice(digits.format(code.number()).as_bytes())?;
    text.push(b'\n')?;
    Ok(text)
}

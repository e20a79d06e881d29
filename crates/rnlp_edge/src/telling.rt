// What is reported to the user on standard error.
ghost use Rattle.std.specs.Prelude.{◌≡◌};

use crate::meanings::meaning_of_status;
use rnlp_cli::ToolStatus;
use std::alloc::AllocError;

/// Reports the lines that were made, or, if memory ran out for them, what the status means. It gives back the status.
pub fn explain(
    rt: &impl Eprint,
    status: ToolStatus,
    lines: Result<String, AllocError>,
) -> ToolStatus
    ensures { result ≡ status }
{
    match lines {
        Ok(lines) => {
            let _ = rt.eprint(format_args!("{lines}"));
        }
        Err(_) => {
            if let Some(meaning) = meaning_of_status(status) {
                let _ = rt.eprintln(format_args!("rnlp: {meaning}"));
            }
        }
    }
    status
}

// Why the records of a source were not taken.
ghost use Rattle.std.specs.Prelude.{◌≡◌};
ghost use Rattle.rtrace.specs.Errors.{error_of, text_error_of};

use io_ends::ReadErr;
use rtrace_form::{Code, Fault, TextErr};

/// Why the records of a source were not taken.
#[derive(Clone, Copy, Debug, PartialEq, Eq)]
pub enum StreamErr<C = Code> {
    /// The source failed.
    ReadFault,
    /// The source had more bytes than the limit allows.
    TooLong,
    /// Its text is not of the taker's kind: this is its first fault. It was read to its end.
    Bad(Fault<C>),
    /// Memory ran out.
    Memory,
}

/// The error of a source that was not read to its end.
pub(crate) fn error_of<C>(e: ReadErr) -> StreamErr<C>
    ensures { result ≡ error_of e }
{
    match e {
        ReadErr::ReadFault => StreamErr::ReadFault,
        ReadErr::TooLong => StreamErr::TooLong,
        ReadErr::Memory => StreamErr::Memory,
    }
}

/// The error of a source whose text was not taken.
pub(crate) fn text_error_of<C: Copy>(e: TextErr<C>) -> StreamErr<C>
    ensures { result ≡ text_error_of e }
{
    match e {
        TextErr::Bad(fault) => StreamErr::Bad(fault),
        TextErr::Memory => StreamErr::Memory,
    }
}

// Why a text, or a record of it, was not taken.
ghost use Rattle.std.specs.Prelude.{◌≡◌};
ghost use Rattle.rtrace_form.specs.Takers.{error_at};

use crate::fault::{Code, Fault};

/// Why a text was not taken.
#[derive(Clone, Copy, Debug, PartialEq, Eq)]
pub enum TextErr<C = Code> {
    /// It is not a text of its kind: this is its first fault.
    Bad(Fault<C>),
    /// Memory ran out.
    Memory,
}

/// Why a record was not taken.
#[derive(Clone, Copy, Debug, PartialEq, Eq)]
pub enum RowErr<C = Code> {
    /// This is the first thing that is wrong with it.
    Bad(C),
    /// Memory ran out.
    Memory,
}

impl<C: Copy> RowErr<C> {
    /// The error of a text whose record at this line was not taken.
    pub fn at(self, line: u64) -> TextErr<C>
        ensures { result ≡ error_at line self }
    {
        match self {
            RowErr::Bad(code) => TextErr::Bad(Fault { line, code }),
            RowErr::Memory => TextErr::Memory,
        }
    }
}

//! Guards by kind.
ghost use Rattle.std.specs.Prelude.{◌≡◌};
ghost use Rattle.rguard.specs.Awaiting.{awaited_kind};
ghost use Rattle.rguard.specs.LentSections.{Holds, guarded};
ghost use Rattle.rguard.specs.Looks.{fields_of, kind_of};

use crate::awaited::Awaited;
use crate::kinds::{Nesting, Reading, Writing};
use crate::nest::NestGuard;
use crate::read::ReadGuard;
use crate::rise::RiseGuard;
use crate::section::Section;
use crate::section_guard::SectionGuard;
use crate::write::WriteGuard;
use rmodel::Machine;
use rvalue::Editable;

/// A guard: a section that its seat is in. The kind of the request decides which it is.
pub enum Guard<'a, T: Editable, M: Machine> {
    /// The guard of a read.
    Read(ReadGuard<'a, T, M>),
    /// The guard of a write, of a mixed request, or of an upgrade that has risen.
    Write(WriteGuard<'a, T, M>),
    /// The guard of an upgrade that has not risen.
    Rise(RiseGuard<'a, T, M>),
    /// The guard of a nested request.
    Nest(NestGuard<'a, T, M>),
}

/// The guard that was waited for, over this section.
pub(crate) fn guard_of<'a, T: Editable, M: Machine>(
    awaited: Awaited<T>,
    section: Section<'a, T, M>,
) -> Guard<'a, T, M>
    requires { Holds T.after T.taken T.number (awaited_kind awaited) section }
    ensures fields { fields_of result ≡ guarded section.entry }
    ensures kind { kind_of result ≡ awaited_kind awaited }
{
    match awaited {
        Awaited::Read => Guard::Read(SectionGuard {
            section,
            kind: Reading,
        }),
        Awaited::Write => Guard::Write(SectionGuard {
            section,
            kind: Writing,
        }),
        Awaited::Rise(kind) => Guard::Rise(SectionGuard { section, kind }),
        Awaited::Nest => Guard::Nest(SectionGuard {
            section,
            kind: Nesting,
        }),
    }
}

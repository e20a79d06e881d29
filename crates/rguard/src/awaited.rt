//! What waits are for.
ghost use Rattle.std.specs.Prelude.{◌≡◌, IfOk};
ghost use Rattle.rguard.specs.LentGuards.{kind_for};
ghost use Rattle.rguard.specs.LentSections.{no_loans};
ghost use Rattle.rguard.specs.Awaiting.{awaited_kind};

use crate::kinds::Rising;
use rclaim::Kind;
use rset::RESOURCES;
use rstate::Lent;
use std::alloc::{AllocError, Global};

/// What a wait is for: the kind of guard, and what that needs besides its section.
#[derive(Drop)]
pub(crate) enum Awaited<T> {
    Read,
    Write,
    Rise(Rising<T>),
    Nest,
}

impl<T: Drop> Awaited<T> {
    /// What a request of this kind waits for. All room is made.
    ///
    /// # Errors
    ///
    /// Out of memory.
    pub(crate) fn by(alloc: Global, kind: Kind) -> Result<Awaited<T>, AllocError>
        ensures { IfOk result (λ awaited. awaited_kind awaited ≡ kind_for kind) }
    {
        match kind {
            Kind::Read => Ok(Awaited::Read),
            Kind::Write | Kind::Mixed => Ok(Awaited::Write),
            Kind::Upgrade => {
                let next = room_for_all(alloc)?;
                Ok(Awaited::Rise(Rising { next, alloc }))
            }
            Kind::Nested => Ok(Awaited::Nest),
        }
    }
}

/// Nothing is lent, and there is room for all resources.
///
/// # Errors
///
/// Out of memory.
pub(crate) fn room_for_all<T: Drop>(alloc: Global) -> Result<Lent<T>, AllocError>
    ensures { IfOk result (λ lent. lent ≡ no_loans) }
{
    Lent::new(alloc, usize::from(RESOURCES))
}

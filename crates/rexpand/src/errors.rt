// Why a group is not declared.
ghost use Rattle.std.specs.Prelude.{◌≡◌};
ghost use Rattle.rexpand.specs.Groups.{refusal_number};
ghost use Rattle.rexpand.specs.declared.errors.GroupErr.TheVariants.{Memory};

use std::alloc::AllocError;
use thiserror::Error;

/// Why a group is not declared.
#[derive(Clone, Copy, Debug, PartialEq, Eq, Error)]
pub enum GroupErr {
    /// It has no member.
    #[error("the group has no member")]
    EmptyGroup = 1,
    /// There are already [`GROUPS`](crate::GROUPS) groups, and there may be no more.
    #[error("too many groups")]
    TooMany = 2,
    /// Memory ran out.
    #[error("out of memory")]
    Memory = 3,
}

impl GroupErr {
    /// The number of the refusal, which is its place in the order.
    pub fn number(self) -> u8
        ensures { result ≡ refusal_number self }
    {
        self as u8
    }
}

impl From<AllocError> for GroupErr {
    ghost from_gives = { λ _ e. e ≡ Memory };

    fn from(_e: AllocError) -> GroupErr {
        GroupErr::Memory
    }
}

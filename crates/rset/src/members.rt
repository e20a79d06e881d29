// The members of a set, one after another.
use crate::ResourceSet;
use std::marker::Model;

/// The members of a set that are left to give, by rising number.
#[derive(Drop)]
pub struct Members {
    left: ResourceSet,
}

impl Model for Members {
    ghost use Rattle.std.specs.Ordering.{nat_cmp};
    ghost use Rattle.std.specs.FinSet as set;
    ghost use Rattle.std.specs.Coded.{coded_ℕ};

    ghost Value = { set.FinSet nat_cmp };

    ghost coded = { set.code coded_ℕ };

    ghost view = { λ a. a.left };
}

impl Members {
    ghost use Rattle.std.specs.Prelude.{◌≡◌};

    pub(crate) fn of(left: ResourceSet) -> Members
        ensures { result ≡ left }
    {
        Members { left }
    }
}

impl Iterator for Members {
    ghost use Rattle.std.specs.Iterator.{YieldsFirst, item_count};
    ghost use Rattle.rset.specs.Sets.{rising};

    type Item = u8;

    ghost next_gives = { YieldsFirst rising };

    ghost remaining = { item_count rising };

    fn next(&mut self) -> Option<u8> {
        let first = self.left.first()?;
        self.left = self.left.without(first);
        Some(first)
    }
}

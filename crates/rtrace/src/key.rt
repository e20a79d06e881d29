// What reported bounds are looked up by, with its hash.
ghost use Rattle.std.specs.Prelude.{◌≡◌};
ghost use Rattle.rtrace.specs.Keys.{same_which};

use rbound::Which;
use rbound_history::BoundKey;
use std::alloc::AllocError;
use std::hash::{Hash, Hasher};

/// A wait, to be looked up by a hash; its bound is known once its history is complete.
pub(crate) struct Key {
    pub(crate) key: BoundKey,
}

impl Clone for Key {
    ghost use Rattle.std.specs.Prelude.{◌≡◌, ⊤};

    ghost is_clone = { λ x y. y ≡ x };

    ghost is_infallible = { λ _. ⊤ };

    fn clone(&self) -> Result<Self, AllocError> {
        Ok(*self)
    }
}

impl Copy for Key {}

impl PartialEq for Key {
    ghost use Rattle.std.specs.Cmp.{partial_equiv_from_equiv};
    ghost use Rattle.rtrace.specs.Keys.{same_key};
    ghost use Rattle.rtrace.specs.KeyFacts.{same_key_equivalence};

    ghost eq = { same_key };

    ghost laws = { partial_equiv_from_equiv same_key_equivalence };

    fn eq(&self, other: &Key) -> bool {
        self.key.shape == other.key.shape && same_which(self.key.which, other.key.which)
    }
}

impl Eq for Key {
    ghost use Rattle.rtrace.specs.KeyFacts.{same_key_equivalence};

    ghost laws = { same_key_equivalence };
}

impl Hash for Key {
    ghost use Rattle.rtrace.specs.Keys.{key_input};
    ghost use Rattle.rtrace.specs.KeyFacts.{same_key_fed};

    ghost hash_input = { key_input };

    ghost respects_eq = { same_key_fed };

    fn hash<H: Hasher>(&self, state: &mut H) {
        state.write_usize(self.key.shape);
        match self.key.which {
            Which::First => state.write_u8(0),
            Which::Rise => state.write_u8(1),
            Which::Ask(number) => {
                state.write_u8(2);
                state.write_usize(number);
            }
        }
    }
}

/// Whether two waits of requests of one shape are the same.
fn same_which(a: Which, b: Which) -> bool
    ensures { result ≡ same_which a b }
{
    match (a, b) {
        (Which::First, Which::First) | (Which::Rise, Which::Rise) => true,
        (Which::Ask(number), Which::Ask(other)) => number == other,
        _ => false,
    }
}

// A set of resources, seen as a finite set of numbers.
ghost use Rattle.std.specs.Prelude.{◌≡◌, ◌<◌, ◌≤◌, ◌↔◌, ℕ, IfSome, IsNone, IsTrue, length, slice_get};
ghost use Rattle.std.specs.FinSet as set;
ghost use Rattle.rset.specs.Sets.{meets, rising, all_below};

use crate::{Members, RESOURCES};
use std::alloc::AllocError;
use std::fmt;
use std::fmt::{Debug, Formatter, Write};
use std::marker::Model;

/// A set of resources, which are numbers below [`RESOURCES`]. It is copied at will.
pub struct ResourceSet {
    word: u64,
}

impl Model for ResourceSet {
    ghost use Rattle.std.specs.Prelude.{◌<◌, ◌^◌};
    ghost use Rattle.std.specs.Ordering.{nat_cmp};
    ghost use Rattle.std.specs.FinSet as set;
    ghost use Rattle.std.specs.Coded.{coded_ℕ};
    ghost use Rattle.rset.specs.Words.{set_of, word_of};
    ghost use Rattle.rset.specs.WordFacts.{word_of-set_of};

    ghost Value = { set.FinSet nat_cmp };

    ghost coded = { set.code coded_ℕ };

    ghost view = { λ a. set_of a.word };

    ghost invariant = { λ a. a.word < 2 ^ 64 };

    ghost inverse = { λ s. record { word = word_of s } };

    ghost inverse_ok = { λ a h i. record { word = word_of-set_of a.word h i } };
}

impl Clone for ResourceSet {
    ghost use Rattle.std.specs.Prelude.{◌≡◌, ⊤};

    ghost is_clone = { λ x y. y ≡ x };

    ghost is_infallible = { λ _. ⊤ };

    fn clone(&self) -> Result<Self, AllocError> {
        Ok(*self)
    }
}

impl Copy for ResourceSet {}

impl PartialEq for ResourceSet {
    ghost use Rattle.std.specs.Prelude.{◌≡◌, ◌↔◌, IsTrue};
    ghost use Rattle.std.specs.Cmp.{partial_equiv_from_equiv};
    ghost use Rattle.rset.specs.Sets.{equals};
    ghost use Rattle.rset.specs.SetFacts.{equals_equivalence};

    ghost eq = { equals };

    ghost laws = { partial_equiv_from_equiv equals_equivalence };

    #[inline]
    fn eq(&self, other: &ResourceSet) -> bool
        ensures value { result ≡ equals self.now other.now }
        ensures same { IsTrue result ↔ (self.now ≡ other.now) }
    {
        self.word == other.word
    }
}

impl Eq for ResourceSet {
    ghost use Rattle.rset.specs.SetFacts.{equals_equivalence};

    ghost laws = { equals_equivalence };
}

impl Debug for ResourceSet {
    fn fmt<W: Write>(&self, f: &mut Formatter<W>) -> fmt::Result {
        f.debug_set().entries(self.iter()).finish()
    }
}

impl ResourceSet {
    /// The set with no member.
    #[inline]
    pub fn empty() -> ResourceSet
        ensures { result ≡ set.empty }
    {
        ResourceSet { word: 0 }
    }

    /// The set with the one member `l`.
    #[inline]
    pub fn one(l: u8) -> ResourceSet
        requires { l < RESOURCES }
        ensures { result ≡ set.insert set.empty l }
    {
        ResourceSet { word: 1 << l }
    }

    /// This set with `l` as a member.
    #[inline]
    pub fn with(self, l: u8) -> ResourceSet
        requires { l < RESOURCES }
        ensures { result ≡ set.insert self l }
    {
        ResourceSet {
            word: self.word | 1 << l,
        }
    }

    /// This set without `l`.
    #[inline]
    pub fn without(self, l: u8) -> ResourceSet
        requires { l < RESOURCES }
        ensures { result ≡ set.remove self l }
    {
        ResourceSet {
            word: self.word & !(1 << l),
        }
    }

    /// The members of either.
    #[inline]
    pub fn union(self, o: ResourceSet) -> ResourceSet
        ensures { result ≡ set.union self o }
    {
        ResourceSet {
            word: self.word | o.word,
        }
    }

    /// The members of both.
    #[inline]
    pub fn meet(self, o: ResourceSet) -> ResourceSet
        ensures { result ≡ set.intersection self o }
    {
        ResourceSet {
            word: self.word & o.word,
        }
    }

    /// The members of this set that are not members of `o`.
    #[inline]
    pub fn minus(self, o: ResourceSet) -> ResourceSet
        ensures { result ≡ set.difference self o }
    {
        ResourceSet {
            word: self.word & !o.word,
        }
    }

    /// Whether `l` is a member.
    #[inline]
    pub fn has(self, l: u8) -> bool
        requires { l < RESOURCES }
        ensures { result ≡ set.contains self l }
    {
        self.word >> l & 1 == 1
    }

    /// Whether there is no member.
    #[inline]
    pub fn is_empty(self) -> bool
        ensures { IsTrue result ↔ (self ≡ set.empty) }
    {
        self.word == 0
    }

    /// Whether each member is one of `o`.
    #[inline]
    pub fn within(self, o: ResourceSet) -> bool
        ensures { result ≡ set.is_subset self o }
    {
        self.word & !o.word == 0
    }

    /// Whether some member is one of `o`.
    #[inline]
    pub fn meets(self, o: ResourceSet) -> bool
        ensures { result ≡ meets self o }
    {
        self.word & o.word != 0
    }

    /// The number of members.
    #[inline]
    pub fn len(self) -> u8
        ensures value { result ≡ set.len self }
        ensures bound { result ≤ RESOURCES }
        ensures within { IsTrue (all_below RESOURCES self) }
    {
        self.word.count_ones() as u8
    }

    /// The least member, or None where there is none.
    #[inline]
    pub fn first(self) -> Option<u8>
        ensures value { result ≡ slice_get (rising self) 0 }
        ensures none { IsNone result ↔ (self ≡ set.empty) }
        ensures member { IfSome result (λ l. IsTrue (set.contains self l)) }
        ensures least { IfSome result (λ l. (m : ℕ) → IsTrue (set.contains self m) → l ≤ m) }
        ensures bound { IfSome result (λ l. l < RESOURCES) }
    {
        if self.word == 0 {
            None
        } else {
            Some(self.word.trailing_zeros() as u8)
        }
    }

    /// The members by rising number.
    #[inline]
    pub fn iter(self) -> Members
        ensures value { result ≡ self }
        ensures within { IsTrue (all_below RESOURCES self) }
        ensures few { length (rising self) ≤ RESOURCES }
    {
        // A look at the word tells the proof that each member is below the number of resources.
        let _ = &self.word;
        Members::of(self)
    }
}

// A table of names, seen as the list of them.
ghost use Rattle.std.specs.Prelude.{◌≡◌, ◌<◌, ◌≤◌, ◌++◌, ◌∷◌, [], ◌↔◌, IfOk, IfSome, OnOk, OnErr, IsTrue, true, false, length, slice_get};
ghost use Rattle.std.specs.List.{list_all};
ghost use Rattle.rset.specs.declared.names.NameErr.TheVariants.{Memory};
ghost use Rattle.rset.specs.Names.{is_letter, is_name_byte, is_name, knows, number_in, is_table, refusal_number};
ghost use Rattle.rset.specs.Kept.{names_of};

use crate::hints::Hints;
use crate::{LONGEST_NAME, RESOURCES};
use indexmap::IndexSet;
use std::alloc::{AllocError, Global};
use std::marker::Model;
use thiserror::Error;

/// Why a name was not added to a table.
#[derive(Clone, Copy, Debug, PartialEq, Eq, Error)]
pub enum NameErr {
    /// It is no name: 1 to [`LONGEST_NAME`] bytes of `a` to `z`, `0` to `9` and `_` that begin with a letter.
    #[error("no name: 1 to {most} of a to z, 0 to 9 and _ that begin with a letter", most = LONGEST_NAME)]
    BadName = 1,
    /// It is in the table.
    #[error("the name is there already")]
    Repeated = 2,
    /// The table has as many names as it may have, which is [`RESOURCES`].
    #[error("too many names")]
    TooMany = 3,
    /// Memory ran out.
    #[error("out of memory")]
    Memory = 4,
}

impl NameErr {
    /// Its number, which is its place in the order of refusals.
    pub fn number(self) -> u8
        ensures { result ≡ refusal_number self }
    {
        self as u8
    }
}

impl From<AllocError> for NameErr {
    ghost from_gives = { λ _ e. e ≡ Memory };

    fn from(_e: AllocError) -> NameErr {
        NameErr::Memory
    }
}

/// A table of different names, numbered from 0 in the order in which they were added.
#[derive(Drop)]
pub struct NameTable {
    names: IndexSet<Vec<u8>>,
    hints: Hints,
}

impl Model for NameTable {
    ghost use Rattle.std.specs.Prelude.{ℕ, List, IsTrue};
    ghost use Rattle.rset.specs.declared.TheConstants.{RESOURCES};
    ghost use Rattle.rset.specs.Names.{is_table};
    ghost use Rattle.rset.specs.Kept.{names_of};

    ghost Value = { List (List ℕ) };

    ghost view = { λ a. names_of a.names.keys };

    ghost invariant = { λ a. IsTrue (is_table RESOURCES (names_of a.names.keys)) };
}

impl NameTable {
    /// The table with no name. It takes no memory.
    pub fn new(alloc: Global) -> NameTable
        ensures { result ≡ [] }
    {
        NameTable {
            names: IndexSet::new(alloc),
            hints: Hints::new(),
        }
    }

    /// Adds `name` and gives its number.
    ///
    /// # Errors
    ///
    /// The first of [`NameErr`], in its order: `BadName` where it is no name, `Repeated` where it is in the table, `TooMany`
    /// where the table has [`RESOURCES`] names, and `Memory` where memory runs out. The table is then as it was.
    pub fn add(&mut self, name: &[u8]) -> Result<u8, NameErr>
        ensures ok { IfOk result (λ n. self.new ≡ self.old ++ name.now ∷ []) }
        ensures number { IfOk result (λ n. n ≡ length self.old) }
        ensures bound { IfOk result (λ n. n < RESOURCES) }
        ensures bad_name { (result ≡ Err NameErr.BadName) ↔ (is_name name.now ≡ false) }
        ensures repeated { (result ≡ Err NameErr.Repeated)
            ↔ ((is_name name.now ≡ true) × (knows self.old name.now ≡ true)) }
        ensures too_many { (result ≡ Err NameErr.TooMany)
            ↔ ((is_name name.now ≡ true) × (knows self.old name.now ≡ false) × (length self.old ≡ RESOURCES)) }
        ensures err { OnErr result (self.new ≡ self.old) }
    {
        if !is_name(name) {
            return Err(NameErr::BadName);
        }
        if self.names.contains(name) {
            return Err(NameErr::Repeated);
        }
        let number = self.names.len();
        if number >= usize::from(RESOURCES) {
            return Err(NameErr::TooMany);
        }
        let alloc = *self.names.allocator();
        keep(alloc, &mut self.names, name)?;
        self.hints.note(name, number as u8);
        Ok(number as u8)
    }

    /// The number of `name`, or None where it is not in the table.
    #[inline]
    pub fn number_of(&self, name: &[u8]) -> Option<u8>
        ensures value { result ≡ number_in self.now name.now }
        ensures below { IfSome result (λ n. n < length self.now) }
        ensures bound { IfSome result (λ n. n < RESOURCES) }
        ensures table { IsTrue (is_table RESOURCES self.now) }
    {
        let hint = self.hints.of(name);
        if has_at(self.names.as_slice(), hint, name) {
            return Some(hint);
        }
        self.number_by_hash(name)
    }

    // The number of a name that no hint led to.
    #[cold]
    #[inline(never)]
    fn number_by_hash(&self, name: &[u8]) -> Option<u8>
        ensures value { result ≡ number_in self.now name.now }
        ensures below { IfSome result (λ n. n < length self.now) }
        ensures bound { IfSome result (λ n. n < RESOURCES) }
    {
        let number = self.names.get_index_of(name)?;
        Some(number as u8)
    }

    /// The name with the number `n`.
    pub fn name_of(&self, n: u8) -> &[u8]
        requires { n < length self.now }
        ensures { slice_get self.now n ≡ Some result.now }
    {
        self.names.as_slice()[usize::from(n)].as_slice()
    }

    /// The number of names.
    pub fn len(&self) -> u8
        ensures value { result ≡ length self.now }
        ensures bound { result ≤ RESOURCES }
        ensures table { IsTrue (is_table RESOURCES self.now) }
    {
        self.names.len() as u8
    }

    /// A table with the same names.
    ///
    /// # Errors
    ///
    /// Want of memory.
    pub fn copy(&self, alloc: Global) -> Result<NameTable, AllocError>
        ensures { IfOk result (λ table. table ≡ self.now) }
    {
        let mut names = IndexSet::with_capacity(alloc, self.names.len())?;
        for name in self.names.as_slice() {
            keep(alloc, &mut names, name.as_slice())?;
        }
        Ok(NameTable {
            names,
            hints: self.hints,
        })
    }
}

// Whether this is the name with the number `n`.
#[inline]
fn has_at(names: &[Vec<u8>], n: u8, name: &[u8]) -> bool
    ensures { IsTrue result → slice_get (names_of names.now) n ≡ Some name.now }
{
    let place = usize::from(n);
    place < names.len() && are_same(names[place].as_slice(), name)
}

// Whether two names are the same, byte by byte: they are short, so that a call costs more.
#[inline]
fn are_same(kept: &[u8], name: &[u8]) -> bool
    ensures { IsTrue result → kept.now ≡ name.now }
{
    kept.len() == name.len() && kept.iter().zip(name.iter()).all(|(x, y)| x == y)
}

// Puts a name that is not there behind the others.
fn keep(alloc: Global, names: &mut IndexSet<Vec<u8>>, name: &[u8]) -> Result<(), AllocError>
    requires { knows (names_of names.old.keys) name.now ≡ false }
    ensures ok { OnOk result (names_of names.new.keys ≡ names_of names.old.keys ++ name.now ∷ []) }
    ensures err { OnErr result (names_of names.new.keys ≡ names_of names.old.keys) }
{
    let owned = Vec::from_slice(alloc, name)?;
    names.insert(owned)?;
    Ok(())
}

// Whether the bytes are a name.
#[tactic(auto, unfolding(crate::specs::Names::is_name))]
fn is_name(name: &[u8]) -> bool
    ensures { result ≡ is_name name.now }
{
    match name.split_first() {
        None => false,
        Some((first, others)) => {
            is_letter(*first) && others.len() < LONGEST_NAME && are_name_bytes(others)
        }
    }
}

fn are_name_bytes(bytes: &[u8]) -> bool
    ensures { result ≡ list_all is_name_byte bytes.now }
{
    bytes.iter().all(|c| is_name_byte(*c))
}

fn is_letter(c: u8) -> bool
    ensures { result ≡ is_letter c }
{
    c.is_ascii_lowercase()
}

fn is_name_byte(c: u8) -> bool
    ensures { result ≡ is_name_byte c }
{
    is_letter(c) || c.is_ascii_digit() || c == b'_'
}

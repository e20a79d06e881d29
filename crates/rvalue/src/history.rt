// The history: the list of entries that the lock keeps.
ghost use Rattle.std.specs.Prelude.{◌≡◌, ◌≤◌, ◌<◌, ◌-◌, ◌^◌, ◌++◌, ◌∷◌, [], length, slice_get, Some, OnOk, OnErr, IsOk};
ghost use Rattle.rvalue.specs.Histories.{no_entries, value_of};

use crate::{Editable, Entry};
use std::alloc::{AllocError, Global};
use std::marker::Model;

/// The entries that the lock keeps, in order. Room for more is made beforehand, so that keeping an entry cannot fail.
#[derive(Debug, Drop)]
pub struct History<E> {
    entries: Vec<Entry<E>>,
}

impl<E> Model for History<E> {
    ghost use Rattle.std.specs.Prelude.{◌-◌, ◌<◌, ◌^◌, length, vec_len, vec_capacity};
    ghost use Rattle.rvalue.specs.Histories.{HistoryContents, history_code};

    ghost Value = { HistoryContents E };

    ghost coded = { history_code E.code };

    ghost view = { λ a. record { entries = a.entries.items; spare = vec_capacity a.entries - vec_len a.entries } };

    ghost invariant = { λ a. length a.entries.items < 2 ^ 63 };
}

impl<E> History<E> {
    /// A history with no entry and no room. Takes no memory.
    pub fn new(alloc: Global) -> History<E>
        ensures { result ≡ no_entries }
    {
        History {
            entries: Vec::new(alloc),
        }
    }

    /// Makes room for `n` more entries. The entries stay as they are, and room that is there stays.
    ///
    /// # Errors
    ///
    /// Out of memory. Then nothing changes.
    pub fn reserve(&mut self, n: usize) -> Result<(), AllocError>
        ensures entries { self.new.entries ≡ self.old.entries }
        ensures ok { OnOk result (n ≤ self.new.spare) }
        ensures kept { self.old.spare ≤ self.new.spare }
        ensures succeeds { n ≤ self.old.spare → IsOk result }
        ensures err { OnErr result (self.new ≡ self.old) }
    {
        self.entries.reserve(n)
    }

    /// How many more entries there is room for.
    pub fn spare(&self) -> usize
        ensures { result ≡ self.now.spare }
    {
        self.entries.capacity() - self.entries.len()
    }

    /// Adds an entry at the end, in room that was made. Takes no memory.
    pub fn push_reserved(&mut self, entry: Entry<E>)
        requires { 1 ≤ self.old.spare }
        ensures entries { self.new.entries ≡ self.old.entries ++ entry ∷ [] }
        ensures spare { self.new.spare ≡ self.old.spare - 1 }
    {
        self.entries.push_reserved(entry);
    }

    /// How many entries there are: always fewer than 2^63.
    pub fn len(&self) -> usize
        ensures len { result ≡ length self.now.entries }
        ensures few { result < 2 ^ 63 }
    {
        self.entries.len()
    }

    /// Lends the entries in order.
    pub fn entries(&self) -> &[Entry<E>]
        ensures { result.now ≡ self.now.entries }
    {
        self.entries.as_slice()
    }

    /// The entry number `i`, counted from 0 in the order in which they were added.
    pub fn get(&self, i: usize) -> &Entry<E>
        requires { i < length self.now.entries }
        ensures { slice_get self.now.entries i ≡ Some result.now }
    {
        &self.entries[i]
    }

    /// The value of the resource `place` after the history, from its opening value: all edits on it are made again, in order.
    /// Takes no memory.
    pub fn value_of<T: Editable<Edit = E>>(&self, opening: T, place: u8) -> T
        ensures { result ≡ value_of T.after opening self.now.entries place }
    {
        let mut value = opening;
        for entry in &self.entries {
            entry.apply_to(place, &mut value);
        }
        value
    }
}

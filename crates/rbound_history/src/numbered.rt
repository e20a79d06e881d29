// Different keys, numbered in the order in which they came.
ghost use Rattle.std.specs.Prelude.{◌≡◌, not, Some, [], IfOk, OnOk, OnErr, unwrap_or};
ghost use Rattle.std.specs.List.{list_any, position_or_len};
ghost use Rattle.std.specs.BTreeMap.{get, IsUnchanged, Updates};
ghost use Rattle.rbound_history.specs.Numbered.{insert_key};

use std::alloc::{AllocError, Global};
use std::collections::BTreeMap;
use std::marker::Model;

/// Different keys, numbered from 0 in the order in which they came. A key is looked up by the order of keys, so no choice of
/// keys makes look-ups slow.
#[derive(Drop)]
pub(crate) struct Numbered<K: Ord> {
    keys: Vec<K>,
    numbers: BTreeMap<K, usize>,
}

impl<K: Ord> Model for Numbered<K> {
    ghost use Rattle.rbound_history.specs.Numbered.{KeyList, key_list_code, AreNumbers};

    ghost Value = { KeyList K };

    ghost coded = { key_list_code K.code };

    ghost view = { λ a. record { keys = a.keys.items } };

    ghost invariant = { λ a. AreNumbers K.cmp K.eq a.keys.items a.numbers };
}

impl<K: Ord + Copy + Drop> Numbered<K> {
    /// No keys yet.
    pub(crate) fn new(alloc: Global) -> Numbered<K>
        ensures { result.keys ≡ [] }
    {
        Numbered {
            keys: Vec::new(alloc),
            numbers: BTreeMap::new(alloc),
        }
    }

    /// The number of a key, and whether it is new: a new key goes after the others.
    ///
    /// # Errors
    ///
    /// Out of memory. Then nothing changes.
    pub(crate) fn insert_full(&mut self, key: K) -> Result<(usize, bool), AllocError>
        ensures added { IfOk result (λ r. r.1 ≡ not (list_any (K.eq key) self.old.keys)) }
        ensures index { IfOk result (λ r. r.0 ≡ position_or_len (K.eq key) self.old.keys) }
        ensures keys { OnOk result (self.new.keys ≡ insert_key K.eq self.old.keys key) }
        ensures err { OnErr result (self.new.keys ≡ self.old.keys) }
    {
        let new = self.keys.len();
        self.keys.reserve(1)?;
        let number = number_in(&mut self.numbers, key, new)?;
        let is_new = number == new;
        if is_new {
            self.keys.push_reserved(key);
        }
        Ok((number, is_new))
    }

    /// The keys by number.
    pub(crate) fn as_slice(&self) -> &[K]
        ensures { result.now ≡ self.now.keys }
    {
        self.keys.as_slice()
    }
}

/// The number of a key, which gets this one where it has none.
///
/// # Errors
///
/// Out of memory. Then nothing changes.
pub(crate) fn number_in<K: Ord + Copy + Drop>(
    numbers: &mut BTreeMap<K, usize>,
    key: K,
    new: usize,
) -> Result<usize, AllocError>
    ensures number { IfOk result (λ n. n ≡ unwrap_or (get K.cmp numbers.old key) new) }
    ensures updates { IfOk result (λ n. Updates K.cmp numbers.old numbers.new key (Some n)) }
    ensures err { OnErr result (IsUnchanged numbers.old numbers.new) }
{
    Ok(*numbers.entry(key)?.or_insert(new))
}

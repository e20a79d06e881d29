// The keys of shapes, numbered in the order in which they came.
ghost use Rattle.std.specs.Prelude.{◌≡◌, not, [], IfOk, OnOk, OnErr};
ghost use Rattle.std.specs.List.{list_any, position_or_len};
ghost use Rattle.rbound_history.specs.Numbered.{insert_key};
ghost use Rattle.rbound_history.specs.ShapeKeys.{same_key};
ghost use Rattle.rbound_history.specs.Shelves.{AreShelves};

use crate::numbered::number_in;
use crate::shape_key::ShapeKey;
use crate::shelf::{SHELVES, shelf_of};
use std::alloc::{AllocError, Global};
use std::collections::BTreeMap;
use std::marker::Model;

/// Different keys of shapes, numbered from 0 in the order in which they came. Their numbers stand on shelves, so that a shelf mostly
/// has few of them; on a shelf a key is looked up by the order of keys, so no choice of keys makes look-ups slow.
#[derive(Drop)]
pub(crate) struct ShapeNumbers {
    keys: Vec<ShapeKey>,
    shelves: Vec<BTreeMap<ShapeKey, usize>>,
}

impl Model for ShapeNumbers {
    ghost use Rattle.rbound_history.specs.Numbered.{KeyList, key_list_code};
    ghost use Rattle.rbound_history.specs.ShapeKeys.{shape_key_code};
    ghost use Rattle.rbound_history.specs.Shelves.{AreShelves};
    ghost use Rattle.rbound_history.specs.declared.shape_key.ShapeKey.{ShapeKey};

    ghost Value = { KeyList ShapeKey };

    ghost coded = { key_list_code shape_key_code };

    ghost view = { λ a. record { keys = a.keys.items } };

    ghost invariant = { λ a. AreShelves a.keys.items a.shelves.items };
}

impl ShapeNumbers {
    /// No keys yet.
    ///
    /// # Errors
    ///
    /// Out of memory.
    pub(crate) fn new(alloc: Global) -> Result<ShapeNumbers, AllocError>
        ensures { IfOk result (λ made. made.keys ≡ []) }
    {
        Ok(ShapeNumbers {
            keys: Vec::new(alloc),
            shelves: empty_shelves(alloc)?,
        })
    }

    /// The number of a key, and whether it is new: a new key goes after the others.
    ///
    /// # Errors
    ///
    /// Out of memory. Then nothing changes.
    pub(crate) fn insert_full(&mut self, key: ShapeKey) -> Result<(usize, bool), AllocError>
        ensures added { IfOk result (λ r. r.1 ≡ not (list_any (same_key key) self.old.keys)) }
        ensures index { IfOk result (λ r. r.0 ≡ position_or_len (same_key key) self.old.keys) }
        ensures keys { OnOk result (self.new.keys ≡ insert_key same_key self.old.keys key) }
        ensures err { OnErr result (self.new.keys ≡ self.old.keys) }
    {
        let new = self.keys.len();
        self.keys.reserve(1)?;
        let shelf = shelf_of(&key);
        let number = number_in(&mut self.shelves[shelf], key, new)?;
        let is_new = number == new;
        if is_new {
            self.keys.push_reserved(key);
        }
        Ok((number, is_new))
    }
}

/// Shelves with no numbers.
///
/// # Errors
///
/// Out of memory.
fn empty_shelves(alloc: Global) -> Result<Vec<BTreeMap<ShapeKey, usize>>, AllocError>
    ensures { IfOk result (λ shelves. AreShelves [] shelves.items) }
{
    let mut shelves = Vec::with_capacity(alloc, SHELVES)?;
    for _ in 0..SHELVES {
        shelves.push(BTreeMap::new(alloc))?;
    }
    Ok(shelves)
}

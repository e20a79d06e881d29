// On which shelf the number of a key is looked up.
ghost use Rattle.std.specs.Prelude.{◌≡◌, ◌<◌};
ghost use Rattle.rbound_history.specs.Shelves.{with_number, with_members, shelf_of};
ghost use Rattle.rbound_history.specs.declared.shelf.TheConstants.{SHELVES};

use crate::shape_key::ShapeKey;
use rset::ResourceSet;

/// How many shelves there are.
pub(crate) const SHELVES: usize = 4096;

/// A word that a number was mixed into. Different numbers may give the same word.
fn with_number(word: u64, number: u8) -> u64
    ensures { result ≡ with_number word number }
{
    word.wrapping_mul(0x9e37_79b9_7f4a_7c15)
        .wrapping_add(u64::from(number))
}

/// A word that the members of a set were mixed into.
#[tactic(auto, unfolding(crate::specs::Shelves::with_members))]
fn with_members(word: u64, set: ResourceSet) -> u64
    ensures { result ≡ with_members word set }
{
    set.iter().fold(word, |word, l| with_number(word, l))
}

/// The shelf of a key. Other keys may share it.
#[tactic(auto, unfolding(crate::specs::Shelves::shelf_of))]
pub(crate) fn shelf_of(key: &ShapeKey) -> usize
    ensures shelf { result ≡ shelf_of key.now }
    ensures within { result < SHELVES }
{
    let who = with_number(u64::from(key.task), key.kind);
    let reads = with_members(who, key.reads);
    let writes = with_members(reads, key.writes);
    let word = with_members(writes, key.first);
    (word % SHELVES as u64) as usize
}

//! The copies that a section edits.
ghost use Rattle.std.specs.Prelude.{◌≡◌, ◌<◌, [], IsSome, IfOk, OnOk, OnErr, Some, option_copied, length};
ghost use Rattle.rstate.specs.Lent.{at_place, index_of, replaced};
ghost use Rattle.rguard.specs.Copies.{value_among, with_copy, shares_of, with_shares, CanReplace};

use rstate::{Lent, Shares, Whole};
use rvalue::Editable;
use std::alloc::{AllocError, Global};
use std::marker::Model;
use std::sync::Arc;

/// A section's own copy of the value of a resource. Contracts see the resource and the value.
#[derive(Drop)]
pub struct Own<T> {
    place: u8,
    value: T,
}

impl<T> Model for Own<T> {
    ghost use Rattle.std.specs.Prelude.{ℕ};
    ghost use Rattle.std.specs.Coded.{coded_ℕ, coded×};

    ghost Value = { ℕ × T };

    ghost coded = { coded× coded_ℕ T.code };

    ghost view = { λ a. (a.place, a.value) };
}

/// New shares, and lists in which more can be made. Contracts see the shares, by their resources.
#[derive(Drop)]
pub struct NewShares<T> {
    made: Vec<Whole<T>>,
    lists: Vec<Vec<Arc<T, Global>>>,
}

impl<T> Model for NewShares<T> {
    ghost use Rattle.std.specs.Prelude.{ℕ, List};
    ghost use Rattle.std.specs.Coded.{coded_ℕ, coded×, coded_list};
    ghost use Rattle.rstate.specs.Shares.{ShareFields, share_code};

    ghost Value = { List (ℕ × ShareFields T) };

    ghost coded = { coded_list (coded× coded_ℕ (share_code T.code)) };

    ghost view = { λ a. a.made.items };
}

impl<T> NewShares<T> {
    /// None.
    pub fn none(alloc: Global) -> NewShares<T>
        ensures { result ≡ [] }
    {
        NewShares {
            made: Vec::new(alloc),
            lists: Vec::new(alloc),
        }
    }
}

// The copy of the resource's value, if there is one.
fn own_at<T>(own: &[Own<T>], place: u8) -> Option<&T>
    ensures { option_copied result ≡ at_place own.now place }
{
    for copy in own {
        if copy.place == place {
            return Some(&copy.value);
        }
    }
    None
}

/// Lends the value of a resource in a section that has these copies and to which this is lent: its own copy if there is one.
/// Takes no memory.
pub fn value_of<'a, T>(own: &'a [Own<T>], lent: &'a Lent<T>, place: u8) -> &'a T
    requires { IsSome (value_among own.now lent.now place) }
    ensures { value_among own.now lent.now place ≡ Some result.now }
{
    match own_at(own, place) {
        Some(value) => value,
        None => lent.get(place),
    }
}

/// Makes `n` shares of each copy, in order, at least one, and drops those that were made before.
///
/// # Errors
///
/// Out of memory.
pub fn make_shares_of<T: Editable>(
    alloc: Global,
    own: &[Own<T>],
    n: u16,
    into: &mut NewShares<T>,
) -> Result<(), AllocError>
    requires { 0 < n }
    ensures { OnOk result (into.new ≡ shares_of n own.now) }
{
    into.made.clear();
    into.made.reserve(own.len())?;
    into.lists.reserve(own.len())?;
    for copy in own {
        let list = list_in(alloc, &mut into.lists);
        let shares = Shares::of_in(alloc, list, n, &copy.value)?;
        into.made.push_reserved(Whole::of(copy.place, shares));
    }
    Ok(())
}

// A list for shares: one of these if there is one.
fn list_in<T>(alloc: Global, lists: &mut Vec<Vec<Arc<T, Global>>>) -> Vec<Arc<T, Global>> {
    match lists.pop() {
        Some(list) => list,
        None => Vec::new(alloc),
    }
}

/// Replaces the lent shares by these, one resource after another. Takes no memory.
pub fn replace_all<T: Drop>(lent: &mut Lent<T>, shares: &mut NewShares<T>)
    requires { CanReplace lent.old.writes shares.old }
    ensures { lent.new ≡ record lent.old { writes = with_shares lent.old.writes shares.old } }
{
    let lists = &mut shares.lists;
    for one in shares.made.drain(..) {
        replace_one(lent, one, lists);
    }
}

// The list of the shares that were lent is kept where there is room for it.
fn replace_one<T: Drop>(lent: &mut Lent<T>, made: Whole<T>, lists: &mut Vec<Vec<Arc<T, Global>>>)
    requires { IsSome (at_place lent.old.writes made.0) }
    ensures { lent.new ≡ record lent.old { writes = replaced lent.old.writes made.0 made.1 } }
{
    let list = lent.replace(made);
    if lists.len() < lists.capacity() {
        lists.push_reserved(list);
    }
}

/// Copies the value of a resource that is lent, if there is no copy of it yet; if there is, nothing changes.
///
/// # Errors
///
/// Out of memory. The copies are then as they were.
pub fn with_copy<T: Editable>(
    alloc: Global,
    own: &mut Vec<Own<T>>,
    lent: &Lent<T>,
    place: u8,
) -> Result<(), AllocError>
    requires { IsSome (value_among own.old.items lent.now place) }
    ensures ok { OnOk result (own.new.items ≡ with_copy own.old.items lent.now place) }
    ensures err { OnErr result (own.new.items ≡ own.old.items) }
    ensures still { IsSome (at_place own.old.items place) → own.new ≡ own.old }
{
    if own_at(own, place).is_some() {
        return Ok(());
    }
    let value = lent.get(place).copy(alloc)?;
    own.push(Own { place, value })?;
    Ok(())
}

/// Edits the copy of the resource's value, and answers whether the edit was taken. Takes no memory.
pub fn edit_own<T: Editable>(own: &mut Vec<Own<T>>, place: u8, edit: &T::Edit) -> bool
    requires { IsSome (at_place own.old.items place) }
    ensures own { (value : T) → at_place own.old.items place ≡ Some value → own.new.items ≡ replaced own.old.items place (T.after value edit.now) }
    ensures done { (value : T) → at_place own.old.items place ≡ Some value → result ≡ T.taken value edit.now }
{
    let at = find_own(own, place);
    let copy = &mut own[at];
    copy.value.apply(edit)
}

// Where the copy is.
fn find_own<T>(own: &[Own<T>], place: u8) -> usize
    requires { IsSome (at_place own.now place) }
    ensures index { result ≡ index_of own.now place }
    ensures within { result < length own.now }
{
    for (i, copy) in own.iter().enumerate() {
        if copy.place == place {
            return i;
        }
    }
    unreachable!()
}

// What goes from homes to a seat and back, one resource after another.
ghost use Rattle.std.specs.Prelude.{◌≡◌, ◌+◌, ◌≤◌, ◌<◌, ◌++◌, [], map, IfOk, Some, IsTrue, length, slice_get, slice_set, vec_len, vec_capacity};
ghost use Rattle.std.specs.Arc.{arc_value};
ghost use Rattle.std.specs.List.{AllByRecursion};
ghost use Rattle.rset.specs.Sets.{rising, all_below};
ghost use Rattle.rset.specs.declared.TheConstants.{RESOURCES};
ghost use Rattle.rstate.specs.Shares.{ShareFields, whole, less, more, absent};
ghost use Rattle.rstate.specs.Moves.{change_at, after_changes, HasShare, HaveShares, loans_from, wholes_from, IsMissed, AreMissed, after_loans, HaveHomes, after_wholes};

use crate::Shares;
use crate::lent::Loan;
use crate::whole::Whole;
use rset::ResourceSet;
use rvalue::Editable;
use std::alloc::{AllocError, Global};
use std::sync::Arc;

// Takes a share of the resource's value; one is at home.
fn take_read_at<T>(homes: &mut Vec<Shares<T>>, place: u8) -> Arc<T, Global>
    requires { HasShare homes.old.items place }
    ensures value { (home : ShareFields T) → slice_get homes.old.items place ≡ Some home → arc_value result ≡ home.value }
    ensures homes { homes.new.items ≡ change_at less homes.old.items place }
{
    homes[place as usize].take_read()
}

// Takes all shares of the value of the resource.
fn take_all_at<T>(homes: &mut Vec<Shares<T>>, place: u8, alloc: Global) -> Shares<T>
    requires { HasShare homes.old.items place }
    ensures shares { slice_get homes.old.items place ≡ Some result }
    ensures some { 0 < result.count }
    ensures homes { homes.new.items ≡ change_at absent homes.old.items place }
{
    homes[place as usize].take_all(alloc)
}

// A share comes home.
fn give_read_at<T>(homes: &mut Vec<Shares<T>>, loan: Loan<T>)
    requires { IsMissed homes.old.items loan }
    ensures { homes.new.items ≡ change_at more homes.old.items loan.0 }
{
    let Loan { place, share } = loan;
    homes[place as usize].give_read(share);
}

// All shares come home.
fn give_all_at<T: Drop>(homes: &mut Vec<Shares<T>>, whole: Whole<T>)
    requires { whole.0 < length homes.old.items }
    ensures { homes.new.items ≡ slice_set homes.old.items whole.0 whole.1 }
{
    let place = whole.place as usize;
    homes[place] = whole.into_shares();
}

/// Takes a share of each resource of the set, by rising number.
pub(crate) fn take_reads<T>(homes: &mut Vec<Shares<T>>, into: &mut Vec<Loan<T>>, set: ResourceSet)
    requires have { HaveShares less homes.old.items (rising set) }
    requires room { length into.old.items + length (rising set) ≤ vec_capacity into.old }
    ensures homes { homes.new.items ≡ after_changes less homes.old.items (rising set) }
    ensures into { into.new.items ≡ into.old.items ++ loans_from homes.old.items (rising set) }
    ensures capacity { vec_capacity into.new ≡ vec_capacity into.old }
    ensures known { IsTrue (all_below RESOURCES set) }
{
    for place in set.iter() {
        let share = take_read_at(homes, place);
        into.push_reserved(Loan { place, share });
    }
}

/// Takes all shares of each resource of the set, by rising number.
pub(crate) fn take_writes<T>(
    homes: &mut Vec<Shares<T>>,
    into: &mut Vec<Whole<T>>,
    set: ResourceSet,
    alloc: Global,
)
    requires have { HaveShares absent homes.old.items (rising set) }
    requires room { length into.old.items + length (rising set) ≤ vec_capacity into.old }
    ensures homes { homes.new.items ≡ after_changes absent homes.old.items (rising set) }
    ensures into { into.new.items ≡ into.old.items ++ wholes_from homes.old.items (rising set) }
    ensures capacity { vec_capacity into.new ≡ vec_capacity into.old }
    ensures known { IsTrue (all_below RESOURCES set) }
{
    for place in set.iter() {
        let shares = take_all_at(homes, place, alloc);
        into.push_reserved(Whole::of(place, shares));
    }
}

/// Shares come home, and leave their list empty.
pub(crate) fn give_reads<T: Drop>(homes: &mut Vec<Shares<T>>, loans: &mut Vec<Loan<T>>)
    requires { AreMissed homes.old.items loans.old.items }
    ensures homes { homes.new.items ≡ after_loans homes.old.items loans.old.items }
    ensures none { loans.new.items ≡ [] }
    ensures capacity { vec_capacity loans.new ≡ vec_capacity loans.old }
{
    for loan in loans.drain(..) {
        give_read_at(homes, loan);
    }
}

/// All shares of resources come home, and leave their list empty.
pub(crate) fn give_writes<T: Drop>(homes: &mut Vec<Shares<T>>, wholes: &mut Vec<Whole<T>>)
    requires { HaveHomes (length homes.old.items) wholes.old.items }
    ensures homes { homes.new.items ≡ after_wholes homes.old.items wholes.old.items }
    ensures none { wholes.new.items ≡ [] }
    ensures capacity { vec_capacity wholes.new ≡ vec_capacity wholes.old }
{
    for whole in wholes.drain(..) {
        give_all_at(homes, whole);
    }
}

/// The homes of the values as a lock begins: `n` shares of each value.
///
/// # Errors
///
/// Out of memory.
pub(crate) fn homes_of<T: Editable>(
    alloc: Global,
    n: u16,
    values: &[T],
) -> Result<Vec<Shares<T>>, AllocError>
    ensures { IfOk result (λ homes. homes.items ≡ map (whole n) values.now) }
{
    let mut homes = Vec::with_capacity(alloc, values.len())?;
    for value in values {
        homes.push_reserved(Shares::of(alloc, n, value)?);
    }
    Ok(homes)
}

/// Takes a share of each value, into room that was made for them. A share of each is at home.
pub(crate) fn one_of_each<T: Drop>(
    homes: Vec<Shares<T>>,
    room: Vec<Arc<T, Global>>,
) -> Vec<Arc<T, Global>>
    requires home { AllByRecursion (λ home. 0 < home.count) homes.items }
    requires none { room.items ≡ [] }
    requires room { length homes.items ≤ vec_capacity room }
    ensures { map arc_value result.items ≡ map (λ home. home.value) homes.items }
{
    let mut given = room;
    for home in homes {
        given.push_reserved(home.into_one());
    }
    given
}

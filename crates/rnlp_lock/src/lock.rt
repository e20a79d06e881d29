//! A lock: a runtime over values of one type, with its read groups.
ghost use Rattle.std.specs.Prelude.{◌≡◌, ◌≤◌, ◌++◌, ◌∷◌, [], IfOk, IfErr, OnOk, All, length, map, IsTrue};
ghost use Rattle.std.specs.Arc.{arc_value};
ghost use Rattle.rset.specs.Sets.{all_below};
ghost use Rattle.rguard.specs.Closing.{IsClosedBy};
ghost use Rattle.rnlp_lock.specs.Causes.{HasAll, StopsGroup, StopsGroups, StopsLock};
ghost use Rattle.rnlp_lock.specs.Laws.{HoldsOf};
ghost use Rattle.rnlp_lock.specs.Seats.{IsPassOf, AreAllOf, who_of, opens_with};

use crate::law::Law;
use rexpand::{GroupErr, Groups};
use rguard::Rnlp;
use rlock::Kept;
use rmodel::Machine;
use rplain::Plain;
use rset::{RESOURCES, ResourceSet, SEATS};
use rstate::State;
use rvalue::{Editable, History};
use std::alloc::{AllocError, Global};
use std::marker::Model;
use std::sync::Arc;
use thiserror::Error;

/// A pass of a seat.
pub type Pass<T> = rguard::Seat<T, Plain>;

/// Why no lock was opened.
#[derive(Clone, Copy, Debug, PartialEq, Eq, Error)]
pub enum LockErr {
    /// There is no value, or there are more than [`RESOURCES`].
    #[error("a lock has 1 to 64 values")]
    Values,
    /// There is no seat, or there are more than [`SEATS`].
    #[error("a lock has 1 to 64 seats")]
    Seats,
    /// A group is empty, or has a member that has no value; or there are too many groups.
    #[error("a group has at least one resource and only such as have a value, and a lock has at most 256 groups")]
    Groups,
    /// There was no memory.
    #[error("out of memory: nothing was made, so it may be tried again")]
    NoMemory,
}

impl From<AllocError> for LockErr {
    fn from(_error: AllocError) -> LockErr {
        LockErr::NoMemory
    }
}

/// A lock over a state inside a gate, and its read groups. [`Lock`] names the one that there is.
#[derive(Drop)]
pub struct LockOver<S: Kept, T> {
    pub(crate) rnlp: rguard::Lock<S, T>,
    pub(crate) groups: Groups,
    // All resources that there are.
    pub(crate) all: ResourceSet,
}

impl<S: Kept, T> Model for LockOver<S, T> {
    ghost use Rattle.rnlp_lock.specs.Seats.{LockFields};
    ghost use Rattle.rnlp_lock.specs.Causes.{HasAll};
    ghost use Rattle.std.specs.Prelude.{◌<◌, IsTrue};
    ghost use Rattle.rset.specs.Sets.{all_below};
    ghost use Rattle.std.specs.Coded.{codes};
    ghost use Rattle.rclaim.specs.Codes.{set_code};

    ghost Value = { LockFields };

    ghost coded = { Prim.hlevel (codes, set_code) };

    ghost view = { λ a. record { site = a.rnlp; groups = a.groups } };

    ghost invariant = { λ a. (0 < a.rnlp.passes) × IsTrue (all_below a.groups.q a.all) × HasAll a.groups.q a.all };
}

/// A lock over a list of values, and its read groups. Threads may share it.
pub type Lock<T> = LockOver<State<T, Plain>, T>;

/// A new lock, and the passes of its seats.
pub type Opened<T> = (Lock<T>, Vec<Pass<T>>);

/// What a lock that was closed leaves: its history, and a share of each value.
pub type Left<T> = (History<<T as Editable>::Edit>, Vec<Arc<T, Global>>);

impl<T: Law> LockOver<State<T, Plain>, T> {
    /// A lock over these values, of which the sets of `groups` may be read together, and the passes of so many seats. Nothing was done at it.
    ///
    /// # Errors
    ///
    /// In the order of [`LockErr`].
    pub fn of(
        alloc: Global,
        values: Vec<T>,
        groups: &[ResourceSet],
        seats: u8,
    ) -> Result<Opened<T>, LockErr>
        requires law { HoldsOf T.holds values.items }
        ensures each { IfOk result (λ opened. All (IsPassOf T.allows (HoldsOf T.holds) opened.0) opened.1.items) }
        ensures all { IfOk result (λ opened. AreAllOf opened.0 (map (who_of opened.0) opened.1.items)) }
        ensures opens { IfOk result (λ opened. All (opens_with values.items) opened.1.items) }
        ensures groups { IfOk result (λ opened. (opened.0.groups.groups ≡ groups.now) × (opened.0.groups.q ≡ length values.items)) }
        ensures cause { IfErr result (StopsLock (length values.items) groups.now seats) }
    {
        let count = values.len();
        if count == 0 || count > usize::from(RESOURCES) {
            return Err(LockErr::Values);
        }
        if seats == 0 || seats > SEATS {
            return Err(LockErr::Seats);
        }
        let q = count as u8;
        let all = all_of(q);
        let groups = match declared(alloc, q, all, groups) {
            Ok(groups) => groups,
            Err(e) => return Err(e),
        };
        let Ok(copy) = groups.copy(alloc) else {
            return Err(LockErr::NoMemory);
        };
        let Ok(machine) = Plain::new(alloc, copy, seats, seats) else {
            return Err(LockErr::NoMemory);
        };
        let Ok((rnlp, passes)) = Rnlp::new(alloc, machine, values, seats) else {
            return Err(LockErr::NoMemory);
        };
        Ok((LockOver { rnlp, groups, all }, passes))
    }

    /// Closes the lock with the passes of all of its seats. No memory is taken.
    ///
    /// The history is lawful, begins with what each seat has seen, and has just what each has made as its entries. The values are those that it makes,
    /// and the law holds of them.
    pub fn close(self, passes: Vec<Pass<T>>) -> Left<T>
        requires each { All (IsPassOf T.allows (HoldsOf T.holds) self) passes.items }
        requires all { AreAllOf self (map (who_of self) passes.items) }
        ensures seats { All (λ pass. IsClosedBy T.after T.taken T.number result.0.entries (map arc_value result.1.items) pass) passes.items }
        ensures count { length result.1.items ≡ self.groups.q }
        ensures law { HoldsOf T.holds (map arc_value result.1.items) }
    {
        let LockOver {
            rnlp,
            groups: _,
            all: _,
        } = self;
        let (history, values, _) = rnlp.close(passes);
        (history, values)
    }
}

// The resources below a number.
fn all_of(q: u8) -> ResourceSet
    requires { q ≤ RESOURCES }
    ensures below { IsTrue (all_below q result) }
    ensures all { HasAll q result }
{
    let mut all = ResourceSet::empty();
    for l in 0..q {
        all = all.with(l);
    }
    all
}

// So many resources, of which these sets are declared.
fn declared(alloc: Global, q: u8, all: ResourceSet, sets: &[ResourceSet]) -> Result<Groups, LockErr>
    requires some { 1 ≤ q }
    requires few { q ≤ RESOURCES }
    requires below { IsTrue (all_below q all) }
    requires all { HasAll q all }
    ensures made { IfOk result (λ groups. groups ≡ record { q = q; groups = sets.now }) }
    ensures cause { IfErr result (StopsGroups (record { q = q; groups = sets.now })) }
{
    let Ok(mut groups) = Groups::new(alloc, q) else {
        return Err(LockErr::NoMemory);
    };
    for set in sets {
        if !set.within(all) {
            return Err(LockErr::Groups);
        }
        if let Err(e) = declare(&mut groups, *set) {
            return Err(e);
        }
    }
    Ok(groups)
}

// Declares one more.
fn declare(groups: &mut Groups, set: ResourceSet) -> Result<(), LockErr>
    requires { IsTrue (all_below groups.old.q set) }
    ensures ok { OnOk result (groups.new ≡ record groups.old { groups = groups.old.groups ++ set ∷ [] }) }
    ensures cause { IfErr result (StopsGroup groups.old set) }
{
    match groups.declare(set) {
        Ok(()) => Ok(()),
        Err(GroupErr::Memory) => Err(LockErr::NoMemory),
        Err(_) => Err(LockErr::Groups),
    }
}

// The declared groups; a contract sees the list of them.
ghost use Rattle.std.specs.Prelude.{◌≡◌, ◌≢◌, ◌<◌, ◌≤◌, ◌++◌, ◌∷◌, [], ◌↔◌, IfOk, OnOk, OnErr, IsTrue, Some, length, slice_get};
ghost use Rattle.std.specs.FinSet.{empty};
ghost use Rattle.rset.specs.Sets.{all_below};
ghost use Rattle.rexpand.specs.Groups.{no_groups, shared_with, places_of, is_declared, are_groups};

use crate::noting::{is_inside, note, unnoted};
use crate::sharing::{alone, share};
use crate::{GROUPS, GroupErr};
use rset::{RESOURCES, ResourceSet};
use std::alloc::{AllocError, Global};
use std::marker::Model;

/// Read groups over the resources below a number `q`, in the order in which they were declared.
#[derive(Drop)]
pub struct Groups {
    groups: Vec<ResourceSet>,
    shared: Vec<ResourceSet>,
    noted: Vec<ResourceSet>,
}

impl Model for Groups {
    ghost use Rattle.std.specs.Prelude.{length};
    ghost use Rattle.rexpand.specs.Groups.{ReadGroups};
    ghost use Rattle.rexpand.specs.Codes.{groups_code};
    ghost use Rattle.rexpand.specs.Kept.{IsKept};

    ghost Value = { ReadGroups };

    ghost coded = { groups_code };

    ghost view = { λ a. record { q = length a.shared.items; groups = a.groups.items } };

    ghost invariant = { λ a. IsKept a.groups.items a.shared.items a.noted.items };
}

impl Groups {
    /// No groups yet, over the resources below `q`.
    ///
    /// # Errors
    ///
    /// Out of memory.
    pub fn new(alloc: Global, q: u8) -> Result<Groups, AllocError>
        requires some { 1 ≤ q }
        requires few { q ≤ RESOURCES }
        ensures { IfOk result (λ groups. groups ≡ no_groups q) }
    {
        let shared = alone(alloc, q)?;
        let noted = unnoted(alloc, q)?;
        Ok(Groups {
            groups: Vec::new(alloc),
            shared,
            noted,
        })
    }

    /// Declares `set` as a group, after the others.
    ///
    /// # Errors
    ///
    /// In the order of [`GroupErr`]: the set is empty; there are [`GROUPS`] groups; memory runs out. Then nothing changes.
    pub fn declare(&mut self, set: ResourceSet) -> Result<(), GroupErr>
        requires { IsTrue (all_below self.old.q set) }
        ensures ok { OnOk result (self.new ≡ record self.old { groups = self.old.groups ++ set ∷ [] }) }
        ensures empty_group { (result ≡ Err GroupErr.EmptyGroup) ↔ (set ≡ empty) }
        ensures too_many { (result ≡ Err GroupErr.TooMany)
            ↔ ((set ≢ empty) × (length self.old.groups ≡ GROUPS)) }
        ensures err { OnErr result (self.new ≡ self.old) }
    {
        if set.is_empty() {
            return Err(GroupErr::EmptyGroup);
        }
        let number = self.groups.len();
        if number >= GROUPS {
            return Err(GroupErr::TooMany);
        }
        self.groups.reserve(1)?;
        self.groups.push_reserved(set);
        share(&mut self.shared, set);
        note(&mut self.noted, number, set);
        Ok(())
    }

    /// The number of resources: the groups are sets of resources below it.
    pub fn q(&self) -> u8
        ensures value { result ≡ self.now.q }
        ensures groups { IsTrue (are_groups self.now) }
    {
        self.shared.len() as u8
    }

    /// The number of groups.
    pub fn len(&self) -> usize
        ensures value { result ≡ length self.now.groups }
        ensures groups { IsTrue (are_groups self.now) }
    {
        self.groups.len()
    }

    /// The group number `i`, counted from 0 in the order in which they were declared.
    pub fn at(&self, i: usize) -> ResourceSet
        requires { i < length self.now.groups }
        ensures { slice_get self.now.groups i ≡ Some result }
    {
        self.groups[i]
    }

    /// What is shared with the resource `l`: itself, and every group that contains it.
    #[inline]
    pub fn shared(&self, l: u8) -> ResourceSet
        requires { l < self.now.q }
        ensures { result ≡ shared_with self.now.groups l }
    {
        self.shared[usize::from(l)]
    }

    /// The places of a claim: what it reads, and what is shared with each resource that it writes.
    pub fn places(&self, reads: ResourceSet, writes: ResourceSet) -> ResourceSet
        requires { IsTrue (all_below self.now.q writes) }
        ensures { result ≡ places_of self.now.groups reads writes }
    {
        let mut places = reads;
        for l in writes.iter() {
            places = places.union(self.shared(l));
        }
        places
    }

    /// Whether the set is declared: it has one member, or it has members and lies inside one group.
    pub fn declared(&self, set: ResourceSet) -> bool
        ensures { result ≡ is_declared self.now.groups set }
    {
        if set.len() == 1 {
            return true;
        }
        match set.first() {
            None => false,
            // A set inside a group lies in what is shared with each of its members, and that is quick to see.
            Some(l) => l < self.q() && set.within(self.shared(l)) && is_inside(&self.noted, set, l),
        }
    }

    /// Groups with the same number of resources and the same groups.
    ///
    /// # Errors
    ///
    /// Out of memory.
    pub fn copy(&self, alloc: Global) -> Result<Groups, AllocError>
        ensures { IfOk result (λ groups. groups ≡ self.now) }
    {
        Ok(Groups {
            groups: Vec::from_slice(alloc, &self.groups)?,
            shared: Vec::from_slice(alloc, &self.shared)?,
            noted: Vec::from_slice(alloc, &self.noted)?,
        })
    }
}

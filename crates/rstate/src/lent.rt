// What is lent to a seat, outside of the state.
ghost use Rattle.std.specs.Prelude.{◌≡◌, ◌+◌, ◌<◌, ◌≤◌, IfOk, OnOk, IsSome, Some, [], length, option_copied, option_map};
ghost use Rattle.rstate.specs.Lent.{at_place, index_of, replaced, lent_value};

use crate::whole::Whole;
use std::alloc::{AllocError, Global};
use std::marker::Model;
use std::mem;
use std::sync::Arc;

/// A share of the value of a resource.
#[derive(Drop)]
pub struct Loan<T> {
    pub(crate) place: u8,
    pub(crate) share: Arc<T, Global>,
}

impl<T> Model for Loan<T> {
    ghost use Rattle.std.specs.Prelude.{ℕ};
    ghost use Rattle.std.specs.Arc.{arc_value};
    ghost use Rattle.std.specs.Coded.{coded_ℕ, coded×};

    ghost Value = { ℕ × T };

    ghost coded = { coded× coded_ℕ T.code };

    ghost view = { λ a. (a.place, arc_value a.share) };
}

/// What is lent to a seat: one share of each resource that it has taken for reading, and all shares of each that it has taken for
/// writing. They go home by a finish or a rise.
#[derive(Drop)]
pub struct Lent<T> {
    pub(crate) reads: Vec<Loan<T>>,
    pub(crate) writes: Vec<Whole<T>>,
}

impl<T> Model for Lent<T> {
    ghost use Rattle.std.specs.Prelude.{vec_capacity};
    ghost use Rattle.rstate.specs.Lent.{LentFields, lent_code};

    ghost Value = { LentFields T };

    ghost coded = { lent_code T.code };

    ghost view = { λ a. record { reads = a.reads.items; writes = a.writes.items; reads_room = vec_capacity a.reads; writes_room = vec_capacity a.writes } };
}

impl<T: Drop> Lent<T> {
    /// Nothing is lent, and there is room for `n` resources of each kind.
    ///
    /// # Errors
    ///
    /// Out of memory.
    pub fn new(alloc: Global, n: usize) -> Result<Lent<T>, AllocError>
        ensures { IfOk result (λ lent. lent ≡ record { reads = []; writes = []; reads_room = n; writes_room = n }) }
    {
        Lent::with_room(alloc, n, n)
    }

    /// Nothing is lent, and there is room for so many resources to read, and for so many to write.
    ///
    /// # Errors
    ///
    /// Out of memory.
    pub fn with_room(alloc: Global, reads: usize, writes: usize) -> Result<Lent<T>, AllocError>
        ensures { IfOk result (λ lent. lent ≡ record { reads = []; writes = []; reads_room = reads; writes_room = writes }) }
    {
        let reads = Vec::with_capacity(alloc, reads)?;
        let writes = Vec::with_capacity(alloc, writes)?;
        Ok(Lent { reads, writes })
    }

    /// Makes room for `n` more resources of each kind. What is lent stays as it is, and so does the room that there was.
    ///
    /// # Errors
    ///
    /// Out of memory.
    pub fn reserve(&mut self, n: usize) -> Result<(), AllocError>
        ensures reads { self.new.reads ≡ self.old.reads }
        ensures writes { self.new.writes ≡ self.old.writes }
        ensures kept { (self.old.reads_room ≤ self.new.reads_room) × (self.old.writes_room ≤ self.new.writes_room) }
        ensures ok { OnOk result ((length self.new.reads + n ≤ self.new.reads_room) × (length self.new.writes + n ≤ self.new.writes_room)) }
    {
        self.reads.reserve(n)?;
        self.writes.reserve(n)
    }

    /// Drops what is lent, and makes room for so many resources to read, and for so many to write.
    ///
    /// # Errors
    ///
    /// Out of memory. Nothing is lent then either.
    pub fn prepare(&mut self, reads: usize, writes: usize) -> Result<(), AllocError>
        ensures none { (self.new.reads ≡ []) × (self.new.writes ≡ []) }
        ensures ok { OnOk result ((reads ≤ self.new.reads_room) × (writes ≤ self.new.writes_room)) }
    {
        self.reads.clear();
        self.writes.clear();
        self.reads.reserve_exact(reads)?;
        self.writes.reserve_exact(writes)
    }

    /// Replaces the shares of a resource whose shares are all lent. Those are dropped, and their list comes back, with one share
    /// at most and the room that it has. Takes no memory.
    pub fn replace(&mut self, by: Whole<T>) -> Vec<Arc<T, Global>>
        requires { IsSome (at_place self.old.writes by.0) }
        ensures { self.new ≡ record self.old { writes = replaced self.old.writes by.0 by.1 } }
    {
        let at = find_whole(&self.writes, by.place);
        let before = mem::replace(&mut self.writes[at], by);
        before.into_shares().into_list()
    }
}

impl<T> Lent<T> {
    /// The number of resources whose shares are all lent.
    pub fn written(&self) -> usize
        ensures { result ≡ length self.now.writes }
    {
        self.writes.len()
    }

    /// Lends the value of a resource that is lent. Takes no memory.
    pub fn get(&self, place: u8) -> &T
        requires { IsSome (lent_value self.now place) }
        ensures { lent_value self.now place ≡ Some result.now }
    {
        match share_at(&self.reads, place) {
            Some(value) => value,
            None => whole_at(&self.writes, place).unwrap(),
        }
    }
}

// The value of the resource, if a share of it is lent.
fn share_at<T>(loans: &[Loan<T>], place: u8) -> Option<&T>
    ensures { option_copied result ≡ at_place loans.now place }
{
    for loan in loans {
        if loan.place == place {
            return Some(&loan.share);
        }
    }
    None
}

// The value of the resource, if all shares of it are lent.
fn whole_at<T>(wholes: &[Whole<T>], place: u8) -> Option<&T>
    ensures { option_copied result ≡ option_map (λ shares. shares.value) (at_place wholes.now place) }
{
    for whole in wholes {
        if whole.place == place {
            return Some(whole.get());
        }
    }
    None
}

// Where all shares of the resource are.
fn find_whole<T>(wholes: &[Whole<T>], place: u8) -> usize
    requires { IsSome (at_place wholes.now place) }
    ensures index { result ≡ index_of wholes.now place }
    ensures within { result < length wholes.now }
{
    for (i, whole) in wholes.iter().enumerate() {
        if whole.place == place {
            return i;
        }
    }
    unreachable!()
}

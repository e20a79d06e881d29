// Shares of one value, made beforehand, so that lending it to readers takes no memory.
ghost use Rattle.std.specs.Prelude.{◌≡◌, ◌<◌, [], IfOk};
ghost use Rattle.std.specs.Arc.{arc_value};
ghost use Rattle.rstate.specs.Shares.{whole, less, more, absent};

use rvalue::Editable;
use std::alloc::{AllocError, Global};
use std::marker::Model;
use std::mem;
use std::snapshot::Snapshot;
use std::sync::Arc;

/// Shares of one value: some may be out with readers, or all with a writer.
///
/// A contract sees how many shares are there (`count`), how many were made (`full`), and the `value`, which stays known when no
/// share is there.
#[derive(Drop)]
pub struct Shares<T> {
    pub(crate) list: Vec<Arc<T, Global>>,
    pub(crate) full: u16,
    pub(crate) value: Snapshot<T>,
}

impl<T> Model for Shares<T> {
    ghost use Rattle.std.specs.Prelude.{◌≡◌, ◌≤◌, All, length, vec_capacity};
    ghost use Rattle.std.specs.Arc.{arc_value};
    ghost use Rattle.rstate.specs.Shares.{ShareFields, share_code};

    ghost Value = { ShareFields T };

    ghost coded = { share_code T.code };

    ghost view = { λ a. record { count = length a.list.items; full = a.full; value = a.value.value } };

    ghost invariant = { λ a. All (λ share. arc_value share ≡ a.value.value) a.list.items × (a.full ≤ vec_capacity a.list) };
}

impl<T> Shares<T> {
    /// Takes one share. Takes no memory.
    pub(crate) fn take_read(&mut self) -> Arc<T, Global>
        requires { 0 < self.old.count }
        ensures value { arc_value result ≡ self.old.value }
        ensures rest { self.new ≡ less self.old }
    {
        self.list.pop().unwrap()
    }

    /// Puts back a share of the value; there is room for it when one is out. Takes no memory.
    pub(crate) fn give_read(&mut self, share: Arc<T, Global>)
        requires out { self.old.count < self.old.full }
        requires same { arc_value share ≡ self.old.value }
        ensures { self.new ≡ more self.old }
    {
        self.list.push_reserved(share);
    }

    /// Takes all shares away; the value of what is left is still known. Takes no memory.
    pub(crate) fn take_all(&mut self, alloc: Global) -> Shares<T>
        requires { 0 < self.old.count }
        ensures taken { result ≡ self.old }
        ensures left { self.new ≡ absent self.old }
    {
        let value = Snapshot::of(self.get());
        let left = Shares {
            list: Vec::new(alloc),
            full: 0,
            value,
        };
        mem::replace(self, left)
    }

    /// Lends the value; a share of it is there.
    pub fn get(&self) -> &T
        requires { 0 < self.now.count }
        ensures { result.now ≡ self.now.value }
    {
        &self.list[0]
    }
}

impl<T: Drop> Shares<T> {
    /// Drops the shares but one, and gives their list, in which others may be made. Takes no memory.
    pub(crate) fn into_list(self) -> Vec<Arc<T, Global>> {
        let Shares { mut list, .. } = self;
        list.truncate(1);
        list
    }

    /// Keeps one share and drops the others. Takes no memory.
    pub(crate) fn into_one(self) -> Arc<T, Global>
        requires { 0 < self.count }
        ensures { arc_value result ≡ self.value }
    {
        let mut shares = self;
        shares.take_read()
    }
}

impl<T: Editable> Shares<T> {
    /// Makes `n` shares of a copy of the value.
    ///
    /// # Errors
    ///
    /// Out of memory.
    pub fn of(alloc: Global, n: u16, value: &T) -> Result<Shares<T>, AllocError>
        ensures { IfOk result (λ shares. shares ≡ whole n value.now) }
    {
        Shares::of_in(alloc, Vec::new(alloc), n, value)
    }

    /// The same in this list; what was in it is dropped.
    ///
    /// # Errors
    ///
    /// Out of memory.
    pub fn of_in(
        alloc: Global,
        mut list: Vec<Arc<T, Global>>,
        n: u16,
        value: &T,
    ) -> Result<Shares<T>, AllocError>
        ensures { IfOk result (λ shares. shares ≡ whole n value.now) }
    {
        let first = first_share(alloc, &mut list, value)?;
        list.clear();
        list.reserve_exact(n as usize)?;
        for _ in 0..n {
            list.push_reserved(Arc::try_clone(&first)?);
        }
        Ok(Shares {
            list,
            full: n,
            value: Snapshot::of(value),
        })
    }
}

// A share of a copy of the value: in the place of a share in this list, if nobody else has it.
fn first_share<T: Editable>(
    alloc: Global,
    list: &mut Vec<Arc<T, Global>>,
    value: &T,
) -> Result<Arc<T, Global>, AllocError>
    ensures { IfOk result (λ share. arc_value share ≡ value.now) }
{
    let copy = value.copy(alloc)?;
    match list.pop() {
        Some(share) => refilled(alloc, share, copy),
        None => Ok(Arc::new(alloc, copy)?),
    }
}

// A share of this value: in the place of the old one, if nobody else has it.
fn refilled<T: Drop>(
    alloc: Global,
    mut share: Arc<T, Global>,
    value: T,
) -> Result<Arc<T, Global>, AllocError>
    ensures { IfOk result (λ share. arc_value share ≡ value) }
{
    match Arc::get_mut(&mut share) {
        Some(place) => {
            *place = value;
            Ok(share)
        }
        None => Ok(Arc::new(alloc, value)?),
    }
}

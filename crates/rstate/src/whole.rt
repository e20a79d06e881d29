// All shares of the value of a resource, outside of its home.
ghost use Rattle.std.specs.Prelude.{◌≡◌, ◌<◌};

use crate::Shares;
use std::alloc::Global;
use std::marker::Model;
use std::snapshot::Snapshot;
use std::sync::Arc;

/// All shares of the value of a resource: at least one. A contract sees the resource and the shares.
#[derive(Drop)]
pub struct Whole<T> {
    pub(crate) place: u8,
    full: u16,
    first: Arc<T, Global>,
    rest: Vec<Arc<T, Global>>,
}

impl<T> Model for Whole<T> {
    ghost use Rattle.std.specs.Prelude.{◌≡◌, ℕ, ◌<◌, ◌≤◌, ◌+◌, All, length, vec_capacity};
    ghost use Rattle.std.specs.Arc.{arc_value};
    ghost use Rattle.std.specs.Coded.{coded_ℕ, coded×};
    ghost use Rattle.rstate.specs.Shares.{ShareFields, share_code};

    ghost Value = { ℕ × ShareFields T };

    ghost coded = { coded× coded_ℕ (share_code T.code) };

    ghost view = { λ a. (a.place, record { count = length a.rest.items + 1; full = a.full; value = arc_value a.first }) };

    ghost invariant = { λ a. All (λ share. arc_value share ≡ arc_value a.first) a.rest.items × (a.full ≤ vec_capacity a.rest) × (length a.rest.items < vec_capacity a.rest) };
}

impl<T> Whole<T> {
    /// These shares of the value of a resource. Takes no memory.
    pub fn of(place: u8, shares: Shares<T>) -> Whole<T>
        requires { 0 < shares.count }
        ensures { result ≡ (place, shares) }
    {
        let Shares {
            list: mut rest,
            full,
            value: _,
        } = shares;
        let first = rest.pop().unwrap();
        Whole {
            place,
            full,
            first,
            rest,
        }
    }

    /// The shares. Takes no memory.
    pub(crate) fn into_shares(self) -> Shares<T>
        ensures { result ≡ self.1 }
    {
        let Whole {
            place: _,
            full,
            first,
            rest: mut list,
        } = self;
        let shared: &T = &first;
        let value = Snapshot::of(shared);
        list.push_reserved(first);
        Shares { list, full, value }
    }

    /// Lends the value.
    pub(crate) fn get(&self) -> &T
        ensures { result.now ≡ self.now.1.value }
    {
        &self.first
    }
}

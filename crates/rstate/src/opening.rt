// How a lock begins.
use rexpand::Groups;
use rmodel::Machine;
use std::marker::Model;
use std::snapshot::Snapshot;

/// How a lock began: the read groups, the number of seats and of requests that may be incomplete at once, the value of each
/// resource, and what the watchers had been given. Groups, values and what watchers were given exist only in contracts.
#[derive(Drop)]
pub struct Opening<T, M: Machine> {
    pub(crate) groups: Snapshot<Groups>,
    pub(crate) seats: u8,
    pub(crate) cap: u8,
    pub(crate) values: Snapshot<Vec<T>>,
    pub(crate) machine: Snapshot<M>,
}

impl<T, M: Machine> Model for Opening<T, M> {
    ghost use Rattle.rstate.specs.Histories.{Beginning, beginning_code};

    ghost Value = { Beginning T };

    ghost coded = { beginning_code T.code };

    ghost view = { λ a. record { groups = a.groups.value; seats = a.seats; cap = a.cap; values = a.values.value.items; watched = M.watched a.machine.value } };
}

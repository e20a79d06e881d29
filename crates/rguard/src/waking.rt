//! Whom an event notifies.
use rmodel::Machine;
use rpost::seats_granted;
use rset::ResourceSet;
use rstate::State;
use rvalue::Editable;

/// The seats in the grants of the last event.
pub(crate) fn told<T: Editable, M: Machine>(state: &State<T, M>) -> ResourceSet {
    seats_granted(&state.machine().changes().grants)
}

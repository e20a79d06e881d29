// What a record that was taken adds to the history.
use rbound::Bound;
use rclaim::Event;
use rcover_laws::WaitEnd;
use rvalue::{Act, Edit};

/// A wait that the latest event ended, and the bound that a record reports for it.
#[derive(Clone, Copy)]
pub struct BoundTold {
    /// The wait.
    pub wait: WaitEnd,
    /// Its reported bound.
    pub bound: Bound,
}

/// What a record that was taken adds to the history.
#[derive(Drop)]
pub enum TakenRecord {
    /// This event happened.
    Event(Event),
    /// The section of the latest event did this.
    Act(Act<Edit>),
    /// A wait that the latest event ended has this bound.
    Wait(BoundTold),
    /// Nothing of the history.
    Other,
}

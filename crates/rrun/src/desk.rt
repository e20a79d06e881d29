//! A seat between two statements of its task.
use rguard::{Guard, Seat};
use rmodel::Machine;
use rvalue::Ledger;

/// A seat between two statements: idle, or in a section. It has to be used up.
pub(crate) enum Desk<'a, M: Machine> {
    Idle(Seat<Ledger, M>),
    Busy(Guard<'a, Ledger, M>),
}

/// Which task is at work, and in which of its sections, counted from 0.
#[derive(Clone, Copy)]
pub(crate) struct At {
    pub(crate) task: u8,
    pub(crate) section: u64,
}

impl At {
    /// The same task after so many sections more.
    pub(crate) fn after(self, sections: u64) -> At {
        At {
            task: self.task,
            section: self.section.wrapping_add(sections),
        }
    }
}

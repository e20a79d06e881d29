// A claim that is needed.
use rclaim::Claim;

/// A claim that a request of a task makes. Its seat is the number of the task, its stamp the number of the request in the task,
/// counted from 0.
#[derive(Clone, Copy)]
pub struct Needed {
    /// The claim.
    pub claim: Claim,
    /// The length of its section.
    pub len: u32,
}

// A wait that has ended.
use rbound::Which;

/// A wait that an event ended, and the numbers of its cover.
#[derive(Clone, Copy, Debug, PartialEq, Eq)]
pub struct WaitEnd {
    /// The seat whose request waited.
    pub seat: u8,
    /// The number of issues before that of its request.
    pub stamp: u64,
    /// Which wait of the request it was.
    pub which: Which,
    /// How many sections of its cover count as reads.
    pub reads: u64,
    /// How many of them count as writes.
    pub writes: u64,
    /// The sum of the lengths of all of them.
    pub units: u64,
}

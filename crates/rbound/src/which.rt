// Which wait of a request is meant.

/// Which wait of a request is meant.
#[derive(Clone, Copy, Debug, PartialEq, Eq)]
pub enum Which {
    /// The wait that begins with its issue.
    First,
    /// The wait of an upgrade that rises.
    Rise,
    /// The wait of the ask with this number, counted from 0.
    Ask(usize),
}

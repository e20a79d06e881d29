//! Kinds of guards.

/// What a guard lets its section do.
#[derive(Clone, Copy, Debug, PartialEq, Eq)]
pub enum GuardKind {
    /// It reads.
    Read,
    /// It writes, and may read.
    Write,
    /// It reads, and may rise to write.
    Rise,
    /// It reads and writes what it was granted so far, and may ask for more.
    Nest,
}

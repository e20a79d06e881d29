// What the lock keeps of a request, and how far it has come.
use crate::Kind;
use rset::ResourceSet;

/// How far a claim has come.
#[derive(Clone, Copy, Debug, PartialEq, Eq)]
pub enum Status {
    /// It waits, and nothing is kept for it.
    Waiting,
    /// It waits, and is next to get what it asks for.
    Entitled,
    /// It holds all that it asks for, and it stays satisfied.
    Satisfied,
}

/// What an incomplete request claims.
#[derive(Clone, Copy)]
pub struct Claim {
    /// The number of issues before that of its request.
    pub stamp: u64,
    /// The seat whose request it is.
    pub seat: u8,
    /// The kind of its request.
    pub kind: Kind,
    /// Whether it is a write claim; otherwise it is a read claim, which writes nothing.
    pub write_half: bool,
    /// The resources to read.
    pub reads: ResourceSet,
    /// The resources to write.
    pub writes: ResourceSet,
    /// The resources at which it has a place in the order of writes. A place locks nothing.
    pub places: ResourceSet,
}

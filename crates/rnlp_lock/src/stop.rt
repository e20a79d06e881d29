//! Why a section came to nothing.

use thiserror::Error;

/// Why a section came to nothing: none of what it did is recorded then, and each value is as it was.
#[derive(Clone, Copy, Debug, PartialEq, Eq, Error)]
pub enum Stop {
    /// A value did not take an edit that was to be taken.
    #[error("a value did not take an edit: look at it with get before, or use edit, which answers whether it did")]
    Untaken,
    /// The section does not hold this resource in the way that was asked for.
    #[error("the section does not hold this resource: name it in the set of the request")]
    NotHeld,
    /// What was asked for is empty, or is no part of what the lock has.
    #[error("the request is empty, or names a resource that the lock has no value for")]
    NotThere,
    /// What was to be read is not declared as a group.
    #[error("these resources are not declared together: give a group that has all of them when the lock is made")]
    Undeclared,
    /// The section itself said so.
    #[error("the section gave up")]
    Own,
    /// There was no memory.
    #[error("out of memory: nothing was done, so it may be tried again")]
    NoMemory,
}

//! The guard of a write.
use crate::kinds::Writing;
use crate::section_guard::SectionGuard;

/// The guard of a write, of a mixed request, or of an upgrade that has risen. It must be spent.
pub type WriteGuard<'a, T, M> = SectionGuard<'a, T, M, Writing>;

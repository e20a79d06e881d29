//! Ledgers, acts and the history: what sections edit, and what the lock keeps of it.
//!
//! A value that sections edit is [`Editable`]; a [`Ledger`] is one, with the edits of [`Edit`].
//! An [`Act`] is one edit or show of a section with its answer, an [`Entry`] is an event with its acts,
//! and the [`History`] is the list of all entries, with room made beforehand.
#![tactic(auto)]

mod act;
mod editable;
mod entry;
mod history;
pub mod laws;
mod ledger;
mod rules;

pub use act::Act;
pub use editable::Editable;
pub use entry::Entry;
pub use history::History;
pub use ledger::{Edit, Ledger};
pub use rules::Rules;

/// The greatest balance that an edit which adds or sets may leave in a ledger.
pub const BALANCE_LIMIT: u64 = 1_000_000_000_000_000_000;

/// How many edits a ledger counts; after that it takes none.
pub const EDITS_LIMIT: u64 = u64::MAX;

// The values of the limits. The definitions of ledgers only name them, so any other value would fit those too.
const _: () = prove!(BALANCE_LIMIT == 1_000_000_000 * 1_000_000_000);

const _: () = prove!(EDITS_LIMIT == 18_446_744_073_709_551_615);

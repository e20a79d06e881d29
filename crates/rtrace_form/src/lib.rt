//! The format of event lists and reports: the records there are ([`Word`]), what each says, and what is wrong with one
//! ([`Code`]).
//!
//! [`take_text`] takes the records of a text with a taker ([`Records`]) and answers its first fault. [`event_of`] and
//! the like read one record. [`laws`] says what holds of every text.
#![tactic(auto)]

mod act;
mod errors;
mod event;
mod fault;
pub mod laws;
mod numbers;
mod record;
mod requests;
mod sets;
mod state;
mod taker;
mod wait;
mod word;

pub use act::act_of;
pub use errors::{RowErr, TextErr};
pub use event::{EventTold, event_of, finish_of};
pub use fault::{Code, Fault, Refusal};
pub use numbers::{cap_of, number_of};
pub use record::{field_of, word_in};
pub use requests::{RequestLengths, RequestSets, lengths_of, request_of, sets_of};
pub use sets::{group_of, set_of};
pub use state::{change_of, grant_of, ledger_of};
pub use taker::{Records, end_at, take_part, take_text};
pub use wait::{CoverTold, WaitTold, wait_of};
pub use word::{Stage, Word};

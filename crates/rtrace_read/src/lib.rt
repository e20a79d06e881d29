//! The reader of event lists and reports, record by record: [`take`] takes a record with a [`ReportReader`] and answers
//! what it adds to the history ([`TakenRecord`]). It compares what a report says with a machine, the waits that ended
//! and the ledgers. Bounds of waits are judged above: they depend on the whole history.
#![tactic(auto)]

mod acts;
mod changes;
mod due;
mod events;
mod head;
mod left;
mod other_records;
mod place;
mod reading;
mod taken;
mod taking;

pub use place::AT_LEDGERS;
pub use reading::ReportReader;
pub use taken::{BoundTold, TakenRecord};
pub use taking::take;

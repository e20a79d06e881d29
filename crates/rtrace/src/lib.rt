//! Reads and checks event lists and reports, record by record. [`read_events`] and [`read_report`] answer the
//! [`Report`] of a text in memory. [`audit_stream`] checks a report while its source is read, and holds only a window
//! of the text.
//!
//! The bounds of waits depend on the whole history, so they are judged at its end ([`BoundsKept`]). What is kept for
//! that grows with the shapes of requests, not with waits or events.
#![tactic(auto)]

mod bounds;
mod collect;
mod count;
mod error;
mod feed;
mod kept_bounds;
mod key;
mod lists;
mod owned;
mod shortened;
mod told_bounds;
mod window;

pub use bounds::BoundsKept;
pub use count::{AuditCounts, Counting, audit_stream, count_stream};
pub use error::StreamErr as AuditErr;
pub use lists::{read_events, read_report};
pub use rtrace_form::{Code, Fault, Refusal, TextErr};
pub use rtrace_read::{BoundTold, ReportReader, TakenRecord};
pub use rtrace_write::{Report, WriteErr, write_parts, write_report};

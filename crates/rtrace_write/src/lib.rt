//! The writer of reports. A [`Report`] is written by [`write_report`]. Where a list is read and its report made in one
//! pass, the history grows in an [`OpenText`], a [`Gathered`] keeps what gives its bounds, and [`write_parts`] writes
//! the three parts. [`error_line`] is the line of a fault.
#![tactic(auto)]

mod act;
mod change;
mod closed;
mod ending;
mod event;
mod fault_line;
mod frame;
mod gathered;
mod head;
mod history;
mod names;
mod open_text;
mod page;
mod pieces;
mod report;
mod step;
mod wait;
mod write;

pub use closed::close_history;
pub use ending::ending_of;
pub use fault_line::error_line;
pub use gathered::Gathered;
pub use head::head_of;
pub use names::NameRows;
pub use open_text::OpenText;
pub use page::Page;
pub use report::Report;
pub use step::push_step;
pub use write::{WriteErr, write_parts, write_report};

/// The room that is made ahead of a line: no line is longer.
pub const LINE_ROOM: usize = 4096;

const _: () = prove!(LINE_ROOM == 4096);

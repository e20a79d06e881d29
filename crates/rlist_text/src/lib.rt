//! A history as a text, whatever the values of the resources are: its event list, which `rnlp replay` reads, or all of it with what its
//! sections did, for people.
#![tactic(auto)]

mod history;
pub mod laws;
mod list;
mod worded;

pub use history::history_text;
pub use list::list_text;
pub use rtrace_write::Page;
pub use worded::Worded;

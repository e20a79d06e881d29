//! The tools of the program `rnlp` over any source and sink, chosen by their words: [`run_tool`] runs a script and
//! waits for its workers, [`plain_tool`] is for the tools that wait for nobody. What a tool answers is a [`ToolStatus`]
//! with one record for all commands, `ToolAnswer`: each status has its cause, and each cause its status. [`bound_text`]
//! counts the bounds of a script before anything runs. The headline of the product is one definition
//! (`specs/Headline.antt`), and [`laws`] has the laws that reports keep it.
#![tactic(auto)]

mod auditing;
mod bound_line;
mod bound_lines;
mod bounding;
mod command;
mod drilling;
mod due_line;
mod explained;
mod input;
pub mod laws;
mod list_fault;
mod looking;
mod output;
mod replaying;
mod running;
mod script_fault;
mod script_line;
mod status;
mod stopping;
mod tallying;
mod tool;

pub use bound_lines::bound_text;
pub use command::{Command, LIST_LIMIT, REPORT_LIMIT, RunForm, are_for_run, plain_of};
pub use explained::Told;
pub use output::write_output;
pub use rrun::Pace;
pub use running::{run_tool, told_run};
pub use status::ToolStatus;
pub use tool::{plain_tool, told_tool};

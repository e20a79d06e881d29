//! Scripts: the tasks of a run, section by section, read from a text. [`read_script`] gives a [`Script`], or the first
//! fault of the text as a [`ScriptCode`]. A script has its list of lines, and records spell it where each says the line
//! at its place. The module [`laws`] says what holds for all scripts, each law the contract of a function that does
//! nothing.
#![tactic(auto)]

mod code;
mod faults;
pub mod laws;
mod needs;
mod place;
mod reading;
mod record;
mod script;
mod section;
mod statement;
mod steps;
mod tables;
mod taker;
mod told;
mod word;

pub use code::ScriptCode;
pub use place::Where;
pub use script::{Script, ScriptErr, read_script};
pub use section::OpenSection;
pub use statement::Statement;

//! The edge of the program, all of `main` but its handles: [`run`] answers the words the program was started with, by
//! its own texts or by the tools of `rnlp_cli`, and reports to the user on standard error. [`Progress`] is a source
//! that reports how far it was read, [`Screen`] a pace that reports how far a run is.
#![tactic(auto)]

mod edge;
mod help;
mod lines;
mod meanings;
mod progress;
mod screen;
mod telling;
mod words;

pub use edge::{answer, run};
pub use progress::Progress;
pub use screen::Screen;
pub use telling::explain;
pub use words::{given_words, words_of};

//! The covers of the waits that the last of some events ended, computed word for word by their definition.
//!
//! [`plain_cover`] keeps every moment, and looks at each wait from its first moment on. It says what covers are; `rcover` follows
//! the same waits with far less work.
#![tactic(auto)]

mod by_definition;
mod cover;
mod holder;
mod leasts;
mod moments;

pub use by_definition::plain_cover;

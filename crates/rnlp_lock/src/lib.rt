//! The lock in one crate: a program that embeds it names this one alone.
//!
//! A [`Lock`] is opened over a list of values and read groups. Each of its [`Seat`]s makes sections, one after another, each in one call that runs a
//! closure under a guard: [`Sits`] has one for each kind. A value type with a [`Law`] keeps it, whatever the sections of all threads do.
#![tactic(auto)]

mod asking;
mod law;
mod lock;
mod nests;
mod rises;
mod seat;
mod sits;
mod stop;
mod work;

pub use law::Law;
pub use lock::{Left, Lock, LockErr, LockOver, Opened, Pass};
pub use nests::{Nesting, Nests};
pub use rclaim::Event;
pub use rises::Rises;
pub use rset::{RESOURCES, ResourceSet, SEATS};
pub use rvalue::{Act, Editable, Entry, History};
pub use seat::{Ruled, Seat, SeatOver, Stays, leave, together};
pub use sits::Sits;
pub use stop::Stop;
pub use work::{Reading, Rising, Work, Writing};

//! Where seats wait until others notify them that they hold more.
//!
//! [`Posts`] has a post for each seat. Whoever has changed the locked state leaves a token at the post of each other seat that
//! its event gave something; a seat that waits rests at its post until a token is there.
#![tactic(auto)]

mod granted;
mod post;
mod posts;

pub use granted::seats_granted;
pub use posts::Posts;

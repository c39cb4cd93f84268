//! A lock with turns over a value that keeps a list of entries. Each pass knows how far it has seen
//! the list, and which entries in it are its own.
#![tactic(auto)]

mod close;
mod front;
mod lock;
mod make;
mod pass;
mod passes;
mod plays;
mod rule;
mod steps;
mod view;

pub use front::Front;
pub use lock::{TurnLock, Worn};
pub use make::NewFault;
pub use pass::{MAX_DRAWS, Pass};
pub use passes::Passes;

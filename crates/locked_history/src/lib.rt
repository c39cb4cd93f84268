//! A desk at which threads take turns over a machine. Each call adds at most one step to one
//! history, and its reply is the history's own.
#![tactic(auto)]

mod desk;
mod faults;

pub use desk::{Asked, Desk, Ticked};
pub use faults::DeskFault;

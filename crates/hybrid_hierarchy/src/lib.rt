//! The hybrid hierarchy of roles: which edges are usable in a status, and the least walks over
//! them.
#![tactic(auto)]

mod hierarchies;
mod lasting;
mod outgoing;
mod questions;
mod searching;
mod walks;

pub use hierarchies::Hierarchy;
pub use walks::{may_activate, reaches, reaches_any, usable};

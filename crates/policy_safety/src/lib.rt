//! Policies that are safe: a policy is admitted exactly where it is, and else its cycle is told.
#![tactic(auto)]

mod admitting;
mod causes;
mod levelling;

pub use admitting::{AdmitFault, CycleEdge, Safe};
pub use levelling::{NoLevels, levels};

//! The program `gtrbac`: its commands over a shelf of texts, an input and an output.
#![tactic(auto)]

mod ahead;
mod commands;
mod explaining;
mod joined;
mod laws;
mod questions;
mod replying;
mod script;
mod standing;
mod starting;
mod summing;
mod top;

pub use explaining::explain;
pub use laws::{reasons_exist, run_means};
pub use top::tool;

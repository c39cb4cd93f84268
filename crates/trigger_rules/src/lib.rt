//! The triggers of a policy, by their bodies, and when the body of one is met.
#![tactic(auto)]

mod index;
mod laws;
mod rules;

pub use laws::indexes_tell;
pub use rules::{Rules, met_in};

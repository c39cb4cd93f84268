//! Decisions on permissions, with their reasons.
#![tactic(auto)]

mod deciding;
mod laws;

pub use deciding::{decide, decide_over};
pub use laws::roles_decide;

//! The judge of safety: levels of the nodes, or the least cycle with a marked edge.
#![tactic(auto)]

mod components;
mod judging;
mod strata;

pub use judging::judge;
pub use strata::{Strata, Verdict};

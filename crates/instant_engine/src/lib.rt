//! The one set that the base of an instant settles to.
#![tactic(auto)]

mod levels;
mod settling;

pub use levels::TriggerLevels;
pub use settling::{Stratified, settle, settled_contest, settled_in_looks};

//! The generator: a policy and a script that a seed and a size make.
#![tactic(auto)]

mod draws;
mod made;
mod policies;
mod scripts;

pub use made::{MAX_SIZE, Made, make};
pub use scripts::FIRST_MINUTE;

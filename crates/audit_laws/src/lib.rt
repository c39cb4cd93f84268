//! Laws of legal histories that an auditor asks for: permits and denials, requests that change
//! nothing, and what turns a fluent.
#![tactic(auto)]

mod decisions;
mod fluents;
mod no_change;
mod owners;

pub use decisions::{denials_are_right, permits_are_earned};
pub use fluents::what_turns;
pub use no_change::looks_change_nothing;
pub use owners::nobody_acts_in_anothers;

//! Texts of policies: reading them line by line to the policy or to the text of its fault, and
//! writing the canonical text.
#![tactic(auto)]

mod declarations;
mod faults;
mod hierarchy;
mod laws;
mod opening;
mod periods;
mod policies;
mod reading;
mod rules;
mod telling;
mod versions;
mod writing;

pub use faults::TextFault;
pub use laws::{canonical_are_sayings, canonical_is_built, canonical_is_read};
pub use policies::{PolicyText, policy_of};
pub use policy_words::TextKind;
pub use reading::read_policy;
pub use telling::{push_book_fault, push_text_fault};
pub use writing::write_policy;

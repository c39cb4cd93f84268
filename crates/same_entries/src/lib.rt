//! Whether replies, entries and lists of entries are the same.
#![tactic(auto)]

mod lists;
mod same;

pub use lists::begins;
pub use same::{same_entry, same_reply};

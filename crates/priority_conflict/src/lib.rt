//! Conflict within the set of an instant: which events are blocked, which win, what is seen of an
//! event, and the status after them.
#![tactic(auto)]

mod conflicts;
mod contests;
mod leading;

pub use conflicts::{blocked, greatest, next_status, seen};
pub use contests::Contest;
pub use leading::winners;

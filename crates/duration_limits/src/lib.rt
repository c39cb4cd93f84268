//! Duration limits: when each fluent last changed, and from when on a limit has run for long enough
//! to end its condition.
#![tactic(auto)]

mod ages;
mod laws;

pub use ages::Ages;
pub use laws::{ages_follow_changes, ages_read_rows, ripe_is_aged};

//! What a policy raises by itself at an instant, and when it raises something next: its periodic
//! entries and its duration limits.
#![tactic(auto)]

mod least;
mod limits;
mod periods;
mod raising;
mod remembered;
mod sets;
mod watches;

pub use least::{earlier, minute_after};
pub use limits::{next_limited_in_looks, push_limited};
pub use raising::{next_periodic_in_looks, push_periodic};
pub use sets::{add_events, add_signals};
pub use watches::{WatchedPeriod, ask_all, copied_watches, pass_all, watch_all};

//! Where periodic times start, where they are inside, and the next such instants.
#![tactic(auto)]

mod begins;
mod calendars;
mod next;
mod periods;
mod picks;
mod reach;
mod steps;

pub use next::{next_edge, next_inside, next_start};
pub use periods::{inside, starts};

//! The server: a crew of workers over the history of one policy, from the words of the program to
//! the log.
#![tactic(auto)]

mod crews;
mod finding;
mod poll;
mod printing;
mod serving;
mod statuses;
mod tasks;
mod top;
mod views;
mod views_serving;
mod views_status;
mod views_writing;
mod words;

pub use poll::daemon_poll;
pub use top::daemon;
pub use views::daemon_views;
pub use words::{Mode, mode_of};

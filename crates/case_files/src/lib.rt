//! Files of cases: runs of a program that stand as text, each with the status and the text that it
//! is to end with. A player runs them, and a report says of each by its name whether it ended so.
//! `cases.rt` says what such a file looks like.
#![tactic(auto)]

mod cases;
mod reports;
mod texts;

pub use cases::Case;
pub use reports::{CaseReport, Ended, Player};

//! The table of sessions: which are open, which roles are active in them since when, and which
//! minutes of a day are charged.
#![tactic(auto)]

mod activating;
mod activations;
mod active;
mod charged_days;
mod charges;
mod checks;
mod closings;
mod counting;
mod dropping;
mod faults;
mod laws;
mod nearing;
mod opened;
mod plans;
mod roles;
mod rows;
mod tables;
mod whole;

pub use faults::SessionFault;
pub use laws::{caps_stay, close_leaves, firm_ends_nothing, stretches_close};
pub use plans::Drops;
pub use tables::Sessions;

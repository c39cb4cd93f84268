//! Laws of histories in the subject's own words, what every policy keeps, and rules that settle
//! nothing.
#![tactic(auto)]

mod activations;
mod histories;
mod named;
mod policies;
mod tables;
mod unsafe_rows;

pub use activations::{active_in_order, signals_tell};
pub use histories::{longer_agrees, refused_changes_nothing, standing_blocks};
pub use named::{only_named_is_on, points_are_named};
pub use policies::{quiet_minutes, small_is_policy};
pub use tables::{pending_is_raised, quiet_closes, steps_go_on, stretch_stays, tick_adds_one_set};
pub use unsafe_rows::{liar_settles_never, waverer_settles_never};

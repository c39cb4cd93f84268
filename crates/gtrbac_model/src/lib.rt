//! What the server's words mean: periods, conflict, settled instants, execution models, sessions
//! and legal histories.
#![tactic(auto)]

mod calendars;
mod examples;
mod laws;

pub use calendars::Calendar;
pub use examples::{conflict_rows, date_rows, run_rows, settled_rows, walk_rows};
pub use laws::{
    levels_are_safe, levels_give_one_model, levels_give_only_model, levels_settle_once,
    never_both_ways, steps_keep_legal,
};

//! Laws of walks, closed walks and levels.
#![tactic(auto)]

mod dependencies;
mod laws;
mod rows;

pub use dependencies::{bare_triggers, dependencies_tell, linked_edges};
pub use laws::{
    computed_cycle_is_least, computed_walk_is_least, levels_leave_no_cycle, one_least_cycle,
    one_least_walk, safe_has_one_model, safe_is_levelled, safe_settles_once,
};
pub use rows::rivals_settle_twice;

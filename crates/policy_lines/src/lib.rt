//! One line of a policy, read and written.
#![tactic(auto)]

mod edges;
mod first_words;
mod forms;
mod items;
mod laws;
mod part_texts;
mod parts;
mod periods;
mod reading;
mod rests;
mod triggers;
mod units;
mod verbs;
mod writing;

pub use laws::{lines_are_cut, numbers_are_decimal, sayings_are_read, written_is_read};
pub use part_texts::{push_cond, push_delay, push_event, push_head, push_signal};
pub use parts::{next_cond, next_event, next_head, read_delay};
pub use reading::read_said;
pub use units::{next_name, read_instant, read_name};
pub use verbs::{cond_verb, event_text, event_verb};
pub use writing::{push_period, push_said};

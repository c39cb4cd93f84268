//! The timeline of a policy: when something is raised next, what an instant is closed to, and what
//! is on its way.
#![tactic(auto)]

mod closing;
mod copying;
mod dues;
mod grounds;
mod laws;
mod plans;
mod states;
mod timelines;
mod traces;
mod waiting;

pub use grounds::{Ground, GroundFault};
pub use laws::{asks_follow, bases_follow, born_follows, closes_follow, signals_follow};
pub use plans::Plan;
pub use timelines::{RequestFault, Timeline};
pub use traces::{Closed, Trace};

//! Serves many links on one thread: ports tell which of them has something to do, and each is
//! served until there is nothing to do for it yet, so no link waits for another.
#![tactic(auto)]

mod bytes;
mod ends;
mod front;
mod laws;
mod seats;
mod serve;
mod states;

pub use ends::{PollEnd, Polled};
pub use front::{RunEnd, run};
pub use laws::fronts_are_told;

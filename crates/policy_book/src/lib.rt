//! Policies: what the lines of a text make, with its names and numbers, or the first fault of the
//! lines together.
#![tactic(auto)]

mod books;
mod building;
mod checking;
mod copying;
mod cycle_laws;
mod cycles;
mod drafts;
mod faults;
mod finding;
mod finishing;
mod keys;
mod known;
mod laws;
mod lines;
mod named;
mod names;
mod rules;
mod tables;
mod tallies;

pub use books::Policy;
pub use cycle_laws::{computed_cycle_is_least, no_cycle_is_acyclic};
pub use faults::BookFault;
pub use finding::cycle_of;
pub use laws::{build_is_well_formed, faults_are_first};
pub use lines::{Part, Parts};
pub use named::{named_cond, named_event, named_fluent, named_head, named_signal};
pub use policy_words::{
    CapKind, EdgeKind, Item, Kind, NamedCond, NamedEvent, NamedFluent, NamedHead, NamedSignal, Said,
};

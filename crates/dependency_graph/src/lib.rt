//! The dependency graph of a list of triggers.
#![tactic(auto)]

mod building;
mod event_graphs;
mod laws;

pub use building::graph;
pub use event_graphs::EventGraph;
pub use laws::carried_over;

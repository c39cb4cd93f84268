//! Events that are due at later instants.
#![tactic(auto)]

mod agendas;
mod far;
mod laws;
mod near;
mod pairs;
mod rows;
mod trees;

pub use agendas::Agenda;
pub use laws::agendas_are_sets;
pub use pairs::Pending;

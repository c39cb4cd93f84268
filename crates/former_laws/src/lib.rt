//! That the definitions say of triggers without settled conditions, and of edges that are on, what
//! they said before these came.
#![tactic(auto)]

mod laws;

pub use laws::{
    bodies_as_before, dependencies_as_before, linked_stay_linked, minutes_as_before,
    walks_as_before,
};

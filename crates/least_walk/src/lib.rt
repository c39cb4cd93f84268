//! Least walks over a graph of numbered nodes and edges.
#![tactic(auto)]

mod chains;
mod distances;
mod graphs;
mod passing;
mod paths;
mod walking;

pub use chains::Adjacency;
pub use graphs::{Graph, GraphEdge};
pub use passing::Passable;
pub use paths::{EdgeList, Path};
pub use walking::{least_open_walk, least_walk, reaching};

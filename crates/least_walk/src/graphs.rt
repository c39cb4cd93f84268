//! Graphs of numbered nodes.
ghost use Rattle.std.specs.Prelude.{◌≡◌, ◌<◌, [], ◌∷◌, ◌++◌, length, Some, OnOk, OnErr, slice_get};
ghost use Rattle.least_walk.specs.Net.{HasEnds, IsNet};

use std::alloc::{AllocError, Global};
use std::marker::Model;

/// An edge between two nodes, which a user of the graph may mark.
#[derive(Clone, Copy, PartialEq, Eq)]
pub struct GraphEdge {
    pub from: u32,
    pub to: u32,
    pub marked: bool,
}

/// Nodes from 0 up to their number, and edges numbered from 0 in the order in which they were
/// added.
pub struct Graph {
    nodes: u32,
    edges: Vec<GraphEdge>,
}

impl Drop for Graph {
    fn drop(self) {
        let Graph { nodes: _, edges: _ } = self;
    }
}

impl Model for Graph {
    ghost use Rattle.std.specs.Prelude.{◌<◌, ◌≤◌, length};
    ghost use Rattle.least_walk.specs.Net.{Net, IsNet};

    ghost Value = { Net };

    ghost view = { λ g. record { nodes = g.nodes; edges = g.edges.items } };

    ghost invariant = { λ g. IsNet (record { nodes = g.nodes; edges = g.edges.items }) };
}

impl Graph {
    /// A graph with so many nodes and no edge.
    pub fn new(alloc: Global, nodes: u32) -> Graph
        ensures { result ≡ record { nodes = nodes; edges = [] } }
    {
        Graph {
            nodes,
            edges: Vec::new(alloc),
        }
    }

    /// Adds an edge, whose number is the number of edges before. After a refusal the graph is as it
    /// was.
    pub fn add(&mut self, e: GraphEdge) -> Result<(), AllocError>
        requires ends { HasEnds self.old.nodes e }
        requires room { length self.old.edges < u32.MAX }
        ensures ok { OnOk result (self.new ≡ record {
          nodes = self.old.nodes;
          edges = self.old.edges
              ++ e ∷ [];
        }) }
        ensures err { OnErr result (self.new ≡ self.old) }
    {
        self.edges.push(e)?;
        Ok(())
    }

    /// What every graph keeps: both ends of each edge are nodes, and the number of each edge is
    /// below 4,294,967,295.
    pub fn keeps(&self)
        ensures { IsNet self.now }
    {
        let _ = &self.edges;
    }

    /// How many nodes it has.
    pub fn nodes(&self) -> u32
        ensures { result ≡ self.now.nodes }
    {
        self.nodes
    }

    /// How many edges it has.
    pub fn len(&self) -> u32
        ensures { result ≡ length self.now.edges }
    {
        self.edges.len() as u32
    }

    /// The edge of this number.
    pub fn edge(&self, n: u32) -> GraphEdge
        requires { n < length self.now.edges }
        ensures { slice_get self.now.edges n ≡ Some result }
    {
        self.edges[n as usize]
    }

    /// The edges in their order.
    pub fn edges(&self) -> &[GraphEdge]
        ensures edges { result.now ≡ self.now.edges }
        ensures net { IsNet self.now }
    {
        &self.edges
    }
}

//! The edges of each node, found without a look at the others.
ghost use Rattle.std.specs.Prelude.{◌≡◌, ℕ, ◌<◌, ◌≤◌, map, length, IfOk, Some};
ghost use Rattle.std.specs.List.{slice_index_or, range_with_len};
ghost use Rattle.gtrbac_model.specs.Graph.{item_at};
ghost use Rattle.least_walk.specs.Net.{EndsIn};
ghost use Rattle.least_walk.specs.Chains.{AreChains, IsAdjacency, edge_begins, ends};

use crate::graphs::GraphEdge;
use std::alloc::{AllocError, Global};

/// Stands for no edge.
pub(crate) const NO_EDGE: u32 = u32::MAX;

/// For each node the last of its edges, and for each edge the one before it of the same node.
#[derive(Drop)]
pub(crate) struct Chains {
    pub(crate) last: Vec<u32>,
    pub(crate) before: Vec<u32>,
}

/// The edges of each node: those that begin there, and those that end there.
pub struct Adjacency {
    pub(crate) out: Chains,
    pub(crate) into: Chains,
}

impl Drop for Adjacency {
    fn drop(self) {
        let Adjacency { out: _, into: _ } = self;
    }
}

impl Adjacency {
    /// The edges by their nodes, of which there are so many.
    pub fn new(alloc: Global, nodes: u32, edges: &[GraphEdge]) -> Result<Adjacency, AllocError>
        requires ends { EndsIn nodes edges.now }
        requires few { length edges.now ≤ NO_EDGE }
        ensures { IfOk result (IsAdjacency edges.now) }
    {
        let begins = begins_of(alloc, edges)?;
        let ends = ends_of(alloc, edges)?;
        let out = chains_of(alloc, nodes, &begins)?;
        let into = chains_of(alloc, nodes, &ends)?;
        Ok(Adjacency { out, into })
    }
}

/// Where the edges begin.
fn begins_of(alloc: Global, edges: &[GraphEdge]) -> Result<Vec<u32>, AllocError>
    ensures { IfOk result (λ nodes. nodes.items ≡ edge_begins edges.now) }
{
    edges.iter().map(|e| e.from).collect(alloc)
}

/// Where the edges end.
fn ends_of(alloc: Global, edges: &[GraphEdge]) -> Result<Vec<u32>, AllocError>
    ensures { IfOk result (λ nodes. nodes.items ≡ ends edges.now) }
{
    edges.iter().map(|e| e.to).collect(alloc)
}

/// For each node the last edge with this key, and for each edge the one before it with the same
/// key.
fn chains_of(alloc: Global, nodes: u32, keys: &[u32]) -> Result<Chains, AllocError>
    requires keys { (n v : ℕ) → item_at keys.now n ≡ Some v → v < nodes }
    requires few { length keys.now ≤ NO_EDGE }
    ensures { IfOk result (λ chains. AreChains keys.now chains.last.items chains.before.items) }
{
    let mut last = no_edges(alloc, nodes)?;
    let mut before = Vec::new(alloc);
    for (n, v) in keys.iter().enumerate() {
        before.push(last[*v as usize])?;
        last[*v as usize] = n as u32;
    }
    Ok(Chains { last, before })
}

/// No edge for any node.
fn no_edges(alloc: Global, nodes: u32) -> Result<Vec<u32>, AllocError>
    ensures { IfOk result (λ none. none.items ≡ map (λ v. NO_EDGE) (range_with_len 0 nodes)) }
{
    (0..nodes).map(|_| NO_EDGE).collect(alloc)
}

/// The last edge of the node.
pub(crate) fn last_of(chains: &Chains, v: u32) -> u32
    ensures { result ≡ slice_index_or chains.now.last.items v NO_EDGE }
{
    match chains.last.get(v as usize) {
        Some(n) => *n,
        None => NO_EDGE,
    }
}

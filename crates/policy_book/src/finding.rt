//! The search for the least cycle.
ghost use Rattle.std.specs.Prelude.{◌≡◌, ◌≤◌, length, IfOk};
ghost use Rattle.gtrbac_model.specs.EdgeCycles.{edge_cycle};
ghost use Rattle.policy_book.specs.Nets.{net_of};
ghost use Rattle.hybrid_hierarchy.specs.Nets.{AreWithin};

use gt_base::{HierEdge, Memory};
use least_walk::{EdgeList, Graph, GraphEdge};
use safety_cycle::{Verdict, judge};
use std::alloc::{AllocError, Global};

/// The numbers of the edges of the least cycle, none where the edges have no cycle: the least edge
/// that lies on one, followed by the least walk from its junior back to its senior. Of two walks
/// the less has fewer edges, or as many and lesser numbers. An edge from a role to itself is a
/// cycle by itself. Each role has a number below `roles`.
pub fn cycle_of(alloc: Global, roles: u32, edges: &[HierEdge]) -> Result<Option<EdgeList>, Memory>
    requires ends { AreWithin roles edges.now }
    requires few { length edges.now ≤ u32.MAX }
    ensures { IfOk result (λ found. found ≡ edge_cycle edges.now) }
{
    let graph = graph_of(alloc, roles, edges)?;
    match judge(alloc, &graph) {
        Ok(_) => Ok(None),
        Err(Verdict::Cycle { edges }) => Ok(Some(edges)),
        Err(Verdict::Memory) => Err(AllocError),
    }
}

/// The graph with a node for each role and each edge from its senior to its junior, marked.
fn graph_of(alloc: Global, roles: u32, edges: &[HierEdge]) -> Result<Graph, Memory>
    requires ends { AreWithin roles edges.now }
    requires few { length edges.now ≤ u32.MAX }
    ensures { IfOk result (λ graph. graph ≡ net_of roles edges.now) }
{
    let mut graph = Graph::new(alloc, roles);
    for edge in edges {
        graph.add(GraphEdge {
            from: edge.senior.0,
            to: edge.junior.0,
            marked: true,
        })?;
    }
    Ok(graph)
}

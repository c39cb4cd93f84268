//! Why a policy is not safe.
ghost use Rattle.std.specs.Prelude.{◌<◌, length, IfOk, OnOk};
ghost use Rattle.policy_safety.specs.Cycles.{AreTold, AddsTold, IsToldEdge};

use crate::admitting::CycleEdge;
use dependency_graph::EventGraph;
use gt_base::{List, Memory};
use std::alloc::Global;

/// The edges of a graph that have these numbers, as dependencies.
pub(crate) fn told(
    alloc: Global,
    g: &EventGraph,
    numbers: &[u32],
) -> Result<List<CycleEdge>, Memory>
    ensures { IfOk result (λ edges. AreTold g.now edges.items numbers.now) }
{
    let mut edges = Vec::new(alloc);
    for n in numbers {
        tell(&mut edges, g, *n)?;
    }
    Ok(List::from(edges))
}

/// Adds the edge of this number, where there is one.
fn tell(edges: &mut Vec<CycleEdge>, g: &EventGraph, n: u32) -> Result<(), Memory>
    ensures { OnOk result (AddsTold g.now edges.old.items n edges.new.items) }
{
    if n < g.graph().len() {
        edges.push(edge_of(g, n))?;
    }
    Ok(())
}

/// The edge of this number, as a dependency.
fn edge_of(g: &EventGraph, n: u32) -> CycleEdge
    requires { n < length g.now.net.edges }
    ensures { IsToldEdge g.now result n }
{
    g.graph().keeps();
    let e = g.graph().edge(n);
    let (trigger, place) = g.place(n);
    CycleEdge {
        conflict: e.marked,
        trigger,
        place,
        source: g.event(e.from),
        target: g.event(e.to),
    }
}

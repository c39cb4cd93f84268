//! The least cycle of edges.
ghost use Rattle.std.specs.Prelude.{◌≡◌, ◌≤◌, ◌<◌, ◌++◌, length, map, None, OnOk, IfOk, IfErr};
ghost use Rattle.gtrbac_model.specs.Graph.{item_at};
ghost use Rattle.gtrbac_model.specs.EdgeCycles.{edge_cycle};
ghost use Rattle.hybrid_hierarchy.specs.Nets.{AreWithin};
ghost use Rattle.policy_words.specs.Naming.{role_name};
ghost use Rattle.policy_words.specs.LinesTogether.{edges_at};
ghost use Rattle.policy_words.specs.PolicyRead.{again};
ghost use Rattle.policy_book.specs.Seen.{seen_names};
ghost use Rattle.policy_book.specs.Faults.{seniors};
ghost use Rattle.policy_book.specs.Cycles.{TellsEdges, IsCycleFault};

use crate::cycle_of;
use crate::faults::BookFault;
use crate::names::NameTables;
use gt_base::{HierEdge, List, Memory, Name};
use std::alloc::Global;

/// The edge with this number, from 0; None where there are not so many.
#[tactic(auto, using(least_walk::proofs::Items::item_get))]
fn edge_at(edges: &[HierEdge], number: u32) -> Option<HierEdge>
    ensures { result ≡ item_at edges.now number }
{
    edges.get(number as usize).copied()
}

/// The edges of these numbers.
fn edges_of(alloc: Global, edges: &[HierEdge], numbers: &[u32]) -> Result<Vec<HierEdge>, Memory>
    ensures { IfOk result (λ found. found.items ≡ edges_at edges.now numbers.now) }
{
    let mut found = Vec::new(alloc);
    for number in numbers {
        if let Some(edge) = edge_at(edges, *number) {
            found.push(edge)?;
        }
    }
    Ok(found)
}

/// The name of an edge's senior.
fn senior(names: &NameTables, edge: &HierEdge) -> Name
    requires { edge.now.senior.0 < length names.now.roles }
    ensures { result ≡ role_name (seen_names names.now) edge.now.senior }
{
    names.roles.name(edge.senior.0)
}

/// The names of the edges' seniors, in the order of the edges.
fn senior_names(alloc: Global, names: &NameTables, edges: &[HierEdge]) -> Result<Vec<Name>, Memory>
    requires { AreWithin (length names.now.roles) edges.now }
    ensures { IfOk result (λ found. found.items ≡ map
        (λ e. role_name (seen_names names.now) e.senior) edges.now) }
{
    let mut found = Vec::new(alloc);
    for edge in edges {
        found.push(senior(names, edge))?;
    }
    Ok(found)
}

/// The names of the edges' seniors, the first of them again at the end.
fn names_round(alloc: Global, names: &NameTables, edges: &[HierEdge]) -> Result<Vec<Name>, Memory>
    requires { AreWithin (length names.now.roles) edges.now }
    ensures { IfOk result (λ found. found.items ≡ seniors (seen_names names.now) edges.now) }
{
    let mut found = senior_names(alloc, names, edges)?;
    if let Some(first) = edges.first() {
        found.push(senior(names, first))?;
    }
    Ok(found)
}

/// The fault of a cycle: its edges by number, and the names that it leads along.
fn cycle_fault(
    alloc: Global,
    names: &NameTables,
    edges: &[HierEdge],
    numbers: &[u32],
) -> Result<BookFault, Memory>
    requires { AreWithin (length names.now.roles) edges.now }
    ensures { IfOk result (TellsEdges (seen_names names.now) (edges_at edges.now numbers.now)) }
{
    let edges = edges_of(alloc, edges, numbers)?;
    let names = names_round(alloc, names, &edges)?;
    Ok(BookFault::HierarchyCycle {
        edges: List::from(edges),
        names: List::from(names),
    })
}

/// Tells the least cycle of the edges.
pub(crate) fn check_edges(
    alloc: Global,
    names: &NameTables,
    edges: &[HierEdge],
) -> Result<(), BookFault>
    requires short { length edges.now ≤ u32.MAX }
    requires within { AreWithin (length names.now.roles) edges.now }
    ensures ok { OnOk result (edge_cycle edges.now ≡ None) }
    ensures fault { IfErr result (IsCycleFault (seen_names names.now) edges.now) }
{
    let Some(numbers) = cycle_of(alloc, names.roles.len(), edges)? else {
        return Ok(());
    };
    Err(cycle_fault(alloc, names, edges, numbers.as_slice())?)
}

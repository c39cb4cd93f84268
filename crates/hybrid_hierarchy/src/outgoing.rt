//! The edges that lead from each role, found without a look at the others.
ghost use Rattle.std.specs.Prelude.{◌≡◌, ℕ, ◌<◌, ◌≤◌, replicate, length, IfOk};
ghost use Rattle.std.specs.List.{slice_index_or};
ghost use Rattle.hybrid_hierarchy.specs.Nets.{IsHierarchy};
ghost use Rattle.hybrid_hierarchy.specs.Searches.{seniors_in, IsOutgoing};

use gt_base::{HierEdge, MAX_ROLES, Memory};
use std::alloc::Global;

/// Stands for no edge.
pub(crate) const NO_EDGE: u32 = u32::MAX;

/// For each role the first of its edges, for each edge the next one of the same senior role, and
/// the roles that have edges, ascending.
#[derive(Drop)]
pub(crate) struct Outgoing {
    pub(crate) first: Vec<u32>,
    pub(crate) next: Vec<u32>,
    pub(crate) seniors: Vec<u32>,
    ghost listed: { seniors.items ≡ seniors_in first.items },
}

/// The edges by their senior roles.
pub(crate) fn outgoing_of(alloc: Global, edges: &[HierEdge]) -> Result<Outgoing, Memory>
    requires { IsHierarchy edges.now }
    ensures { IfOk result (λ out. IsOutgoing edges.now out.first.items out.next.items) }
{
    let mut first = no_edges(alloc, MAX_ROLES as usize)?;
    let mut next = no_edges(alloc, edges.len())?;
    let mut n = edges.len();
    while n > 0 {
        n -= 1;
        let senior = edges[n].senior.0 as usize;
        next[n] = first[senior];
        first[senior] = n as u32;
    }
    let seniors = seniors_of(alloc, &first)?;
    Ok(Outgoing {
        first,
        next,
        seniors,
    })
}

/// No edge, so many times.
fn no_edges(alloc: Global, n: usize) -> Result<Vec<u32>, Memory>
    ensures { IfOk result (λ none. none.items ≡ replicate n NO_EDGE) }
{
    vec![in alloc; NO_EDGE; n]
}

/// The roles from which an edge leads, ascending.
#[tactic(auto, unfolding(crate::specs::Searches::seniors_in))]
fn seniors_of(alloc: Global, first: &[u32]) -> Result<Vec<u32>, Memory>
    ensures { IfOk result (λ seniors. seniors.items ≡ seniors_in first.now) }
{
    (0..MAX_ROLES)
        .filter(|r| first_at(first, *r) != NO_EDGE)
        .collect(alloc)
}

/// The first edge of the role in this row of them.
fn first_at(first: &[u32], role: u32) -> u32
    ensures { result ≡ slice_index_or first.now role NO_EDGE }
{
    match first.get(role as usize) {
        Some(n) => *n,
        None => NO_EDGE,
    }
}

/// The first edge of the role.
pub(crate) fn first_of(out: &Outgoing, role: u32) -> u32
    ensures { result ≡ slice_index_or out.now.first.items role NO_EDGE }
{
    first_at(&out.first, role)
}

//! The least walk from one of several starts to a goal.
ghost use Rattle.std.specs.Prelude.{◌≡◌, ℕ, ◌<◌, ◌≤◌, ◌^◌, Bool, List, map, not, length, IfOk, IfSome, IfNone, MatchOption, Some, slice_index};
ghost use Rattle.gtrbac_model.specs.Graph.{IsLeastWalk, item_at};
ghost use Rattle.least_walk.specs.Net.{EndsIn, arcs_of, arcs_by};
ghost use Rattle.least_walk.specs.Chains.{AreChains, IsAdjacency, edge_begins};
ghost use Rattle.least_walk.specs.Distances.{is_far, AreDistances};
ghost use Rattle.least_walk.specs.Walks.{IsReach, is_goal, HasNoWalk, IsFirstStep, Descends, IsNearest, AllFar};

use crate::chains::{Adjacency, Chains, NO_EDGE, last_of};
use crate::distances::{FAR, distances};
use crate::graphs::{Graph, GraphEdge};
use crate::passing::{Everywhere, Passable};
use crate::paths::{EdgeList, Path};
use std::alloc::{AllocError, Global};

/// The least walk from one of the starts to a goal: by the number of its edges, then by the place
/// of its start in `from`, then by the numbers of its edges. None where no walk leads from a start
/// to a goal.
pub fn least_walk(
    alloc: Global,
    g: &Graph,
    from: &[u32],
    goal: &[bool],
) -> Result<Option<Path>, AllocError>
    requires goals { length goal.now ≡ g.now.nodes }
    requires starts { (i s : ℕ) → item_at from.now i ≡ Some s → s < g.now.nodes }
    ensures some { IfOk result (λ found. IfSome found (λ p.
        IsLeastWalk (arcs_of g.now.edges) (is_goal goal.now) from.now
        (record { start = p.start; arcs = p.edges }))) }
    ensures none { IfOk result (λ found. IfNone found
        (HasNoWalk (arcs_of g.now.edges) (is_goal goal.now) from.now)) }
{
    let edges = g.edges();
    let sides = Adjacency::new(alloc, g.nodes(), edges)?;
    least_open_walk(alloc, edges, &sides, &Everywhere, from, goal)
}

/// The least walk over the open edges, by the same order. The adjacency is that of the edges; it
/// may be used again while they stay.
pub fn least_open_walk<P: Passable>(
    alloc: Global,
    edges: &[GraphEdge],
    sides: &Adjacency,
    by: &P,
    from: &[u32],
    goal: &[bool],
) -> Result<Option<Path>, AllocError>
    requires sides { IsAdjacency edges.now sides.now }
    requires edges { length edges.now ≤ NO_EDGE }
    requires ends { EndsIn (length goal.now) edges.now }
    requires few { length goal.now < 2 ^ 32 }
    requires starts { (i s : ℕ) → item_at from.now i ≡ Some s → s < length goal.now }
    ensures some { IfOk result (λ found. IfSome found (λ p.
        IsLeastWalk (arcs_by (P.passes by.now) edges.now) (is_goal goal.now) from.now
        (record { start = p.start; arcs = p.edges }))) }
    ensures none { IfOk result (λ found. IfNone found
        (HasNoWalk (arcs_by (P.passes by.now) edges.now) (is_goal goal.now) from.now)) }
{
    let dist = distances(alloc, edges, &sides.into, by, goal)?;
    let Some(start) = nearest(from, &dist) else {
        return Ok(None);
    };
    let numbers = follow(alloc, edges, &sides.out, by, goal, &dist, start)?;
    Ok(Some(Path {
        start,
        edges: numbers,
    }))
}

/// The nearest start, and the earliest of several.
fn nearest(from: &[u32], dist: &[usize]) -> Option<u32>
    requires { (i s : ℕ) → item_at from.now i ≡ Some s → s < length dist.now }
    ensures { MatchOption result (AllFar from.now dist.now) (IsNearest from.now dist.now) }
{
    let mut least = FAR;
    let mut best = None;
    for s in from {
        if dist[*s as usize] < least {
            least = dist[*s as usize];
            best = Some(*s);
        }
    }
    best
}

/// The least open edge that leads from the node one step closer to a goal.
fn first_step<P: Passable>(
    edges: &[GraphEdge],
    out: &Chains,
    by: &P,
    goal: &[bool],
    dist: &[usize],
    at: u32,
) -> u32
    requires ends { EndsIn (length goal.now) edges.now }
    requires edges { length edges.now ≤ NO_EDGE }
    requires chains { AreChains (edge_begins edges.now) out.now.last.items out.now.before.items }
    requires dist { AreDistances (P.passes by.now) edges.now goal.now dist.now }
    requires inside { at < length dist.now }
    requires some { 0 < slice_index dist.now at }
    requires reached { slice_index dist.now at < FAR }
    ensures { IsFirstStep (P.passes by.now) edges.now dist.now at result }
{
    let mut best = NO_EDGE;
    let mut n = last_of(out, at);
    while n != NO_EDGE {
        if dist[edges[n as usize].to as usize] < dist[at as usize] && by.may_pass(n) {
            best = n;
        }
        n = out.before[n as usize];
    }
    best
}

/// Goes along first steps from the start until a goal.
fn follow<P: Passable>(
    alloc: Global,
    edges: &[GraphEdge],
    out: &Chains,
    by: &P,
    goal: &[bool],
    dist: &[usize],
    start: u32,
) -> Result<EdgeList, AllocError>
    requires ends { EndsIn (length goal.now) edges.now }
    requires edges { length edges.now ≤ NO_EDGE }
    requires chains { AreChains (edge_begins edges.now) out.now.last.items out.now.before.items }
    requires dist { AreDistances (P.passes by.now) edges.now goal.now dist.now }
    requires inside { start < length dist.now }
    requires reached { slice_index dist.now start < FAR }
    ensures { IfOk result (λ numbers. Descends (P.passes by.now) edges.now dist.now start numbers) }
{
    let mut numbers = EdgeList::new(alloc);
    let mut at = start;
    while dist[at as usize] > 0 {
        let n = first_step(edges, out, by, goal, dist, at);
        numbers.push(n)?;
        at = edges[n as usize].to;
    }
    Ok(numbers)
}

/// Tells of each node whether a walk leads from it to a goal.
pub fn reaching(alloc: Global, g: &Graph, goal: &[bool]) -> Result<Vec<bool>, AllocError>
    requires { length goal.now ≡ g.now.nodes }
    ensures size { IfOk result (λ reach. length reach.items ≡ g.now.nodes) }
    ensures reach { IfOk result (λ reach. IsReach g.now.edges (is_goal goal.now) reach.items) }
{
    let edges = g.edges();
    let sides = Adjacency::new(alloc, g.nodes(), edges)?;
    let dist = distances(alloc, edges, &sides.into, &Everywhere, goal)?;
    reached(alloc, &dist)
}

/// Which nodes are at a distance.
fn reached(alloc: Global, dist: &[usize]) -> Result<Vec<bool>, AllocError>
    ensures { IfOk result (λ reach. reach.items ≡ map (λ d. not (is_far d)) dist.now) }
{
    dist.iter().map(|d| *d != FAR).collect(alloc)
}

//! How far each node is from the goals.
ghost use Rattle.std.specs.Prelude.{◌≡◌, ◌+◌, ◌<◌, ◌≤◌, ◌^◌, map, filter, length, IfOk, OnOk, true, false};
ghost use Rattle.std.specs.List.{range_with_len};
ghost use Rattle.least_walk.specs.Net.{EndsIn};
ghost use Rattle.least_walk.specs.Chains.{AreChains, ends};
ghost use Rattle.least_walk.specs.Distances.{unreached, start_of, AreDistances, Spread};
ghost use Rattle.least_walk.specs.Walks.{is_goal};

use crate::chains::{Chains, NO_EDGE, last_of};
use crate::graphs::GraphEdge;
use crate::passing::Passable;
use std::alloc::{AllocError, Global};

/// Stands for the distance of a node from which no walk leads to a goal.
pub(crate) const FAR: usize = usize::MAX;

/// How many edges the shortest walk over open edges from each node to a goal has: breadth first, so
/// that each edge is looked at once.
pub(crate) fn distances<P: Passable>(
    alloc: Global,
    edges: &[GraphEdge],
    into: &Chains,
    by: &P,
    goal: &[bool],
) -> Result<Vec<usize>, AllocError>
    requires ends { EndsIn (length goal.now) edges.now }
    requires few { length goal.now < 2 ^ 32 }
    requires edges { length edges.now ≤ NO_EDGE }
    requires chains { AreChains (ends edges.now) into.now.last.items into.now.before.items }
    ensures { IfOk result (λ ds. AreDistances (P.passes by.now) edges.now goal.now ds.items) }
{
    let mut dist = goals_at_zero(alloc, goal)?;
    let mut found = goals_listed(alloc, goal)?;
    let mut head = 0;
    while head < found.len() {
        widen(edges, into, by, goal, head, &mut dist, &mut found)?;
        head += 1;
    }
    Ok(dist)
}

/// Distance 0 at the goals, and none elsewhere.
fn goals_at_zero(alloc: Global, goal: &[bool]) -> Result<Vec<usize>, AllocError>
    ensures { IfOk result (λ ds. ds.items ≡ map start_of goal.now) }
{
    goal.iter()
        .map(|is| if *is { 0 } else { FAR })
        .collect(alloc)
}

/// The goals, ascending.
fn goals_listed(alloc: Global, goal: &[bool]) -> Result<Vec<u32>, AllocError>
    requires { length goal.now < 2 ^ 32 }
    ensures { IfOk result (λ found. found.items ≡ filter (is_goal goal.now)
        (range_with_len 0 (length goal.now))) }
{
    (0..goal.len() as u32)
        .filter(|v| is_marked(goal, *v))
        .collect(alloc)
}

/// Whether the node is a goal.
fn is_marked(goal: &[bool], v: u32) -> bool
    ensures { result ≡ is_goal goal.now v }
{
    match goal.get(v as usize) {
        Some(is) => *is,
        None => false,
    }
}

/// Gives each node without a distance that has an open edge to the one at the head a distance one
/// greater, and adds it to those found.
fn widen<P: Passable>(
    edges: &[GraphEdge],
    into: &Chains,
    by: &P,
    goal: &[bool],
    head: usize,
    dist: &mut [usize],
    found: &mut Vec<u32>,
) -> Result<(), AllocError>
    requires ends { EndsIn (length goal.now) edges.now }
    requires few { length goal.now < 2 ^ 32 }
    requires edges { length edges.now ≤ NO_EDGE }
    requires chains { AreChains (ends edges.now) into.now.last.items into.now.before.items }
    requires head { head < length found.old.items }
    requires spread { Spread (P.passes by.now) edges.now goal.now dist.old found.old.items head }
    ensures spread { OnOk result (Spread (P.passes by.now) edges.now goal.now dist.new
        found.new.items (head + 1)) }
    ensures fewer { OnOk result (length found.new.items + unreached dist.new
        ≤ length found.old.items + unreached dist.old) }
{
    let at = found[head];
    let mut n = last_of(into, at);
    while n != NO_EDGE {
        let from = edges[n as usize].from;
        if dist[from as usize] == FAR && by.may_pass(n) {
            dist[from as usize] = dist[at as usize] + 1;
            found.push(from)?;
        }
        n = into.before[n as usize];
    }
    Ok(())
}

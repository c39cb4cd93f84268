//! The judge: levels of the nodes of a graph, or the least cycle with a marked edge.
ghost use Rattle.std.specs.Prelude.{◌≡◌, ℕ, ◌+◌, ◌<◌, ◌≤◌, true, ◌∷◌, length, slice_index, Some, IfOk, IfErr, OnOk, nat_eq};
ghost use Rattle.least_walk.specs.Net.{EndsIn};
ghost use Rattle.least_walk.specs.Walks.{is_goal};
ghost use Rattle.safety_cycle.specs.Judged.{IsStratified, IsVerdict};
ghost use Rattle.safety_cycle.specs.Ranks.{NeverFall, AreRanks, lifted};

use crate::components::{filled, guess};
use crate::strata::{Strata, Verdict};
use least_walk::{EdgeList, Graph, GraphEdge, least_walk, reaching};
use std::alloc::{AllocError, Global};

/// Levels of the nodes where no cycle has a marked edge, else the least such cycle.
pub fn judge(alloc: Global, g: &Graph) -> Result<Strata, Verdict>
    ensures ok { IfOk result (IsStratified g.now) }
    ensures cycle { IfErr result (IsVerdict g.now) }
{
    let mut ranks = first_ranks(alloc, g)?;
    for n in 0..g.len() {
        look(alloc, g, &mut ranks, n)?;
    }
    Ok(Strata { levels: ranks })
}

/// Ranks to begin with: the guess, where it falls along no edge, else one rank for all.
fn first_ranks(alloc: Global, g: &Graph) -> Result<Vec<u32>, AllocError>
    ensures { IfOk result (λ ranks. AreRanks g.now.nodes g.now.edges ranks.items 0) }
{
    let ranks = guess(alloc, g)?;
    let edges = g.edges();
    if are_low(&ranks, u32::MAX - g.len()) && never_fall(edges, &ranks) {
        return Ok(ranks);
    }
    filled(alloc, g.nodes(), 0)
}

/// Whether no rank is above the limit.
fn are_low(ranks: &[u32], limit: u32) -> bool
    ensures { result ≡ true → (v : ℕ) → slice_index ranks.now v ≤ limit }
{
    for r in ranks {
        if *r > limit {
            return false;
        }
    }
    true
}

/// Whether the ranks fall along no edge.
fn never_fall(edges: &[GraphEdge], ranks: &[u32]) -> bool
    requires { EndsIn (length ranks.now) edges.now }
    ensures { result ≡ true → NeverFall edges.now ranks.now }
{
    for e in edges {
        if ranks[e.from as usize] > ranks[e.to as usize] {
            return false;
        }
    }
    true
}

/// Looks at an edge. Where it is marked and its ends have one rank, the least walk from its end to
/// its begin closes a cycle; where there is none, the nodes of that rank from which no walk leads
/// to its begin go up by one, and all above them.
fn look(alloc: Global, g: &Graph, ranks: &mut [u32], n: u32) -> Result<(), Verdict>
    requires ranks { AreRanks g.now.nodes g.now.edges ranks.old n }
    requires edge { n < length g.now.edges }
    ensures ok { OnOk result (AreRanks g.now.nodes g.now.edges ranks.new (n + 1)) }
    ensures cycle { IfErr result (IsVerdict g.now) }
{
    g.keeps();
    let e = g.edge(n);
    let rank = ranks[e.from as usize];
    if !e.marked || rank != ranks[e.to as usize] {
        return Ok(());
    }
    let goal = only(alloc, g.nodes(), e.from)?;
    if let Some(path) = least_walk(alloc, g, &[e.to], &goal)? {
        return Err(Verdict::Cycle {
            edges: closed(alloc, n, &path.edges)?,
        });
    }
    let reach = reaching(alloc, g, &goal)?;
    lift(ranks, &reach, rank);
    Ok(())
}

/// Marks one node alone.
fn only(alloc: Global, nodes: u32, node: u32) -> Result<Vec<bool>, AllocError>
    ensures size { IfOk result (λ goal. length goal.items ≡ nodes) }
    ensures one { IfOk result (λ goal. (v : ℕ) → v < nodes → is_goal goal.items v ≡ nat_eq v node) }
{
    let mut goal = Vec::new(alloc);
    for v in 0..nodes {
        goal.push(v == node)?;
    }
    Ok(goal)
}

/// The edge, and then the walk back.
fn closed(alloc: Global, n: u32, walk: &EdgeList) -> Result<EdgeList, AllocError>
    ensures { IfOk result (λ edges. edges ≡ n ∷ walk.now) }
{
    let mut edges = EdgeList::new(alloc);
    edges.push(n)?;
    for m in walk.as_slice() {
        edges.push(*m)?;
    }
    Ok(edges)
}

/// Lifts by one what has a greater rank, or has this rank and is not marked.
fn lift(ranks: &mut [u32], reach: &[bool], rank: u32)
    requires size { length reach.now ≡ length ranks.old }
    requires room { (v : ℕ) → slice_index ranks.old v < u32.MAX }
    ensures { (v : ℕ) → v < length ranks.old
        → slice_index ranks.new v ≡ lifted rank (slice_index ranks.old v) (is_goal reach.now v) }
{
    for v in 0..ranks.len() {
        if ranks[v] > rank || ranks[v] == rank && !reach[v] {
            ranks[v] += 1;
        }
    }
}

//! The least walk and the judge against a plain listing of all walks, on ten thousand random small
//! graphs.
ghost use Rattle.std.specs.Prelude.{◌≡◌, ◌<◌, ◌≤◌, length, IfOk};

use crate::drawing::draw;
use least_walk::{Graph, GraphEdge, Path, least_walk};
use safety_cycle::{Strata, Verdict, judge};
use std::alloc::{AllocError, Global};
use std::test::Fail;

/// A walk of so many edges, whose numbers are the digits of the code; one digit can be the number
/// of any edge.
#[derive(Clone, Copy)]
struct Listed {
    start: u32,
    length: u32,
    code: usize,
}

/// Whether the listed edges lead from the start to this node.
fn leads(edges: &[GraphEdge], walk: Listed, end: u32) -> bool {
    let digits = edges.len().max(1);
    let mut at = end;
    let mut code = walk.code;
    for _ in 0..walk.length {
        match edges.get(code % digits) {
            Some(e) if e.to == at => at = e.from,
            _ => return false,
        }
        code /= digits;
    }
    at == walk.start
}

/// Whether these are the numbers of the listed edges.
fn spells(edges: &[GraphEdge], walk: Listed, numbers: &[u32]) -> bool {
    let digits = edges.len().max(1);
    let mut code = walk.code;
    for n in numbers.iter().rev() {
        if *n as usize != code % digits {
            return false;
        }
        code /= digits;
    }
    numbers.len() == walk.length as usize
}

/// The first walk to one of the ends, where walks are listed by length, then by start, then by the
/// numbers of their edges.
fn listed_walk(g: &Graph, from: &[u32], ends: &[u32]) -> Option<Listed> {
    let edges = g.edges();
    let mut codes = 1;
    for length in 0..=g.nodes() {
        for start in from {
            for code in 0..codes {
                let walk = Listed {
                    start: *start,
                    length,
                    code,
                };
                for end in ends {
                    if leads(edges, walk, *end) {
                        return Some(walk);
                    }
                }
            }
        }
        codes = edges.len().wrapping_mul(codes);
    }
    None
}

/// The first marked edge with a walk from its end back to its begin, and the first such walk.
fn listed_cycle(g: &Graph) -> Option<(u32, Listed)> {
    for n in 0..g.len() {
        let e = g.edge(n);
        if e.marked {
            if let Some(walk) = listed_walk(g, &[e.to], &[e.from]) {
                return Some((n, walk));
            }
        }
    }
    None
}

/// Whether what was found is what the list of all walks begins with, or both are none.
fn is_same_walk(g: &Graph, found: Option<Path>, listed: Option<Listed>) -> bool {
    match (found, listed) {
        (Some(path), Some(walk)) => {
            path.start == walk.start && spells(g.edges(), walk, path.edges.as_slice())
        }
        (None, None) => true,
        _ => false,
    }
}

/// Whether levels do not fall along an edge, and rise along a marked one.
fn climbs(g: &Graph, strata: &Strata) -> bool
    requires { length strata.now ≡ g.now.nodes }
{
    for e in g.edges() {
        let (low, high) = (strata.level(e.from), strata.level(e.to));
        if low > high || e.marked && low == high {
            return false;
        }
    }
    true
}

/// Whether a graph is judged as by the list of all walks: strata that climb, or its least cycle.
fn is_judged(alloc: Global, g: &Graph) -> bool {
    match (judge(alloc, g), listed_cycle(g)) {
        (Ok(strata), None) => climbs(g, &strata),
        (Err(Verdict::Cycle { edges }), Some((first, walk))) => match edges.as_slice() {
            [n, rest @ ..] => *n == first && spells(g.edges(), walk, rest),
            [] => false,
        },
        _ => false,
    }
}

/// Up to five nodes and eight edges, a third of them marked.
fn random_graph(alloc: Global, state: &mut u64) -> Result<Graph, AllocError>
    ensures some { IfOk result (λ g. 0 < g.nodes) }
    ensures few { IfOk result (λ g. g.nodes ≤ 5) }
{
    let nodes = 1 + draw(state, 5);
    let mut g = Graph::new(alloc, nodes);
    for _ in 0..draw(state, 9) {
        let from = draw(state, nodes);
        let to = draw(state, nodes);
        let marked = draw(state, 3) == 0;
        g.add(GraphEdge { from, to, marked })?;
    }
    Ok(g)
}

/// Whether the least walk from one of three nodes to one of two is the first that is listed.
fn walks_alike(alloc: Global, g: &Graph, state: &mut u64) -> Result<bool, AllocError>
    requires some { 0 < g.now.nodes }
    requires few { g.now.nodes ≤ 5 }
{
    let nodes = g.nodes();
    let from = [draw(state, nodes), draw(state, nodes), draw(state, nodes)];
    let ends = [draw(state, nodes), draw(state, nodes)];
    let goal = [0, 1, 2, 3, 4].map(|v| v == ends[0] || v == ends[1]);
    let found = least_walk(alloc, g, &from, &goal[..nodes as usize])?;
    Ok(is_same_walk(g, found, listed_walk(g, &from, &ends)))
}

#[test]
fn graphs_as_listed(rt: HostRuntime) -> Result<(), Fail> {
    let alloc = rt.alloc();
    let mut state = 2026;
    for round in 0..10_000 {
        let g = random_graph(alloc, &mut state)?;
        assert!(rt;
            walks_alike(alloc, &g, &mut state)?,
            "walk of graph {round}"
        );
        assert!(rt; is_judged(alloc, &g), "judge of graph {round}");
    }
    Ok(())
}

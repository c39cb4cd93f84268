//! A guess at levels, by the components of the graph. Nothing is promised of the levels themselves:
//! the judge looks at them.
ghost use Rattle.std.specs.Prelude.{◌≡◌, ◌≤◌, length, replicate, IfOk};

use least_walk::{Graph, GraphEdge};
use std::alloc::{AllocError, Global};

/// Stands for no edge, and for no component.
const NONE: u32 = u32::MAX;

/// For each node the first of its edges, and for each edge its other end and the next edge of its
/// node.
#[derive(Drop)]
struct Links {
    first: Vec<u32>,
    next: Vec<u32>,
    ends: Vec<u32>,
}

/// The greatest number of marked edges between components on a walk that ends at the node.
pub(crate) fn guess(alloc: Global, g: &Graph) -> Result<Vec<u32>, AllocError>
    ensures { IfOk result (λ levels. length levels.items ≡ g.now.nodes) }
{
    let nodes = g.nodes();
    let edges = g.edges();
    let mut forward = linked(alloc, nodes, edges, false)?;
    let mut seen = filled(alloc, nodes, NONE)?;
    let mut finished = Vec::new(alloc);
    for root in 0..nodes {
        visit(alloc, root, 0, &mut forward, &mut seen, &mut finished)?;
    }
    let mut backward = linked(alloc, nodes, edges, true)?;
    let mut component = filled(alloc, nodes, NONE)?;
    let mut order = Vec::new(alloc);
    for root in finished.iter().rev() {
        visit(
            alloc,
            *root,
            *root,
            &mut backward,
            &mut component,
            &mut order,
        )?;
    }
    let fresh = linked(alloc, nodes, edges, false)?;
    climb(alloc, nodes, edges, &fresh, &component, &order)
}

/// So many copies of a number.
pub(crate) fn filled(alloc: Global, nodes: u32, x: u32) -> Result<Vec<u32>, AllocError>
    ensures { IfOk result (λ xs. xs.items ≡ replicate nodes x) }
{
    vec![in alloc; x; nodes as usize]
}

/// The number at a place, or none.
fn at(xs: &[u32], place: u32) -> u32 {
    match xs.get(place as usize) {
        Some(x) => *x,
        None => NONE,
    }
}

/// Writes the number at a place, if there is one.
fn put(xs: &mut [u32], place: u32, x: u32) {
    if (place as usize) < xs.len() {
        xs[place as usize] = x;
    }
}

/// Links along the edges, or against them.
fn linked(
    alloc: Global,
    nodes: u32,
    edges: &[GraphEdge],
    backward: bool,
) -> Result<Links, AllocError>
    requires { length edges.now ≤ u32.MAX }
{
    let mut first = filled(alloc, nodes, NONE)?;
    let mut next = Vec::new(alloc);
    let mut ends = Vec::new(alloc);
    for (n, e) in edges.iter().enumerate() {
        let (begin, end) = if backward {
            (e.to, e.from)
        } else {
            (e.from, e.to)
        };
        next.push(at(&first, begin))?;
        ends.push(end)?;
        put(&mut first, begin, n as u32);
    }
    Ok(Links { first, next, ends })
}

/// Marks what the root leads to and was not marked before, and adds it to the order, each node when
/// all its edges are done.
fn visit(
    alloc: Global,
    root: u32,
    mark: u32,
    links: &mut Links,
    marks: &mut [u32],
    order: &mut Vec<u32>,
) -> Result<(), AllocError> {
    let mut stack = Vec::new(alloc);
    if at(marks, root) == NONE {
        put(marks, root, mark);
        stack.push(root)?;
    }
    for _ in 0..u64::MAX {
        let Some(v) = stack.pop() else {
            break;
        };
        let n = at(&links.first, v);
        if n == NONE {
            order.push(v)?;
        } else {
            put(&mut links.first, v, at(&links.next, n));
            stack.push(v)?;
            let end = at(&links.ends, n);
            if at(marks, end) == NONE {
                put(marks, end, mark);
                stack.push(end)?;
            }
        }
    }
    Ok(())
}

/// Levels in the order of the components: one more along each marked edge between two of them.
fn climb(
    alloc: Global,
    nodes: u32,
    edges: &[GraphEdge],
    links: &Links,
    component: &[u32],
    order: &[u32],
) -> Result<Vec<u32>, AllocError>
    ensures { IfOk result (λ levels. length levels.items ≡ nodes) }
{
    let mut level = filled(alloc, nodes, 0)?;
    for v in order {
        let own = at(component, *v);
        let mut n = at(&links.first, *v);
        for _ in 0..edges.len() {
            let Some(e) = edges.get(n as usize) else {
                break;
            };
            let other = at(component, e.to);
            if other != own {
                let raised = at(&level, own).saturating_add(e.marked as u32);
                let best = raised.max(at(&level, other));
                put(&mut level, other, best);
            }
            n = at(&links.next, n);
        }
    }
    let mut levels = Vec::new(alloc);
    for v in 0..nodes {
        levels.push(at(&level, at(component, v)))?;
    }
    Ok(levels)
}

//! Each question over a list of edges and over its index, on a small hierarchy.
ghost use Rattle.std.specs.Prelude.{◌≡◌, true};
ghost use Rattle.hybrid_hierarchy.specs.Nets.{IsHierarchy, AreWithin};

use gt_base::{Fluent, HierEdge, List, Memory, PermId, RoleId, Status, UserId, Walk};
use hybrid_hierarchy::{Hierarchy, may_activate, reaches, reaches_any};
use std::alloc::Global;
use std::test::Fail;

/// Whether there are few edges, among roles below 1,000.
fn is_hierarchy(edges: &[HierEdge]) -> bool
    ensures { result ≡ true → IsHierarchy edges.now }
{
    edges.len() <= 4_000 && are_within(edges)
}

/// Whether all roles of the edges are below 1,000, as the index asks.
fn are_within(edges: &[HierEdge]) -> bool
    ensures { result ≡ true → AreWithin 1_000 edges.now }
{
    for e in edges {
        if e.senior.0 >= 1_000 || e.junior.0 >= 1_000 {
            return false;
        }
    }
    true
}

/// An edge that lends and allows.
fn edge(senior: u32, junior: u32, strong: bool) -> HierEdge {
    HierEdge {
        senior: RoleId(senior),
        junior: RoleId(junior),
        inherits: true,
        activates: true,
        strong,
    }
}

/// 0 over 2 and 1, 2 over 3 twice, 1 over 3, and 3 over 999, the last of all roles.
fn edges(alloc: Global) -> Result<List<HierEdge>, Memory> {
    let edges = [
        edge(0, 2, false),
        edge(0, 1, true),
        edge(2, 3, false),
        edge(1, 3, false),
        edge(2, 3, true),
        edge(3, 999, false),
    ];
    Ok(List::from(Vec::from_slice(alloc, &edges)?))
}

/// Sets a fluent on or off, with room taken for it.
fn turn(status: &mut Status, f: Fluent, on: bool) -> Result<(), Memory> {
    status.reserve(1)?;
    status.set(f, on);
    Ok(())
}

/// Each role but the one that is off is enabled, and each edge but the one that is shut is on.
fn status(alloc: Global, off: u32, shut: u32) -> Result<Status, Memory> {
    let mut status = Status::new(alloc);
    for r in [0, 1, 2, 3, 999] {
        turn(&mut status, Fluent::Enabled(RoleId(r)), r != off)?;
    }
    for n in 0..6 {
        turn(&mut status, Fluent::Edge(n), n != shut)?;
    }
    turn(&mut status, Fluent::Assigned(UserId(7), RoleId(0)), true)?;
    turn(&mut status, Fluent::Granted(PermId(5), RoleId(999)), true)?;
    Ok(status)
}

/// Whether a walk was found with this start and these edges.
fn is_walk(found: Option<Walk>, start: u32, numbers: &[u32]) -> bool {
    match found {
        Some(walk) => walk.start.0 == start && walk.edges.as_slice() == numbers,
        None => false,
    }
}

/// Whether these edges are the least way to the last role, from the role and for the user, by the
/// list.
fn leads_listed(
    alloc: Global,
    edges: &List<HierEdge>,
    status: &Status,
    numbers: &[u32],
) -> Result<bool, Memory>
    requires { IsHierarchy edges.now.items }
{
    let found = reaches(alloc, edges, status, &[RoleId(0)], PermId(5))?;
    let allowed = may_activate(alloc, edges, status, UserId(7), RoleId(999))?;
    Ok(is_walk(found, 0, numbers) && is_walk(allowed, 0, numbers))
}

/// The same by its index.
fn leads_indexed(
    alloc: Global,
    index: &Hierarchy,
    status: &Status,
    numbers: &[u32],
) -> Result<bool, Memory> {
    let found = index.reaches(alloc, status, &[RoleId(0)], PermId(5))?;
    let allowed = index.may_activate(alloc, status, UserId(7), RoleId(999))?;
    Ok(is_walk(found, 0, numbers) && is_walk(allowed, 0, numbers))
}

/// The same by both, with a role off and an edge shut.
fn leads(alloc: Global, off: u32, shut: u32, numbers: &[u32]) -> Result<bool, Memory> {
    let edges = edges(alloc)?;
    if !is_hierarchy(edges.as_slice()) {
        return Ok(false);
    }
    let status = status(alloc, off, shut)?;
    if !leads_listed(alloc, &edges, &status, numbers)? {
        return Ok(false);
    }
    let index = Hierarchy::new(alloc, &edges)?;
    leads_indexed(alloc, &index, &status, numbers)
}

/// The fewest edges, then the least numbers, round a role or an edge that is off.
#[test]
fn least_walks(rt: HostRuntime) -> Result<(), Fail> {
    let alloc = rt.alloc();
    assert!(rt; leads(alloc, 500, 9, &[0, 2, 5])?);
    assert!(rt; leads(alloc, 500, 2, &[0, 4, 5])?);
    assert!(rt; leads(alloc, 500, 0, &[1, 3, 5])?);
    assert!(rt; !leads(alloc, 500, 5, &[0, 2, 5])?);
    Ok(())
}

const ACTIVE: [RoleId; 3] = [RoleId(2), RoleId(1), RoleId(2)];

/// Whether no walk leads to the permission, and one over any edges does, by the list.
fn none_listed(alloc: Global, edges: &List<HierEdge>, status: &Status) -> Result<bool, Memory>
    requires { IsHierarchy edges.now.items }
{
    let none = reaches(alloc, edges, status, &ACTIVE, PermId(5))?.is_none();
    let any = reaches_any(alloc, edges, status, &ACTIVE, PermId(5))?;
    Ok(none && is_walk(any, 1, &[3, 5]))
}

/// The same by its index, where the user reaches the own role alone.
fn none_indexed(alloc: Global, index: &Hierarchy, status: &Status) -> Result<bool, Memory> {
    let none = index.reaches(alloc, status, &ACTIVE, PermId(5))?.is_none();
    let any = index.reaches_any(alloc, status, &ACTIVE, PermId(5))?;
    let far = index
        .may_activate(alloc, status, UserId(7), RoleId(999))?
        .is_none();
    let own = index.may_activate(alloc, status, UserId(7), RoleId(0))?;
    Ok(none && far && is_walk(any, 1, &[3, 5]) && is_walk(own, 0, &[]))
}

/// The same by both, where the last edge is shut.
fn none_leads(alloc: Global) -> Result<bool, Memory> {
    let edges = edges(alloc)?;
    if !is_hierarchy(edges.as_slice()) {
        return Ok(false);
    }
    let status = status(alloc, 500, 5)?;
    if !none_listed(alloc, &edges, &status)? {
        return Ok(false);
    }
    let index = Hierarchy::new(alloc, &edges)?;
    none_indexed(alloc, &index, &status)
}

/// Where a shut edge leaves no path, none is told; any path over all edges, shut or not, still is.
#[test]
fn none_and_any(rt: HostRuntime) -> Result<(), Fail> {
    assert!(rt; none_leads(rt.alloc())?);
    Ok(())
}

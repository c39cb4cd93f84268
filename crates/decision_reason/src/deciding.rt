//! The decision on a permission of a session.
ghost use Rattle.std.specs.Prelude.{◌≡◌, Bool, true, IfOk, IfSome, Some};
ghost use Rattle.gt_base.specs.Sets.{has};
ghost use Rattle.gtrbac_model.specs.Decision.{decide};
ghost use Rattle.gtrbac_model.specs.Hierarchy.{permission_walk, permission_walk_of_any};
ghost use Rattle.hybrid_hierarchy.specs.Nets.{IsHierarchy};
ghost use Rattle.gt_base.specs.declared.events.Fluent.{Fluent};
ghost use Rattle.gt_base.specs.declared.events.Fluent.TheVariants.{Enabled};
ghost use Rattle.gt_base.specs.declared.requests.Decision.TheVariants.{Shut};
ghost use Rattle.decision_reason.specs.Shut.{is_usable_edge, first_shut, denied_by, by_walks};

use gt_base::{Decision, Fluent, HierEdge, List, Memory, PermId, RoleId, Status, Walk};
use hybrid_hierarchy::Hierarchy;
use std::alloc::Global;

/// Whether a session in which these roles are active has the permission in this status, and why
/// not. `Permit` names the least walk of usable edges from an active role to a role to which the
/// permission is granted: least by the number of its edges, then by the number of the active role,
/// then by the numbers of its edges. Where there is none, the answer is `NoActive` if no role is
/// active; `NoGrant` if no walk leads there whichever edges are usable; else `Shut`, with the
/// number of the first edge that is not usable on the least walk that ignores usability. For want
/// of memory it may refuse.
pub fn decide(
    alloc: Global,
    edges: &List<HierEdge>,
    status: &Status,
    active: &[RoleId],
    perm: PermId,
) -> Result<Decision, Memory>
    requires { IsHierarchy edges.now.items }
    ensures { IfOk result (λ decision. decision
        ≡ decide edges.now.items (has status.now.set) active.now perm) }
{
    match active {
        [] => Ok(Decision::NoActive),
        _ => {
            let hierarchy = Hierarchy::new(alloc, edges)?;
            decide_over(alloc, &hierarchy, status, active, perm)
        }
    }
}

/// The same decision over a hierarchy that was made for many questions.
pub fn decide_over(
    alloc: Global,
    hierarchy: &Hierarchy,
    status: &Status,
    active: &[RoleId],
    perm: PermId,
) -> Result<Decision, Memory>
    ensures { IfOk result (λ decision. decision
        ≡ decide hierarchy.now (has status.now.set) active.now perm) }
{
    match active {
        [] => Ok(Decision::NoActive),
        _ => by_walks(alloc, hierarchy, status, active, perm),
    }
}

/// The decision where some role is active: by the least walk, whichever edges are usable. Where
/// there is none, there is none of usable edges.
fn by_walks(
    alloc: Global,
    hierarchy: &Hierarchy,
    status: &Status,
    active: &[RoleId],
    perm: PermId,
) -> Result<Decision, Memory>
    ensures { IfOk result (λ decision. decision ≡ by_walks (has status.now.set) hierarchy.now
        (permission_walk hierarchy.now (has status.now.set) active.now perm)
        (permission_walk_of_any hierarchy.now (has status.now.set) active.now perm)) }
{
    match hierarchy.reaches_any(alloc, status, active, perm)? {
        Some(walk) => by_walk(alloc, hierarchy, status, active, perm, walk),
        None => Ok(Decision::NoGrant),
    }
}

/// The decision where this is the least walk, whichever edges are usable: it permits, if each of
/// its edges is.
fn by_walk(
    alloc: Global,
    hierarchy: &Hierarchy,
    status: &Status,
    active: &[RoleId],
    perm: PermId,
    walk: Walk,
) -> Result<Decision, Memory>
    requires { permission_walk_of_any hierarchy.now (has status.now.set) active.now perm
        ≡ Some walk }
    ensures { IfOk result (λ decision. decision ≡ by_walks (has status.now.set) hierarchy.now
        (permission_walk hierarchy.now (has status.now.set) active.now perm)
        (permission_walk_of_any hierarchy.now (has status.now.set) active.now perm)) }
{
    match shut_at(hierarchy.edges(), status, &walk) {
        Some(edge) => past_shut(alloc, hierarchy, status, active, perm, edge),
        None => Ok(Decision::Permit { walk }),
    }
}

/// The decision where the least walk is shut at this edge: a permit by the least walk of usable
/// edges, if there is one.
fn past_shut(
    alloc: Global,
    hierarchy: &Hierarchy,
    status: &Status,
    active: &[RoleId],
    perm: PermId,
    edge: u32,
) -> Result<Decision, Memory>
    requires { denied_by (has status.now.set) hierarchy.now
        (permission_walk_of_any hierarchy.now (has status.now.set) active.now perm) ≡ Shut edge }
    ensures { IfOk result (λ decision. decision ≡ by_walks (has status.now.set) hierarchy.now
        (permission_walk hierarchy.now (has status.now.set) active.now perm)
        (permission_walk_of_any hierarchy.now (has status.now.set) active.now perm)) }
{
    match hierarchy.reaches(alloc, status, active, perm)? {
        Some(walk) => Ok(Decision::Permit { walk }),
        None => Ok(Decision::Shut { edge }),
    }
}

/// The first edge of the walk that lends nothing in the status.
fn shut_at(edges: &[HierEdge], status: &Status, walk: &Walk) -> Option<u32>
    ensures { result ≡ first_shut (has status.now.set) edges.now walk.now.edges }
{
    first_shut(edges, status, walk.edges.as_slice())
}

/// The first of these edges that lends nothing in the status. What one edge asked of its junior
/// role, the next one does not ask again of the same role as its senior.
fn first_shut(edges: &[HierEdge], status: &Status, walk: &[u32]) -> Option<u32>
    ensures { result ≡ first_shut (has status.now.set) edges.now walk.now }
{
    let mut enabled = None;
    for n in walk {
        if !is_open(edges, status, *n, enabled) {
            return Some(*n);
        }
        enabled = asked_junior(edges, *n);
    }
    None
}

/// Whether the edge of this number lends permissions in the status, where this role, if any, is
/// enabled.
fn is_open(edges: &[HierEdge], status: &Status, number: u32, enabled: Option<RoleId>) -> bool
    requires { IfSome enabled (λ role. has status.now.set (Enabled role) ≡ true) }
    ensures { result ≡ is_usable_edge (has status.now.set) edges.now number }
{
    match edges.get(number as usize) {
        Some(e) => {
            e.inherits
                && status.is_on(Fluent::Edge(number))
                && is_enabled(status, e.senior, enabled)
                && (!e.strong || status.is_on(Fluent::Enabled(e.junior)))
        }
        None => false,
    }
}

/// Whether the role is enabled, where this one, if any, is known to be.
fn is_enabled(status: &Status, role: RoleId, enabled: Option<RoleId>) -> bool
    requires { IfSome enabled (λ role. has status.now.set (Enabled role) ≡ true) }
    ensures { result ≡ has status.now.set (Enabled role) }
{
    match enabled {
        Some(known) if known.0 == role.0 => true,
        _ => status.is_on(Fluent::Enabled(role)),
    }
}

/// The junior role of the edge of this number, if the edge asks of it whether it is enabled.
fn asked_junior(edges: &[HierEdge], number: u32) -> Option<RoleId>
    ensures { (s : Fluent → Bool) → is_usable_edge s edges.now number ≡ true
        → IfSome result (λ role. s (Enabled role) ≡ true) }
{
    match edges.get(number as usize) {
        Some(e) if e.strong => Some(e.junior),
        _ => None,
    }
}

//! Usable edges, and the walks that allow an activation or lend a permission.
ghost use Rattle.std.specs.Prelude.{◌≡◌, ◌+◌, ◌<◌, ◌≤◌, ◌&&◌, [], ◌∷◌, nat_lt, nat_le, false, cond, filter, IfOk, MatchOption};
ghost use Rattle.std.specs.List.{range_with_len};
ghost use Rattle.gt_base.specs.declared.events.Fluent.TheVariants.{Enabled, Assigned, Granted, Edge};
ghost use Rattle.gt_base.specs.Sets.{has};
ghost use Rattle.gtrbac_model.specs.Same.{same_role, lists};
ghost use Rattle.gtrbac_model.specs.Hierarchy.{usable, least_role_walk, activation_walk, permission_walk, permission_walk_of_any};
ghost use Rattle.hybrid_hierarchy.specs.Nets.{IsHierarchy};
ghost use Rattle.hybrid_hierarchy.specs.Searches.{IsOutgoing, leads_on, listed_from};

use crate::outgoing::{Outgoing, outgoing_of};
use crate::questions::{Activating, Lending, LendingByAny, WalkQuestion};
use crate::searching::least;
use gt_base::{Fluent, HierEdge, List, MAX_ROLES, Memory, PermId, RoleId, Status, UserId, Walk};
use std::alloc::Global;

/// Whether edge n is on and usable in the status: to lend permissions where `inherits`, else to
/// allow activation. A weak edge that lends needs its senior enabled, a weak one that allows
/// activation its junior, and a strong edge both. An edge that does not do what is asked is not
/// usable. It takes no memory.
pub fn usable(n: u32, e: &HierEdge, status: &Status, inherits: bool) -> bool
    ensures { result ≡ usable (has status.now.set) inherits n e.now }
{
    if inherits {
        e.inherits && is_passable(n, e, status, e.senior)
    } else {
        e.activates && is_passable(n, e, status, e.junior)
    }
}

/// Whether edge n is on, and the role that a weak edge asks for is enabled, or both are where it is
/// strong.
fn is_passable(n: u32, e: &HierEdge, status: &Status, weak: RoleId) -> bool
    ensures { result ≡ has status.now.set (Edge n)
        && cond e.now.strong (has status.now.set (Enabled e.now.senior)
        && has status.now.set (Enabled e.now.junior)) (has status.now.set (Enabled weak)) }
{
    if !status.is_on(Fluent::Edge(n)) {
        false
    } else if e.strong {
        status.is_on(Fluent::Enabled(e.senior)) && status.is_on(Fluent::Enabled(e.junior))
    } else {
        status.is_on(Fluent::Enabled(weak))
    }
}

/// The roles to which the user is assigned and from which an edge leads, ascending. Of the others
/// the status is not asked.
fn assigned_roles(
    alloc: Global,
    out: &Outgoing,
    status: &Status,
    user: UserId,
) -> Result<Vec<u32>, Memory>
    ensures { IfOk result (λ roles. roles.items ≡ filter
        (λ r. leads_on out.now.first.items r
        && has status.now.set (Assigned user (record { 0 = r }))) (range_with_len 0 MAX_ROLES)) }
{
    assigned_among(alloc, &out.seniors, status, user)
}

/// Those of the roles to which the user is assigned.
fn assigned_among(
    alloc: Global,
    roles: &[u32],
    status: &Status,
    user: UserId,
) -> Result<Vec<u32>, Memory>
    ensures { IfOk result (λ assigned. assigned.items
        ≡ filter (λ r. has status.now.set (Assigned user (record { 0 = r }))) roles.now) }
{
    roles
        .iter()
        .copied()
        .filter(|r| status.is_on(Fluent::Assigned(user, RoleId(*r))))
        .collect(alloc)
}

/// The roles of the list, ascending and each once.
fn listed_roles(alloc: Global, roles: &[RoleId]) -> Result<Vec<u32>, Memory>
    ensures { IfOk result (λ listed. listed.items ≡ filter
        (λ r. lists same_role roles.now (record { 0 = r })) (range_with_len 0 MAX_ROLES)) }
{
    let mut listed = Vec::new(alloc);
    let mut low = 0;
    while let Some(role) = next_listed(roles, low) {
        listed.push(role)?;
        low = role + 1;
    }
    Ok(listed)
}

/// The least role of the list from `low` on.
fn next_listed(roles: &[RoleId], low: u32) -> Option<u32>
    requires { low ≤ MAX_ROLES }
    ensures { MatchOption result (listed_from roles.now low ≡ [])
        (λ r. (low ≤ r) × (r < MAX_ROLES)
        × (listed_from roles.now low ≡ r ∷ listed_from roles.now (r + 1))) }
{
    let mut next = MAX_ROLES;
    for r in roles {
        next = nearer(low, next, r);
    }
    if next >= MAX_ROLES {
        return None;
    }
    Some(next)
}

/// The role, if it lies between the two, else the upper one.
fn nearer(low: u32, next: u32, role: &RoleId) -> u32
    ensures { result ≡ cond (nat_le low role.now.0 && nat_lt role.now.0 next) role.now.0 next }
{
    if low <= role.0 && role.0 < next {
        role.0
    } else {
        next
    }
}

/// Whether the user is assigned to the role itself.
pub(crate) fn is_assigned(status: &Status, user: UserId, role: RoleId) -> bool
    ensures { result ≡ (nat_lt role.0 MAX_ROLES && has status.now.set (Assigned user role)) }
{
    role.0 < MAX_ROLES && status.is_on(Fluent::Assigned(user, role))
}

/// The walk that stays where it begins.
pub(crate) fn standing(alloc: Global, role: RoleId) -> Walk
    ensures { result ≡ record { start = role; edges = [] } }
{
    Walk {
        start: role,
        edges: List::new(alloc),
    }
}

/// The least walk by which the user may activate a role to which it is not assigned itself, over
/// edges that were indexed.
pub(crate) fn activation(
    alloc: Global,
    edges: &[HierEdge],
    out: &Outgoing,
    status: &Status,
    user: UserId,
    role: RoleId,
) -> Result<Option<Walk>, Memory>
    requires hierarchy { IsHierarchy edges.now }
    requires outgoing { IsOutgoing edges.now out.now.first.items out.now.next.items }
    requires elsewhere { (nat_lt role.0 MAX_ROLES && has status.now.set (Assigned user role))
        ≡ false }
    ensures { IfOk result (λ walk. walk ≡ activation_walk edges.now
        (has status.now.set) user role) }
{
    let from = assigned_roles(alloc, out, status, user)?;
    least(alloc, edges, out, &from, &Activating { status, role })
}

/// The least walk over open edges from one of the roles to a goal. One role alone takes no memory
/// to be listed.
fn least_from<Q: WalkQuestion>(
    alloc: Global,
    edges: &[HierEdge],
    out: &Outgoing,
    roles: &[RoleId],
    asked: &Q,
) -> Result<Option<Walk>, Memory>
    requires hierarchy { IsHierarchy edges.now }
    requires outgoing { IsOutgoing edges.now out.now.first.items out.now.next.items }
    ensures { IfOk result (λ walk. walk ≡ least_role_walk edges.now (Q.passes asked.now)
        (lists same_role roles.now) (Q.goals asked.now)) }
{
    match roles {
        [role] if role.0 < MAX_ROLES => least(alloc, edges, out, &[role.0], asked),
        _ => {
            let from = listed_roles(alloc, roles)?;
            least(alloc, edges, out, &from, asked)
        }
    }
}

/// The least walk of usable edges by which one of the active roles is lent the permission, over
/// edges that were indexed.
pub(crate) fn lending(
    alloc: Global,
    edges: &[HierEdge],
    out: &Outgoing,
    status: &Status,
    active: &[RoleId],
    perm: PermId,
) -> Result<Option<Walk>, Memory>
    requires hierarchy { IsHierarchy edges.now }
    requires outgoing { IsOutgoing edges.now out.now.first.items out.now.next.items }
    ensures { IfOk result (λ walk. walk ≡ permission_walk edges.now
        (has status.now.set) active.now perm) }
{
    let only = status.only_role(perm);
    let asked = Lending { status, perm, only };
    least_from(alloc, edges, out, active, &asked)
}

/// The same walk where all edges that lend permissions are taken.
pub(crate) fn lending_by_any(
    alloc: Global,
    edges: &[HierEdge],
    out: &Outgoing,
    status: &Status,
    active: &[RoleId],
    perm: PermId,
) -> Result<Option<Walk>, Memory>
    requires hierarchy { IsHierarchy edges.now }
    requires outgoing { IsOutgoing edges.now out.now.first.items out.now.next.items }
    ensures { IfOk result (λ walk. walk ≡ permission_walk_of_any edges.now
        (has status.now.set) active.now perm) }
{
    let only = status.only_role(perm);
    let asked = LendingByAny { status, perm, only };
    least_from(alloc, edges, out, active, &asked)
}

/// By which walk of usable edges the user may activate the role: the least by the number of its
/// edges, then by the number of the assigned role where it begins, then by the numbers of its
/// edges. None exactly where there is none. For want of memory it may refuse.
pub fn may_activate(
    alloc: Global,
    edges: &List<HierEdge>,
    status: &Status,
    user: UserId,
    role: RoleId,
) -> Result<Option<Walk>, Memory>
    requires { IsHierarchy edges.now.items }
    ensures { IfOk result (λ walk. walk ≡ activation_walk edges.now.items
        (has status.now.set) user role) }
{
    if is_assigned(status, user, role) {
        return Ok(Some(standing(alloc, role)));
    }
    let edges = edges.as_slice();
    let out = outgoing_of(alloc, edges)?;
    activation(alloc, edges, &out, status, user, role)
}

/// By which walk of usable edges one of the active roles is lent the permission: the least by the
/// number of its edges, then by the number of the active role, then by the numbers of its edges.
/// None exactly where there is none. For want of memory it may refuse.
pub fn reaches(
    alloc: Global,
    edges: &List<HierEdge>,
    status: &Status,
    active: &[RoleId],
    perm: PermId,
) -> Result<Option<Walk>, Memory>
    requires { IsHierarchy edges.now.items }
    ensures { IfOk result (λ walk. walk ≡ permission_walk edges.now.items
        (has status.now.set) active.now perm) }
{
    let edges = edges.as_slice();
    let out = outgoing_of(alloc, edges)?;
    lending(alloc, edges, &out, status, active, perm)
}

/// The same walk where it is not asked which edges are usable: all that lend permissions are taken.
/// None exactly where there is none. For want of memory it may refuse.
pub fn reaches_any(
    alloc: Global,
    edges: &List<HierEdge>,
    status: &Status,
    active: &[RoleId],
    perm: PermId,
) -> Result<Option<Walk>, Memory>
    requires { IsHierarchy edges.now.items }
    ensures { IfOk result (λ walk. walk ≡ permission_walk_of_any edges.now.items
        (has status.now.set) active.now perm) }
{
    let edges = edges.as_slice();
    let out = outgoing_of(alloc, edges)?;
    lending_by_any(alloc, edges, &out, status, active, perm)
}

//! Walks that were found before, looked at again.
ghost use Rattle.std.specs.Prelude.{◌≡◌, ◌&&◌, false, nat_lt};
ghost use Rattle.gt_base.specs.declared.events.Fluent.TheVariants.{Assigned};
ghost use Rattle.gt_base.specs.Sets.{has};
ghost use Rattle.gtrbac_model.specs.Hierarchy.{usable};
ghost use Rattle.hybrid_hierarchy.specs.Lasting.{step_of, leads_to, still_lets};

use crate::walks::{is_assigned, usable};
use gt_base::{HierEdge, RoleId, Status, UserId, Walk};

/// Whether the walk begins at a role to which the user is assigned, and usable edges of it lead to
/// the role.
pub(crate) fn still_lets(
    edges: &[HierEdge],
    status: &Status,
    user: UserId,
    role: RoleId,
    walk: &Walk,
) -> bool
    ensures { result ≡ still_lets edges.now (has status.now.set) user role walk.now }
{
    is_assigned(status, user, walk.start)
        && leads_to(edges, status, walk.start, walk.edges.as_slice(), role)
}

/// Whether these edges, each usable to allow activation, lead from the one role to the other.
fn leads_to(edges: &[HierEdge], status: &Status, start: RoleId, walk: &[u32], role: RoleId) -> bool
    ensures { result ≡ leads_to (usable (has status.now.set) false) edges.now start walk.now role }
{
    let mut at = start;
    for n in walk {
        let Some(next) = step_of(edges, status, at, *n) else {
            return false;
        };
        at = next;
    }
    role.0 == at.0
}

/// Where the edge of this number leads from the role, if it is usable and begins there.
fn step_of(edges: &[HierEdge], status: &Status, at: RoleId, n: u32) -> Option<RoleId>
    ensures { result ≡ step_of (usable (has status.now.set) false) edges.now at n }
{
    match edges.get(n as usize) {
        Some(e) => {
            if e.senior.0 == at.0 && usable(n, e, status, false) {
                Some(e.junior)
            } else {
                None
            }
        }
        None => None,
    }
}

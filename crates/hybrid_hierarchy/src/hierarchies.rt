//! A hierarchy with its edges by roles, made once for many questions.
ghost use Rattle.std.specs.Prelude.{◌≡◌, true, false, is_none, IfOk};
ghost use Rattle.gt_base.specs.Sets.{has};
ghost use Rattle.gtrbac_model.specs.Hierarchy.{activation_walk, permission_walk, permission_walk_of_any};
ghost use Rattle.hybrid_hierarchy.specs.Nets.{IsHierarchy};
ghost use Rattle.hybrid_hierarchy.specs.Lasting.{still_lets};

use crate::lasting::still_lets;
use crate::outgoing::{Outgoing, outgoing_of};
use crate::walks::{activation, is_assigned, lending, lending_by_any, standing};
use gt_base::{HierEdge, List, Memory, PermId, RoleId, Status, UserId, Walk};
use std::alloc::Global;
use std::marker::Model;

/// The edges of a hierarchy, seen as their list, with an index by the role that each leads from.
/// The index does not speak of a status: it stays while the edges stay, and answers each question
/// as the call of the same name over the list does.
pub struct Hierarchy {
    edges: Vec<HierEdge>,
    out: Outgoing,
}

impl Drop for Hierarchy {
    fn drop(self) {
        let Hierarchy { edges: _, out: _ } = self;
    }
}

impl Model for Hierarchy {
    ghost use Rattle.std.specs.Prelude.{List};
    ghost use Rattle.gt_base.specs.declared.policies.HierEdge.{HierEdge};
    ghost use Rattle.hybrid_hierarchy.specs.Nets.{IsHierarchy};
    ghost use Rattle.hybrid_hierarchy.specs.Searches.{IsOutgoing};

    ghost Value = { List HierEdge };

    ghost view = { λ h. h.edges.items };

    ghost invariant = { λ h. IsHierarchy h.edges.items
        × IsOutgoing h.edges.items h.out.first.items h.out.next.items };
}

impl Hierarchy {
    /// The hierarchy of these edges. For want of memory it may refuse.
    pub fn new(alloc: Global, edges: &List<HierEdge>) -> Result<Hierarchy, Memory>
        requires { IsHierarchy edges.now.items }
        ensures { IfOk result (λ h. h ≡ edges.now.items) }
    {
        let edges = Vec::from_slice(alloc, edges.as_slice())?;
        let out = outgoing_of(alloc, &edges)?;
        Ok(Hierarchy { edges, out })
    }

    /// The edges: at most 4,000 of them, among roles below 1,000.
    pub fn edges(&self) -> &[HierEdge]
        ensures value { result.now ≡ self.now }
        ensures hierarchy { IsHierarchy self.now }
    {
        &self.edges
    }

    /// By which walk of usable edges the user may activate the role, as `may_activate` over the
    /// list. For want of memory it may refuse.
    pub fn may_activate(
        &self,
        alloc: Global,
        status: &Status,
        user: UserId,
        role: RoleId,
    ) -> Result<Option<Walk>, Memory>
        ensures { IfOk result (λ walk. walk ≡ activation_walk self.now
            (has status.now.set) user role) }
    {
        if is_assigned(status, user, role) {
            return Ok(Some(standing(alloc, role)));
        }
        activation(alloc, &self.edges, &self.out, status, user, role)
    }

    /// Whether the walk, found before, still lets the user activate the role: it begins at a role
    /// to which the user is assigned, and usable edges of it lead to the role. Then some walk does.
    /// It takes no memory.
    pub fn still_lets(&self, status: &Status, user: UserId, role: RoleId, walk: &Walk) -> bool
        ensures walk { result ≡ still_lets self.now (has status.now.set) user role walk.now }
        ensures some { result ≡ true
            → is_none (activation_walk self.now (has status.now.set) user role) ≡ false }
    {
        still_lets(&self.edges, status, user, role, walk)
    }

    /// By which walk of usable edges one of the active roles is lent the permission, as `reaches`
    /// over the list. For want of memory it may refuse.
    pub fn reaches(
        &self,
        alloc: Global,
        status: &Status,
        active: &[RoleId],
        perm: PermId,
    ) -> Result<Option<Walk>, Memory>
        ensures { IfOk result (λ walk. walk ≡ permission_walk self.now
            (has status.now.set) active.now perm) }
    {
        lending(alloc, &self.edges, &self.out, status, active, perm)
    }

    /// The same walk where all edges that lend permissions are taken, as `reaches_any` over the
    /// list. For want of memory it may refuse.
    pub fn reaches_any(
        &self,
        alloc: Global,
        status: &Status,
        active: &[RoleId],
        perm: PermId,
    ) -> Result<Option<Walk>, Memory>
        ensures { IfOk result (λ walk. walk ≡ permission_walk_of_any self.now
            (has status.now.set) active.now perm) }
    {
        lending_by_any(alloc, &self.edges, &self.out, status, active, perm)
    }
}

//! What is asked of a hierarchy in a status.
ghost use Rattle.std.specs.Prelude.{◌≡◌, ℕ, Bool, true, false, Some};
ghost use Rattle.gt_base.specs.Flags.{IsOnlyGrant};
ghost use Rattle.gt_base.specs.Sets.{has};
ghost use Rattle.gt_base.specs.declared.events.Fluent.TheVariants.{Granted};
ghost use Rattle.gt_base.specs.declared.events.RoleId.{RoleId as RoleView};

use crate::walks::usable;
use gt_base::{Fluent, HierEdge, PermId, RoleId, Status};

/// Tells which edges are open, by their numbers, and which roles are goals.
pub(crate) trait WalkQuestion {
    ghost use Rattle.gt_base.specs.declared.events.RoleId.{RoleId};
    ghost use Rattle.gt_base.specs.declared.policies.HierEdge.{HierEdge};

    ghost passes: { Self → ℕ → HierEdge → Bool };

    ghost goals: { Self → RoleId → Bool };

    ghost leaves: { Self → RoleId → Bool };

    /// Whether an edge from the role may be open: what all of them ask of it.
    fn may_leave(&self, role: RoleId) -> bool
        ensures asked { result ≡ leaves self.now role }
        ensures shut { result ≡ false → (n : ℕ) (e : HierEdge) → e.senior ≡ role
            → passes self.now n e ≡ false };

    /// Whether the edge of this number, from a role that edges may leave, is open.
    fn may_pass(&self, n: u32, e: &HierEdge) -> bool
        requires { leaves self.now e.now.senior ≡ true }
        ensures { result ≡ passes self.now n e.now };

    /// Whether the role is a goal.
    fn is_goal(&self, role: RoleId) -> bool
        ensures { result ≡ goals self.now role };
}

/// By which walk the role may be activated.
#[derive(Clone, Copy)]
pub(crate) struct Activating<'a> {
    pub(crate) status: &'a Status,
    pub(crate) role: RoleId,
}

impl<'a> WalkQuestion for Activating<'a> {
    ghost use Rattle.std.specs.Prelude.{true, false};
    ghost use Rattle.gt_base.specs.Sets.{has};
    ghost use Rattle.gtrbac_model.specs.Same.{same_role};
    ghost use Rattle.gtrbac_model.specs.Hierarchy.{usable};

    ghost passes = { λ q. usable (has q.status.now.set) false };

    ghost goals = { λ q. same_role q.role };

    ghost leaves = { λ q r. true };

    fn may_leave(&self, _role: RoleId) -> bool {
        true
    }

    fn may_pass(&self, n: u32, e: &HierEdge) -> bool {
        usable(n, e, self.status, false)
    }

    fn is_goal(&self, role: RoleId) -> bool {
        self.role.0 == role.0
    }
}

/// Whether the permission is granted to the role, where it is granted to no other than the one that
/// is known, if there is one.
fn is_granted(status: &Status, perm: PermId, only: Option<(RoleId, bool)>, role: RoleId) -> bool
    requires { (known : RoleView × Bool) → only ≡ Some known
        → IsOnlyGrant (has status.now.set) perm known }
    ensures { result ≡ has status.now.set (Granted perm role) }
{
    match only {
        Some((known, on)) if known.0 == role.0 => on,
        Some(_) => false,
        None => status.is_on(Fluent::Granted(perm, role)),
    }
}

/// By which walk of usable edges the permission is lent.
#[derive(Clone, Copy)]
pub(crate) struct Lending<'a> {
    pub(crate) status: &'a Status,
    pub(crate) perm: PermId,
    /// To no other role is it granted, and whether it is to this one.
    pub(crate) only: Option<(RoleId, bool)>,
    ghost alone: { (known : RoleView × Bool) → only ≡ Some known
        → IsOnlyGrant (has status.now.set) perm known },
}

impl<'a> WalkQuestion for Lending<'a> {
    ghost use Rattle.std.specs.Prelude.{true};
    ghost use Rattle.gt_base.specs.Sets.{has};
    ghost use Rattle.gt_base.specs.declared.events.Fluent.TheVariants.{Enabled, Granted};
    ghost use Rattle.gtrbac_model.specs.Hierarchy.{usable};

    ghost passes = { λ q. usable (has q.status.now.set) true };

    ghost goals = { λ q r. has q.status.now.set (Granted q.perm r) };

    ghost leaves = { λ q r. has q.status.now.set (Enabled r) };

    fn may_leave(&self, role: RoleId) -> bool {
        self.status.is_on(Fluent::Enabled(role))
    }

    fn may_pass(&self, n: u32, e: &HierEdge) -> bool {
        e.inherits
            && self.status.is_on(Fluent::Edge(n))
            && (!e.strong || self.status.is_on(Fluent::Enabled(e.junior)))
    }

    fn is_goal(&self, role: RoleId) -> bool {
        is_granted(self.status, self.perm, self.only, role)
    }
}

/// By which walk the permission would be lent if each edge that lends permissions were usable.
#[derive(Clone, Copy)]
pub(crate) struct LendingByAny<'a> {
    pub(crate) status: &'a Status,
    pub(crate) perm: PermId,
    /// To no other role is it granted, and whether it is to this one.
    pub(crate) only: Option<(RoleId, bool)>,
    ghost alone: { (known : RoleView × Bool) → only ≡ Some known
        → IsOnlyGrant (has status.now.set) perm known },
}

impl<'a> WalkQuestion for LendingByAny<'a> {
    ghost use Rattle.std.specs.Prelude.{true};
    ghost use Rattle.gt_base.specs.Sets.{has};
    ghost use Rattle.gt_base.specs.declared.events.Fluent.TheVariants.{Granted};

    ghost passes = { λ q n e. e.inherits };

    ghost goals = { λ q r. has q.status.now.set (Granted q.perm r) };

    ghost leaves = { λ q r. true };

    fn may_leave(&self, _role: RoleId) -> bool {
        true
    }

    fn may_pass(&self, _n: u32, e: &HierEdge) -> bool {
        e.inherits
    }

    fn is_goal(&self, role: RoleId) -> bool {
        is_granted(self.status, self.perm, self.only, role)
    }
}

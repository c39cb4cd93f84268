//! Sets of active roles.
ghost use Rattle.std.specs.Prelude.{◌≡◌, IfOk, OnOk, OnErr};
ghost use Rattle.gt_base.specs.Sets.{has, members, none, with_member, without, Rises};
ghost use Rattle.session_table.specs.RoleSets.{role_cmp};

use crate::rows::{is_in, put, take_out};
use gt_base::{Memory, RoleId};
use std::alloc::Global;
use std::marker::Model;

/// A set of roles, kept ascending.
#[derive(Drop)]
pub(crate) struct Roles {
    items: Vec<RoleId>,
}

impl Model for Roles {
    ghost use Rattle.gt_base.specs.Sets.{set_of_rising, Rises};
    ghost use Rattle.session_table.specs.RoleSets.{role_cmp, RoleSet, roles_code};

    ghost Value = { RoleSet };

    ghost coded = { roles_code };

    ghost view = { λ s. set_of_rising s.items.items };

    ghost invariant = { λ s. Rises role_cmp s.items.items };
}

impl Roles {
    /// No role. It takes no memory yet.
    #[tactic(auto, using(gt_base::proofs::Rising::set_of_nothing))]
    pub(crate) fn new(alloc: Global) -> Roles
        ensures { result ≡ none }
    {
        Roles {
            items: Vec::new(alloc),
        }
    }

    /// Equal roles.
    pub(crate) fn copied(&self) -> Result<Roles, Memory>
        ensures { IfOk result (λ copy. copy ≡ self.now) }
    {
        Ok(Roles {
            items: Vec::from_slice(*self.items.allocator(), &self.items)?,
        })
    }

    /// The roles, ascending.
    pub(crate) fn as_slice(&self) -> &[RoleId]
        ensures value { result.now ≡ members self.now }
        ensures rises { Rises role_cmp result.now }
    {
        &self.items
    }

    /// Whether the role is among them.
    pub(crate) fn has(&self, role: RoleId) -> bool
        ensures { result ≡ has self.now role }
    {
        is_in(&self.items, role)
    }

    /// Adds a role. After a refusal the set is as it was.
    pub(crate) fn add(&mut self, role: RoleId) -> Result<(), Memory>
        ensures ok { OnOk result (self.new ≡ with_member self.old role) }
        ensures err { OnErr result (self.new ≡ self.old) }
    {
        put(&mut self.items, role)
    }

    /// Takes a role out.
    pub(crate) fn remove(&mut self, role: RoleId)
        ensures { self.new ≡ without self.old role }
    {
        take_out(&mut self.items, role);
    }
}

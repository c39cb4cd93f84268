//! A policy with what was made of it for its books.
ghost use Rattle.std.specs.Prelude.{◌≡◌, IfOk, IfErr};

use gt_base::Memory;
use hybrid_hierarchy::Hierarchy;
use policy_book::Policy;
use std::alloc::Global;
use std::marker::Model;
use time_engine::Ground;

/// The ground of a policy, with the hierarchy of its edges indexed once. It is seen as the policy
/// with its names.
pub(crate) struct Prepared {
    ground: Ground,
    hierarchy: Hierarchy,
}

impl Model for Prepared {
    ghost use Rattle.std.specs.Prelude.{◌≡◌};
    ghost use Rattle.policy_words.specs.Naming.{NamedPolicy, named_policy_code};

    ghost Value = { NamedPolicy };

    ghost coded = { named_policy_code };

    ghost view = { λ p. p.ground };

    ghost invariant = { λ p. p.hierarchy ≡ p.ground.policy.edges };
}

impl Drop for Prepared {
    fn drop(self) {
        let Prepared {
            ground: _,
            hierarchy: _,
        } = self;
    }
}

impl Prepared {
    /// The ground with its hierarchy. For want of memory the ground is handed back.
    pub(crate) fn new(alloc: Global, ground: Ground) -> Result<Prepared, Ground>
        ensures ok { IfOk result (λ p. p ≡ ground) }
        ensures handed_back { IfErr result (λ g. g ≡ ground) }
    {
        match hierarchy_of(alloc, ground.policy()) {
            Ok(hierarchy) => Ok(Prepared { ground, hierarchy }),
            Err(_) => Err(ground),
        }
    }

    /// The policy.
    pub(crate) fn policy(&self) -> &Policy
        ensures { result.now ≡ self.now }
    {
        self.ground.policy()
    }

    /// The ground.
    pub(crate) fn ground(&self) -> &Ground
        ensures { result.now ≡ self.now }
    {
        &self.ground
    }

    /// The hierarchy of the policy's edges.
    pub(crate) fn hierarchy(&self) -> &Hierarchy
        ensures { result.now ≡ self.now.policy.edges }
    {
        &self.hierarchy
    }
}

/// The hierarchy of the policy's edges. For want of memory it may refuse.
fn hierarchy_of(alloc: Global, policy: &Policy) -> Result<Hierarchy, Memory>
    ensures { IfOk result (λ h. h ≡ policy.now.policy.edges) }
{
    policy.keeps();
    Hierarchy::new(alloc, policy.edges())
}

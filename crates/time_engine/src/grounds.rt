//! What timelines of a policy stand on.
ghost use Rattle.std.specs.Prelude.{◌≡◌, IfOk, IfErr};
ghost use Rattle.gt_base.specs.Happening.{HappenedView};
ghost use Rattle.gt_base.specs.Sets.{has};
ghost use Rattle.gtrbac_model.specs.Instant.{Settled};
ghost use Rattle.dependency_graph.specs.Levelled.{IsLevelled};

use dependency_graph::EventGraph;
use gt_base::{Happened, Memory, Status};
use instant_engine::{TriggerLevels, settled_contest};
use policy_book::Policy;
use priority_conflict::Contest;
use safety_cycle::Strata;
use std::alloc::Global;
use std::marker::Model;
use trigger_rules::Rules;

/// A policy with its dependency graph, levels of its nodes, and its triggers with their index, made
/// once. It is seen as the policy.
pub struct Ground {
    alloc: Global,
    policy: Policy,
    graph: EventGraph,
    strata: Strata,
    rules: Rules,
    levels: TriggerLevels,
}

impl Model for Ground {
    ghost use Rattle.std.specs.Prelude.{◌≡◌};
    ghost use Rattle.policy_words.specs.Naming.{NamedPolicy, named_policy_code};
    ghost use Rattle.instant_engine.specs.TriggerLevels.{AreLevels};
    ghost use Rattle.dependency_graph.specs.Levelled.{IsLevelled};

    ghost Value = { NamedPolicy };

    ghost coded = { named_policy_code };

    ghost view = { λ g. g.policy };

    ghost invariant = { λ g. IsLevelled g.policy.policy.triggers g.graph g.strata
        × (g.rules ≡ g.policy.policy.triggers)
        × AreLevels g.policy.policy.triggers g.graph g.strata g.levels };
}

impl Drop for Ground {
    fn drop(self) {
        let Ground {
            alloc: _,
            policy: _,
            graph: _,
            strata: _,
            rules: _,
            levels: _,
        } = self;
    }
}

/// Want of memory for a ground, with all that was handed in.
#[derive(Drop)]
pub struct GroundFault {
    pub policy: Policy,
    pub graph: EventGraph,
    pub strata: Strata,
}

impl Ground {
    /// The ground of a policy, whose dependency graph and levels these are. A refusal, for want of
    /// memory alone, hands them back.
    pub fn new(
        alloc: Global,
        policy: Policy,
        graph: EventGraph,
        strata: Strata,
    ) -> Result<Ground, GroundFault>
        requires { IsLevelled policy.policy.triggers graph strata }
        ensures ok { IfOk result (λ g. g ≡ policy) }
        ensures handed_back { IfErr result
            (λ e. (e.policy ≡ policy) × (e.graph ≡ graph) × (e.strata ≡ strata)) }
    {
        policy.keeps();
        let Ok(rules) = Rules::new(alloc, policy.triggers()) else {
            return Err(GroundFault {
                policy,
                graph,
                strata,
            });
        };
        let Ok(levels) = TriggerLevels::new(alloc, &rules, &graph, &strata) else {
            return Err(GroundFault {
                policy,
                graph,
                strata,
            });
        };
        Ok(Ground {
            alloc,
            policy,
            graph,
            strata,
            rules,
            levels,
        })
    }

    /// The policy, with its dependency graph and levels.
    pub fn into_parts(self) -> (Policy, EventGraph, Strata)
        ensures policy { result.0 ≡ self }
        ensures levelled { IsLevelled result.0.policy.triggers result.1 result.2 }
    {
        let Ground {
            alloc: _,
            policy,
            graph,
            strata,
            rules: _,
            levels: _,
        } = self;
        (policy, graph, strata)
    }

    /// The policy.
    pub fn policy(&self) -> &Policy
        ensures { result.now ≡ self.now }
    {
        &self.policy
    }

    /// The one set that the base settles to, under the status before the instant.
    pub(crate) fn settle(&self, base: &Happened, before: &Status) -> Result<Contest, Memory>
        ensures settled { IfOk result
            (λ x. Settled self.now.policy.triggers base.now.set (has before.now.set) x) }
        ensures only { IfOk result (λ x. (y : HappenedView)
            → Settled self.now.policy.triggers base.now.set (has before.now.set) y → y ≡ x) }
    {
        settled_contest(
            self.alloc,
            &self.rules,
            &self.graph,
            &self.strata,
            &self.levels,
            base,
            before,
        )
    }
}

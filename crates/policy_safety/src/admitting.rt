//! Admission: a policy with its graph and levels where it is safe, else its least conflict cycle.
ghost use Rattle.std.specs.Prelude.{◌≡◌, IfOk, IfErr, OnOk, Some};
ghost use Rattle.gtrbac_model.specs.Safety.{IsSafe, the_cycle};
ghost use Rattle.gtrbac_model.specs.Theorems.{HasOneModel};
ghost use Rattle.dependency_graph.specs.Nets.{IsGraphOf};
ghost use Rattle.dependency_graph.specs.Levelled.{IsLevelled};
ghost use Rattle.policy_safety.specs.Cycles.{IsRefused};

use crate::causes::told;
use crate::levelling::{NoLevels, levels};
use dependency_graph::EventGraph;
use gt_base::{Event, List};
use policy_book::Policy;
use safety_cycle::Strata;
use std::alloc::Global;
use std::marker::Model;

/// A safe policy with its dependency graph and levels of the graph's nodes, which show that it is
/// safe. It is seen as the policy with its names.
pub struct Safe {
    policy: Policy,
    graph: EventGraph,
    strata: Strata,
}

impl Drop for Safe {
    fn drop(self) {
        let Safe {
            policy: _,
            graph: _,
            strata: _,
        } = self;
    }
}

impl Model for Safe {
    ghost use Rattle.policy_words.specs.Naming.{NamedPolicy, named_policy_code};
    ghost use Rattle.dependency_graph.specs.Levelled.{IsLevelled};

    ghost Value = { NamedPolicy };

    ghost coded = { named_policy_code };

    ghost view = { λ s. s.policy };

    ghost invariant = { λ s. IsLevelled s.policy.policy.triggers s.graph s.strata };
}

/// An edge of the cycle that makes a policy unsafe: whether it is a conflict, its trigger and the
/// place of the body event among the trigger's body events, both from 0, and the events that it
/// leads from and to.
#[derive(Clone, Copy, PartialEq, Eq)]
pub struct CycleEdge {
    pub conflict: bool,
    pub trigger: u32,
    pub place: u32,
    pub source: Event,
    pub target: Event,
}

/// Why a policy was not admitted, with the policy handed back.
#[derive(Drop)]
pub enum AdmitFault {
    /// It is not safe: its least conflict edge that lies on a cycle, and the least walk back.
    Unsafe {
        policy: Policy,
        edges: List<CycleEdge>,
    },
    /// Want of memory.
    Memory {
        policy: Policy,
    },
}

impl Safe {
    /// Admits a policy exactly where it is safe. For each birth and each list of at most 1,000,000
    /// named moves it then has exactly one history with one execution model.
    pub fn admit(alloc: Global, policy: Policy) -> Result<Safe, AdmitFault>
        ensures same { IfOk result (λ s. s ≡ policy) }
        ensures safe { OnOk result (IsSafe policy.policy.triggers) }
        ensures one { OnOk result (HasOneModel policy.policy) }
        ensures refused { IfErr result (IsRefused policy) }
    {
        policy.keeps();
        match levels(alloc, policy.triggers()) {
            Ok((graph, strata)) => Ok(Safe {
                policy,
                graph,
                strata,
            }),
            Err(NoLevels::Cycle { graph, edges }) => Err(refused(
                alloc,
                policy,
                &graph,
                edges.as_slice(),
            )),
            Err(NoLevels::Memory) => Err(AdmitFault::Memory { policy }),
        }
    }

    /// The policy with its dependency graph and levels of the graph's nodes, as admission made
    /// them.
    pub fn into_parts(self) -> (Policy, EventGraph, Strata)
        ensures policy { result.0 ≡ self }
        ensures levelled { IsLevelled result.0.policy.triggers result.1 result.2 }
    {
        let Safe {
            policy,
            graph,
            strata,
        } = self;
        (policy, graph, strata)
    }

    /// The safe policy whose dependency graph and levels these are.
    pub fn from_parts(policy: Policy, graph: EventGraph, strata: Strata) -> Safe
        requires { IsLevelled policy.policy.triggers graph strata }
        ensures { result ≡ policy }
    {
        Safe {
            policy,
            graph,
            strata,
        }
    }

    /// What every safe policy keeps.
    pub fn keeps(&self)
        ensures { IsSafe self.now.policy.triggers }
    {
        let _ = &self.strata;
    }

    /// The policy.
    pub fn policy(&self) -> &Policy
        ensures value { result.now ≡ self.now }
    {
        &self.policy
    }
}

/// The policy with the edges of its cycle, which have these numbers in its graph.
fn refused(alloc: Global, policy: Policy, graph: &EventGraph, numbers: &[u32]) -> AdmitFault
    requires graph { IsGraphOf policy.policy.triggers graph.now }
    requires cycle { the_cycle policy.policy.triggers ≡ Some numbers.now }
    ensures { IsRefused policy result }
{
    match told(alloc, graph, numbers) {
        Ok(edges) => AdmitFault::Unsafe { policy, edges },
        Err(_) => AdmitFault::Memory { policy },
    }
}

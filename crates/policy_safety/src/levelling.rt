//! Whether a list of triggers is safe: its graph with levels, or with its least cycle.
ghost use Rattle.std.specs.Prelude.{◌≡◌, IfOk, IfErr, OnOk};
ghost use Rattle.gtrbac_model.specs.Safety.{IsSafe};
ghost use Rattle.dependency_graph.specs.Nets.{IsWithinLimits};
ghost use Rattle.dependency_graph.specs.Levelled.{IsLevelled};
ghost use Rattle.policy_safety.specs.Causes.{IsCause};

use dependency_graph::{EventGraph, graph};
use gt_base::{List, Trigger};
use least_walk::EdgeList;
use safety_cycle::{Strata, Verdict, judge};
use std::alloc::Global;

/// Why triggers have no levels.
#[derive(Drop)]
pub enum NoLevels {
    /// They are not safe: their dependency graph, and the numbers of its least conflict edge that
    /// lies on a cycle and of the least walk back.
    Cycle { graph: EventGraph, edges: EdgeList },
    /// Want of memory.
    Memory,
}

/// The dependency graph with levels of its nodes where the triggers are safe, else the least cycle
/// with a conflict edge.
pub fn levels(alloc: Global, triggers: &List<Trigger>) -> Result<(EventGraph, Strata), NoLevels>
    requires { IsWithinLimits triggers.now.items }
    ensures ok { IfOk result (λ r. IsLevelled triggers.now.items r.0 r.1) }
    ensures safe { OnOk result (IsSafe triggers.now.items) }
    ensures cycle { IfErr result (IsCause triggers.now.items) }
{
    let Ok(graph) = graph(alloc, triggers) else {
        return Err(NoLevels::Memory);
    };
    match judge(alloc, graph.graph()) {
        Ok(strata) => Ok((graph, strata)),
        Err(Verdict::Cycle { edges }) => Err(NoLevels::Cycle { graph, edges }),
        Err(Verdict::Memory) => Err(NoLevels::Memory),
    }
}

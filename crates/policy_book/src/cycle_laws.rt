//! What the computed cycle means. Each law stands on a function without a body.
ghost use Rattle.gtrbac_model.specs.EdgeCycles.{CycleIsLeast, NoneIsAcyclic};

/// The cycle that the definition computes is the least edge that lies on a cycle and the least walk
/// back, and it computes none just where no closed walk has an edge.
pub fn computed_cycle_is_least()
    ensures { CycleIsLeast }
{}

/// No cycle is computed just where no walk of one or more edges leads from a role back to it.
pub fn no_cycle_is_acyclic()
    ensures { NoneIsAcyclic }
{}

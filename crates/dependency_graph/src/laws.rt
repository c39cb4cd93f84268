//! What is found in the numbered graph holds of the triggers.
ghost use Rattle.dependency_graph.specs.Carried.{CyclesCarryOver, LevelsCarryOver};

/// The least cycle of the numbered graph is that of the triggers, and levels of its nodes are
/// levels of their events.
pub fn carried_over()
    ensures cycles { CyclesCarryOver }
    ensures levels { LevelsCarryOver }
{}

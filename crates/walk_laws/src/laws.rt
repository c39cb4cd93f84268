//! Each law stands on a function without a body, for nodes that are numbers, roles and events.
ghost use Rattle.std.specs.Prelude.{ℕ, nat_eq, List};
ghost use Rattle.gt_base.specs.declared.events.RoleId.{RoleId};
ghost use Rattle.gt_base.specs.declared.events.Event.{Event};
ghost use Rattle.gtrbac_model.specs.Same.{same_role, same_event};
ghost use Rattle.gt_base.specs.Held.{TriggerView};
ghost use Rattle.gtrbac_model.specs.Theorems.{CycleTells, SafeSettleOnce};
ghost use Rattle.walk_laws.specs.Laws.{LeastWalkIsLeast, CycleIsLeast, SafeHasNoCycle, SafeIsLevelled, SafeHasOneModel, SafeHasOnlyModel, OneLeastWalk, OneLeastCycle, LevelsLeaveNoCycle};

/// The walk that the definition computes is the least, and it computes none just where no walk
/// leads from a start to a goal.
pub fn computed_walk_is_least()
    ensures numbers { LeastWalkIsLeast ℕ nat_eq }
    ensures roles { LeastWalkIsLeast RoleId same_role }
    ensures events { LeastWalkIsLeast Event same_event }
{}

/// Of the walks from the starts to the goals at most one is the least.
pub fn one_least_walk()
    ensures numbers { OneLeastWalk ℕ }
    ensures roles { OneLeastWalk RoleId }
    ensures events { OneLeastWalk Event }
{}

/// Of the closed walks with a marked arc at most one is the least.
pub fn one_least_cycle()
    ensures numbers { OneLeastCycle ℕ }
    ensures events { OneLeastCycle Event }
{}

/// Levels that do not fall along an arc and rise along a marked one leave no closed walk with a
/// marked arc.
pub fn levels_leave_no_cycle()
    ensures numbers { LevelsLeaveNoCycle ℕ }
    ensures events { LevelsLeaveNoCycle Event }
{}

/// The cycle that the definition computes is the least with a conflict, and it computes none just
/// where the triggers are safe.
pub fn computed_cycle_is_least()
    ensures least { CycleIsLeast }
    ensures tells { (triggers : List TriggerView) → CycleTells triggers }
    ensures safe { SafeHasNoCycle }
{}

/// Safe triggers have levels that do not fall along a dependency and rise along a conflict.
pub fn safe_is_levelled()
    ensures { SafeIsLevelled }
{}

/// Safe triggers settle each base under each status to just one set.
pub fn safe_settles_once()
    ensures { (triggers : List TriggerView) → SafeSettleOnce triggers }
{}

/// A policy with safe triggers has just one history and model for each birth and each list of
/// moves.
pub fn safe_has_one_model()
    ensures one { SafeHasOneModel }
    ensures only { SafeHasOnlyModel }
{}

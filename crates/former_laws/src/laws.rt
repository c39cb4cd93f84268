//! Each law stands on a function without a body.
ghost use Rattle.former_laws.specs.Bodies.{MetAsBefore};
ghost use Rattle.former_laws.specs.Dependencies.{SafeAsBefore, CycleAsBefore, DependenciesAsBefore};
ghost use Rattle.former_laws.specs.Minutes.{SettledAsBefore, DelayedAsBefore};
ghost use Rattle.former_laws.specs.Walks.{UsableAsBefore, AllowedAsBefore, LentAsBefore, AnyAsBefore, DecidedAsBefore, StayLinked};

/// A trigger without settled conditions is met where it was.
pub fn bodies_as_before()
    ensures { MetAsBefore }
{}

/// Where no trigger has a settled condition, a base settles to the sets that it settled to, and the
/// delayed triggers raise what they raised.
pub fn minutes_as_before()
    ensures settled { SettledAsBefore }
    ensures delayed { DelayedAsBefore }
{}

/// Where no trigger has a settled condition, the dependencies with their numbers, safety and the
/// cycle that is printed are what they were.
pub fn dependencies_as_before()
    ensures dependencies { DependenciesAsBefore }
    ensures safe { SafeAsBefore }
    ensures cycle { CycleAsBefore }
{}

/// While every edge is on, edges are usable as they were, and the walks that allow an activation or
/// lend a permission and the decisions are what they were.
pub fn walks_as_before()
    ensures usable { UsableAsBefore }
    ensures allowed { AllowedAsBefore }
    ensures lent { LentAsBefore }
    ensures any { AnyAsBefore }
    ensures decided { DecidedAsBefore }
{}

/// Where every edge is on at the birth and no minute turns one off, every edge is on after each
/// minute.
pub fn linked_stay_linked()
    ensures { StayLinked }
{}

//! Worked rows: that triggers are safe is needed for a settled set.
ghost use Rattle.history_laws.specs.Liar.{LiarHasCycle, LiarSettlesNever, WavererHasCycle, WavererSettlesNever};

/// A trigger that undoes its own cause has a conflict cycle, and the base of its cause settles to
/// no set.
pub fn liar_settles_never()
    ensures cycle { LiarHasCycle }
    ensures never { LiarSettlesNever }
{}

/// A trigger whose head ends its own settled condition has a conflict cycle, and where that
/// condition held before, the base of its cause settles to no set.
pub fn waverer_settles_never()
    ensures cycle { WavererHasCycle }
    ensures never { WavererSettlesNever }
{}

//! Worked rows: that triggers are safe is needed for one settled set.
ghost use Rattle.walk_laws.specs.Rivals.{RivalsHaveCycle, RivalsSettleTwice};

/// Two triggers, each of which disables what the other needs, have a conflict cycle, and one base
/// of theirs settles to two sets.
pub fn rivals_settle_twice()
    ensures cycle { RivalsHaveCycle }
    ensures twice { RivalsSettleTwice }
{}

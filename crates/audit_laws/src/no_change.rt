//! Requests that only look change nothing.
ghost use Rattle.history_laws.specs.Looks.{LooksChangeNothing, LooksMayBeLeftOut};

/// With or without a request that only looks a history has the same tables, queues and bases at
/// each instant, and stays legal; so all of them may be left out.
pub fn looks_change_nothing()
    ensures one { LooksChangeNothing }
    ensures all { LooksMayBeLeftOut }
{}

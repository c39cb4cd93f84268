ghost use Rattle.trigger_rules.specs.Indexes.{EventsAreIndexed, SignalsAreIndexed, IndexesAscend};

/// A trigger's number is listed under an event or a signal exactly where its body has it, and the
/// numbers ascend.
pub fn indexes_tell()
    ensures events { EventsAreIndexed }
    ensures signals { SignalsAreIndexed }
    ensures ascend { IndexesAscend }
{}

//! What an accepted certificate says, and the priorities of what it lists.
ghost use Rattle.why_check.specs.Laws.{AcceptedIsModel, AcceptedIsTheModel, AcceptedTells};
ghost use Rattle.why_check.specs.Priorities.{AnswersAreLow, PrioritiesAreLow};

/// A certificate of a history has at each of its instants the set of the execution model, and the
/// empty set elsewhere. So an event of it is in that set, and one that is blocked in it is blocked
/// there.
pub fn accepted_is_the_model()
    ensures model { AcceptedIsModel }
    ensures only { AcceptedIsTheModel }
    ensures tells { AcceptedTells }
{}

/// Where the moves of a history name only what the policy has, each of its sets has priorities of
/// at most 100: an event comes from an entry, a limit, a trigger or a request.
pub fn priorities_are_low()
    ensures sets { PrioritiesAreLow }
    ensures answers { AnswersAreLow }
{}

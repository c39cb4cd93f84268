//! What turns a fluent.
ghost use Rattle.audit_laws.specs.Turning.{EachHasCause, OnlyRequestsRaise, WhatTurns};

/// Each event of a set is raised by a periodic entry, a limit, a trigger or a request of the
/// operator or an administrator, and no other entry of the history raises any; a fluent stands as
/// it did at first, or as the last set that won an event of it made it.
pub fn what_turns()
    ensures causes { EachHasCause }
    ensures requests { OnlyRequestsRaise }
    ensures turns { WhatTurns }
{}

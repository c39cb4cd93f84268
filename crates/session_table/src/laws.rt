//! What the words of the table have to do with those of the model.
ghost use Rattle.session_table.specs.Stretches.{StretchesClose, FirmEndsNothing};
ghost use Rattle.session_table.specs.Laws.{CloseLeaves, CapsStay};

/// Where the minutes before the last of a stretch end no activation, closing the stretch minute by
/// minute is what the table's words say: each minute is charged, and the last close alone drops.
pub fn stretches_close()
    ensures { StretchesClose }
{}

/// Minutes at which each activation's role is on, a usable walk allows it and no cap is reached end
/// no activation.
pub fn firm_ends_nothing()
    ensures { FirmEndsNothing }
{}

/// What a close leaves active has its role on, a usable walk that allows it, and its caps on
/// minutes not reached.
pub fn close_leaves()
    ensures { CloseLeaves }
{}

/// No request and no close lets a role be active more often than its caps over all sessions and for
/// one user allow.
pub fn caps_stay()
    ensures { CapsStay }
{}

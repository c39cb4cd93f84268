//! Nobody acts in another's session.
ghost use Rattle.audit_laws.specs.Owners.{OthersAreTurnedAway, OwnersAct};

/// A user's request for an open session of another user's is refused as not theirs, and changes
/// nothing; a request for a session that is not refused is for an open one, of its owner or of the
/// operator.
pub fn nobody_acts_in_anothers()
    ensures others { OthersAreTurnedAway }
    ensures own { OwnersAct }
{}

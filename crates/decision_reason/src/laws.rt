//! What a decision asks of the active roles.
ghost use Rattle.decision_reason.specs.SameRoles.{RolesDecide};

/// Lists of active roles with the same roles give the same decision.
pub fn roles_decide()
    ensures { RolesDecide }
{}

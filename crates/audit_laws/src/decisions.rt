//! Laws of decisions.
ghost use Rattle.audit_laws.specs.Denials.{DenialsAreRight};
ghost use Rattle.audit_laws.specs.Permits.{PermitsAreEarned};

/// Each permit is for an open session whose owner asks, or the operator, and stands on an
/// activation in it that the history answered for and that was allowed ever since, and on a walk
/// that lends the permission now.
pub fn permits_are_earned()
    ensures { PermitsAreEarned }
{}

/// Each denial has its reason as it is said, and no active role of the session leads by usable
/// edges to a role with the permission.
pub fn denials_are_right()
    ensures { DenialsAreRight }
{}

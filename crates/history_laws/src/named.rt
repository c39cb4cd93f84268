//! Laws of histories of named moves.
ghost use Rattle.history_laws.specs.Named.{OnlyNamedIsOn, PointsAreNamed};

/// Where the moves of a history name only what the policy has, only fluents of the policy are ever
/// on.
pub fn only_named_is_on()
    ensures { OnlyNamedIsOn }
{}

/// Where the moves of a history name only what the policy has, each request is answered from an
/// instant that is a minute, a status of the policy's fluents and activations of its roles.
pub fn points_are_named()
    ensures { PointsAreNamed }
{}

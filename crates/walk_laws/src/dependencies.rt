//! Laws of the dependencies among events, and of triggers and edges as they were before settled
//! conditions and edge events.
ghost use Rattle.walk_laws.specs.Bare.{BareIsMetByBody, BareDependOnBodies, LinkedLends, LinkedAllows, UnlinkedIsShut, LinkedArcs};
ghost use Rattle.walk_laws.specs.Depending.{DependenciesTell};

/// The dependencies of triggers are those from body events and their converses and from both events
/// of each settled condition's fluent, to the heads of immediate triggers, where they come from
/// nodes.
pub fn dependencies_tell()
    ensures { DependenciesTell }
{}

/// Triggers without settled conditions are met by their bodies and the status before the instant
/// alone, and have the dependencies of their body events alone.
pub fn bare_triggers()
    ensures met { BareIsMetByBody }
    ensures dependencies { BareDependOnBodies }
{}

/// An edge that is on is usable by its kind and the roles that are enabled, and one that is off
/// never is.
pub fn linked_edges()
    ensures lends { LinkedLends }
    ensures allows { LinkedAllows }
    ensures shut { UnlinkedIsShut }
    ensures arcs { LinkedArcs }
{}

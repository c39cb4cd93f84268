//! Laws of histories: blocking, longer histories, and refused requests.
ghost use Rattle.history_laws.specs.Histories.{StandingBlocks, BlockedStillBlocks, LongerAgrees, RefusedChangesNothing, LegalWithoutRefused};

/// An event is blocked exactly where one that stands in the set blocks it, whether that one is
/// itself blocked or not.
pub fn standing_blocks()
    ensures law { StandingBlocks }
    ensures row { BlockedStillBlocks }
{}

/// A history that goes on from another has its sets up to the other's now, where the triggers are
/// safe.
pub fn longer_agrees()
    ensures { LongerAgrees }
{}

/// With or without a refused request a history has the same tables and bases at each instant, and
/// it stays legal without it.
pub fn refused_changes_nothing()
    ensures same { RefusedChangesNothing }
    ensures legal { LegalWithoutRefused }
{}

//! What a line claims for itself, so that no other line may have it.
use crate::sayings::CapKind;
use gt_base::Name;

/// What a line claims for itself: a name that it declares, the ordered pair of an edge, or the kind
/// and role of a cap, which no other line may claim; or the pair of an assignment or a grant, which
/// counts once.
#[derive(Clone, Copy, PartialEq, Eq, Hash)]
pub enum Claim {
    Role(Name),
    User(Name),
    Perm(Name),
    Period(Name),
    Limit(Name),
    Edge(Name, Name),
    Cap(CapKind, Name),
    Assigned(Name, Name),
    Granted(Name, Name),
}

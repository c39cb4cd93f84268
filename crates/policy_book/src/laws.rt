//! Laws of the policies that lines make. Each stands on a function without a body.
ghost use Rattle.policy_book.specs.FirstFaults.{FaultsAreFirst};
ghost use Rattle.policy_book.specs.Laws.{BuildIsWellFormed};

/// What lines in range without a fault make is a policy that is well formed.
pub fn build_is_well_formed()
    ensures { BuildIsWellFormed }
{}

/// What is told of lines is the fault of the least line that has one: a name that no line declares,
/// a claim that an earlier line has, or one too many of its kind. Where no line has a fault, it is
/// the least cycle of edges.
pub fn faults_are_first()
    ensures { FaultsAreFirst }
{}

//! Laws of texts of policies.
ghost use Rattle.policy_text.specs.CanonicalLaws.{CanonicalAreSayings, CanonicalIsBuilt, VersionIsFirst};
ghost use Rattle.policy_text.specs.Laws.{CanonicalIsRead};

/// The canonical lines of a well-formed policy make that policy again.
pub fn canonical_is_built()
    ensures { CanonicalIsBuilt }
{}

/// The canonical lines of a well-formed policy are in range, and the first of them alone is the
/// version.
pub fn canonical_are_sayings()
    ensures sayings { CanonicalAreSayings }
    ensures version { VersionIsFirst }
{}

/// The canonical text of a policy stands for it, where no line of it has more than 4,096 bytes.
pub fn canonical_is_read()
    ensures { CanonicalIsRead }
{}

//! The first words of lines that say something.
ghost use Rattle.std.specs.Prelude.{◌≡◌, bytes_eq, find};
ghost use Rattle.policy_lines.specs.FirstWords.{verb_word, all_verbs};

/// The first word of a line.
#[derive(Clone, Copy)]
pub(crate) enum LineVerb {
    Policy,
    Role,
    User,
    Perm,
    Period,
    Limit,
    Edge,
    Cap,
    Admin,
    Enabled,
    Assigned,
    Granted,
    Armed,
    Linked,
    Each,
    Start,
    Span,
    When,
}

const LINE_VERBS: [LineVerb; 18] = [
    LineVerb::Policy,
    LineVerb::Role,
    LineVerb::User,
    LineVerb::Perm,
    LineVerb::Period,
    LineVerb::Limit,
    LineVerb::Edge,
    LineVerb::Cap,
    LineVerb::Admin,
    LineVerb::Enabled,
    LineVerb::Assigned,
    LineVerb::Granted,
    LineVerb::Armed,
    LineVerb::Linked,
    LineVerb::Each,
    LineVerb::Start,
    LineVerb::Span,
    LineVerb::When,
];

/// The word of a verb, by which `line_verb` finds the verb that a word is.
fn verb_text(verb: LineVerb) -> &'static [u8]
    ensures { result.now ≡ verb_word verb }
{
    match verb {
        LineVerb::Policy => b"policy",
        LineVerb::Role => b"role",
        LineVerb::User => b"user",
        LineVerb::Perm => b"perm",
        LineVerb::Period => b"period",
        LineVerb::Limit => b"limit",
        LineVerb::Edge => b"edge",
        LineVerb::Cap => b"cap",
        LineVerb::Admin => b"admin",
        LineVerb::Enabled => b"enabled",
        LineVerb::Assigned => b"assigned",
        LineVerb::Granted => b"granted",
        LineVerb::Armed => b"armed",
        LineVerb::Linked => b"linked",
        LineVerb::Each => b"each",
        LineVerb::Start => b"start",
        LineVerb::Span => b"span",
        LineVerb::When => b"when",
    }
}

/// The first word of a line that a word is.
pub(crate) fn line_verb(word: &[u8]) -> Option<LineVerb>
    ensures { result ≡ find (λ v. bytes_eq (verb_word v) word.now) all_verbs }
{
    LINE_VERBS
        .iter()
        .copied()
        .find(|verb| verb_text(*verb) == word)
}

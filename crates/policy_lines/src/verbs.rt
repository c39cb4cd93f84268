//! The verbs of events and conditions: the words of each, and the verb that a word is.
ghost use Rattle.std.specs.Prelude.{◌≡◌, bytes_eq, find};
ghost use Rattle.policy_words.specs.Wording.{verb_in, event_verb, cond_verb, signal_verb, sort_of};

use policy_words::Sort;

/// All verbs: whether each sets on, and the sort of its fluents.
const VERBS: [(bool, Sort); 10] = [
    (true, Sort::Enabling),
    (false, Sort::Enabling),
    (true, Sort::Assigning),
    (false, Sort::Assigning),
    (true, Sort::Granting),
    (false, Sort::Granting),
    (true, Sort::Arming),
    (false, Sort::Arming),
    (true, Sort::Linking),
    (false, Sort::Linking),
];

/// The word of an event's verb.
pub fn event_text(on: bool, sort: Sort) -> &'static [u8]
    ensures { result.now ≡ event_verb on sort }
{
    match (on, sort) {
        (true, Sort::Enabling) => b"enable",
        (false, Sort::Enabling) => b"disable",
        (true, Sort::Assigning) => b"assign",
        (false, Sort::Assigning) => b"deassign",
        (true, Sort::Granting) => b"grant",
        (false, Sort::Granting) => b"revoke",
        (true, Sort::Arming) => b"arm",
        (false, Sort::Arming) => b"disarm",
        (true, Sort::Linking) => b"link",
        (false, Sort::Linking) => b"unlink",
    }
}

/// The word of a condition's verb.
pub(crate) fn cond_text(on: bool, sort: Sort) -> &'static [u8]
    ensures { result.now ≡ cond_verb on sort }
{
    match (on, sort) {
        (true, Sort::Enabling) => b"enabled",
        (false, Sort::Enabling) => b"disabled",
        (true, Sort::Assigning) => b"assigned",
        (false, Sort::Assigning) => b"deassigned",
        (true, Sort::Granting) => b"granted",
        (false, Sort::Granting) => b"revoked",
        (true, Sort::Arming) => b"armed",
        (false, Sort::Arming) => b"disarmed",
        (true, Sort::Linking) => b"linked",
        (false, Sort::Linking) => b"unlinked",
    }
}

/// The word of a signal's verb.
pub(crate) fn signal_text(start: bool) -> &'static [u8]
    ensures { result.now ≡ signal_verb start }
{
    if start { b"activate" } else { b"deactivate" }
}

/// The verb of an event that a word is.
pub fn event_verb(word: &[u8]) -> Option<(bool, Sort)>
    ensures { result ≡ verb_in event_verb word.now }
{
    VERBS
        .iter()
        .copied()
        .find(|verb| event_text(verb.0, verb.1) == word)
}

/// The verb of a condition that a word is.
pub fn cond_verb(word: &[u8]) -> Option<(bool, Sort)>
    ensures { result ≡ verb_in cond_verb word.now }
{
    VERBS
        .iter()
        .copied()
        .find(|verb| cond_text(verb.0, verb.1) == word)
}

//! What a line of a policy says.
ghost use Rattle.std.specs.Prelude.{◌≡◌, ◌≤◌, ◌∷◌, ◌⊎◌, length, option_map, IsTrue, IfOk, IfErr, IfSome, Ok, Err};
ghost use Rattle.policy_words.specs.Sayings.{is_saying};
ghost use Rattle.policy_words.specs.Seen.{seen_said};
ghost use Rattle.policy_words.specs.Versions.{is_open, has_edges};
ghost use Rattle.policy_words.specs.Reading.{said_of, read_said};
ghost use Rattle.policy_lines.specs.Answered.{ReadsAs};
ghost use Rattle.policy_lines.specs.FirstWords.{said_behind};

use crate::edges::formed_in;
use crate::first_words::{LineVerb, line_verb};
use crate::forms::{cap, edge, entry, formed, limit, linked, one_name, opening, version};
use crate::periods::period;
use crate::triggers::trigger;
use gt_base::{Form, LONGEST_POLICY_LINE};
use gt_text::{Words, begins};
use policy_words::{Said, TextKind, TextVersion};
use std::alloc::Global;

/// Whether only silent lines stand before, so that a version may be said here.
fn is_open(version: TextVersion) -> bool
    ensures { result ≡ is_open version }
{
    match version {
        TextVersion::Open => true,
        TextVersion::One | TextVersion::Two => false,
    }
}

/// Whether the text has words for edges that are linked and unlinked.
fn has_edges(version: TextVersion) -> bool
    ensures { result ≡ has_edges version }
{
    match version {
        TextVersion::Open | TextVersion::One => false,
        TextVersion::Two => true,
    }
}

/// What a line says, by its first word and the words after it.
fn said_after(
    alloc: Global,
    text_version: TextVersion,
    line: &[u8],
    verb: LineVerb,
    words: Words<'_>,
) -> Result<Said, TextKind>
    requires { length line.now ≤ LONGEST_POLICY_LINE }
    ensures { ReadsAs result (said_behind text_version line.now verb words.entry) }
{
    match verb {
        LineVerb::Policy => version(is_open(text_version), words),
        LineVerb::Role => formed(one_name(words).map(|name| Said::Role(name))),
        LineVerb::User => formed(one_name(words).map(|name| Said::User(name))),
        LineVerb::Perm => formed(one_name(words).map(|name| Said::Perm(name))),
        LineVerb::Period => period(alloc, line, words),
        LineVerb::Limit => formed_in(has_edges(text_version), limit(words)),
        LineVerb::Edge => formed(edge(words)),
        LineVerb::Cap => formed(cap(words)),
        LineVerb::Admin => formed(one_name(words).map(|name| Said::Admin(name))),
        LineVerb::Enabled => formed(opening(b"enabled", words)),
        LineVerb::Assigned => formed(opening(b"assigned", words)),
        LineVerb::Granted => formed(opening(b"granted", words)),
        LineVerb::Armed => formed(opening(b"armed", words)),
        LineVerb::Linked => linked(has_edges(text_version), words),
        LineVerb::Each => formed_in(has_edges(text_version), entry(Form::Each, words)),
        LineVerb::Start => formed_in(has_edges(text_version), entry(Form::Start, words)),
        LineVerb::Span => formed_in(has_edges(text_version), entry(Form::Span, words)),
        LineVerb::When => trigger(alloc, has_edges(text_version), words),
    }
}

/// What a line says that is not silent. A first word that is no verb begins no line.
fn said_of(
    alloc: Global,
    version: TextVersion,
    line: &[u8],
    word: &[u8],
    words: Words<'_>,
) -> Result<Said, TextKind>
    requires { length line.now ≤ LONGEST_POLICY_LINE }
    ensures { ReadsAs result (said_of version line.now (word.now ∷ words.entry)) }
{
    match line_verb(word) {
        Some(verb) => said_after(alloc, version, line, verb, words),
        None => Err(TextKind::Word),
    }
}

/// What a line says; None where it is blank or a comment, which may be too long all the same.
fn read_line(alloc: Global, version: TextVersion, line: &[u8]) -> Result<Option<Said>, TextKind>
    ensures ok { IfOk result (λ said. read_said version line.now
        ≡ Ok (option_map seen_said said)) }
    ensures fault { IfErr result (λ f. (f ≡ TextKind.Memory)
        ⊎ (read_said version line.now ≡ Err f)) }
{
    if line.len() > LONGEST_POLICY_LINE {
        return Err(TextKind::Long);
    }
    let mut words = Words::new(line);
    let Some(word) = words.next() else {
        return Ok(None);
    };
    if begins(word, b'#') {
        return Ok(None);
    }
    match said_of(alloc, version, line, word, words) {
        Ok(said) => Ok(Some(said)),
        Err(fault) => Err(fault),
    }
}

/// What a line of a policy says, nothing where it is silent, or why it says nothing, in a text
/// whose lines before it tell this version. Want of memory is `TextKind::Memory`, also where the
/// expression of a period wants it.
pub fn read_said(alloc: Global, version: TextVersion, line: &[u8]) -> Result<Option<Said>, TextKind>
    ensures ok { IfOk result (λ said. read_said version line.now
        ≡ Ok (option_map seen_said said)) }
    ensures fault { IfErr result (λ f. (f ≡ TextKind.Memory)
        ⊎ (read_said version line.now ≡ Err f)) }
    ensures saying { IfOk result (λ said. IfSome said (λ s. IsTrue (is_saying (seen_said s)))) }
{
    read_line(alloc, version, line)
}

//! Lines that say nothing of an expression: their words after the first.
ghost use Rattle.std.specs.Prelude.{◌≡◌, ◌∷◌, [], List, ℕ, true, false, codes, option_map};
ghost use Rattle.policy_words.specs.Wording.{cond_at, head_at};
ghost use Rattle.policy_words.specs.CapKinds.{cap_kinds};
ghost use Rattle.policy_words.specs.Sayings.{SaidView, kind_word, strength_word, cap_word};
ghost use Rattle.policy_words.specs.Seen.{seen_said};
ghost use Rattle.policy_words.specs.Reading.{formed, one_name, most_at, during_in, limit_in, spelled_so, edge_in, cap_in, opening_by, linked_by, entry_in, version_in, version_by};
ghost use Rattle.policy_lines.specs.Answered.{ReadsAs};
ghost use Rattle.policy_lines.specs.Cursors.{limit_behind};

use crate::parts::{cond_of, next_cond, next_head, read_prio};
use crate::units::{next_name, read_name};
use crate::writing::{cap_text, kind_text, strength_text};
use gt_base::{Form, MAX_COUNT, MAX_POLICY_PRIO, Name, Prio};
use gt_text::{Words, read_between};
use policy_words::{CapKind, EdgeKind, Said, TextKind};

const EDGE_KINDS: [EdgeKind; 3] = [EdgeKind::I, EdgeKind::A, EdgeKind::Ia];

/// Whether an edge is strong.
const STRENGTHS: [bool; 2] = [true, false];

/// A saying, or that the words have no form.
pub(crate) fn formed(said: Option<Said>) -> Result<Said, TextKind>
    ensures { ReadsAs result (formed (option_map seen_said said)) }
{
    match said {
        Some(said) => Ok(said),
        None => Err(TextKind::Form),
    }
}

/// The version that the words are.
fn version_number(mut words: Words<'_>) -> Option<u32>
    ensures { result ≡ version_in words.entry }
{
    let word = words.next()?;
    if words.next().is_some() {
        return None;
    }
    if word == b"1".as_slice() {
        Some(1)
    } else if word == b"2".as_slice() {
        Some(2)
    } else {
        None
    }
}

/// What a line of a version says; `opens` is whether only silent lines stand before.
pub(crate) fn version(opens: bool, words: Words<'_>) -> Result<Said, TextKind>
    ensures { ReadsAs result (version_by opens (version_in words.entry)) }
{
    match version_number(words) {
        Some(n) if opens => Ok(Said::Version(n)),
        _ => Err(TextKind::Version),
    }
}

/// The one name of a line.
pub(crate) fn one_name(mut words: Words<'_>) -> Option<Name>
    ensures { (build : List ℕ → SaidView) → option_map build result ≡ one_name build words.entry }
{
    let name = next_name(&mut words)?;
    if words.next().is_some() {
        return None;
    }
    Some(name)
}

/// `max` and the most minutes.
fn next_most(words: &mut Words<'_>) -> Option<u32>
    ensures { option_map (λ m. (m, words.new)) result ≡ most_at words.old }
{
    let max = words.next()?;
    let most = words.next()?;
    if max != b"max".as_slice() {
        return None;
    }
    read_between(1, MAX_COUNT, most)
}

/// `during` and a period, or nothing.
fn read_during(mut words: Words<'_>) -> Option<Option<Name>>
    ensures { result ≡ during_in words.entry }
{
    let Some(during) = words.next() else {
        return Some(None);
    };
    let period = words.next()?;
    if words.next().is_some() || during != b"during".as_slice() {
        return None;
    }
    Some(Some(read_name(period)?))
}

/// What the words of a limit behind its name and its priority say.
fn limit_of(name: Name, prio: Prio, mut words: Words<'_>) -> Option<Said>
    ensures { option_map seen_said result ≡ limit_behind name prio words.entry }
{
    let cond = next_cond(&mut words)?;
    let most = next_most(&mut words)?;
    let period = read_during(words)?;
    Some(Said::Limit {
        name,
        prio,
        cond,
        most,
        period,
    })
}

/// What a line of a limit says.
pub(crate) fn limit(mut words: Words<'_>) -> Option<Said>
    ensures { option_map seen_said result ≡ limit_in words.entry }
{
    let name = words.next()?;
    let prio = words.next()?;
    let name = read_name(name)?;
    let prio = read_prio(MAX_POLICY_PRIO, prio)?;
    limit_of(name, prio, words)
}

/// The kind of edge that a word is.
fn edge_kind(word: &[u8]) -> Option<EdgeKind>
    ensures { result ≡ spelled_so kind_word (EdgeKind.I ∷ EdgeKind.A ∷ EdgeKind.Ia ∷ []) word.now }
{
    EDGE_KINDS
        .iter()
        .copied()
        .find(|kind| kind_text(*kind) == word)
}

/// Whether the word says that an edge is strong, or that it is weak.
fn strength(word: &[u8]) -> Option<bool>
    ensures { result ≡ spelled_so strength_word (true ∷ false ∷ []) word.now }
{
    STRENGTHS
        .iter()
        .copied()
        .find(|strong| strength_text(*strong) == word)
}

/// What the four words of an edge say.
fn edge_of(kind: &[u8], strong: &[u8], senior: &[u8], junior: &[u8]) -> Option<Said>
    ensures { option_map seen_said result
        ≡ edge_in (kind.now ∷ strong.now ∷ senior.now ∷ junior.now ∷ []) }
{
    let kind = edge_kind(kind)?;
    let strong = strength(strong)?;
    let senior = read_name(senior)?;
    let junior = read_name(junior)?;
    Some(Said::Edge {
        kind,
        strong,
        senior,
        junior,
    })
}

/// What a line of an edge says.
pub(crate) fn edge(mut words: Words<'_>) -> Option<Said>
    ensures { option_map seen_said result ≡ edge_in words.entry }
{
    let kind = words.next()?;
    let strong = words.next()?;
    let senior = words.next()?;
    let junior = words.next()?;
    match words.next() {
        Some(_) => None,
        None => edge_of(kind, strong, senior, junior),
    }
}

/// The kind of cap that a word is.
fn cap_kind(word: &[u8]) -> Option<CapKind>
    ensures { result ≡ spelled_so cap_word cap_kinds word.now }
{
    CapKind::all()
        .iter()
        .copied()
        .find(|kind| cap_text(*kind) == word)
}

/// What the three words of a cap say.
fn cap_of(kind: &[u8], role: &[u8], n: &[u8]) -> Option<Said>
    ensures { option_map seen_said result ≡ cap_in (kind.now ∷ role.now ∷ n.now ∷ []) }
{
    let kind = cap_kind(kind)?;
    let role = read_name(role)?;
    let n = read_between(1, MAX_COUNT, n)?;
    Some(Said::Cap { kind, role, n })
}

/// What a line of a cap says.
pub(crate) fn cap(mut words: Words<'_>) -> Option<Said>
    ensures { option_map seen_said result ≡ cap_in words.entry }
{
    let kind = words.next()?;
    let role = words.next()?;
    let n = words.next()?;
    match words.next() {
        Some(_) => None,
        None => cap_of(kind, role, n),
    }
}

/// What a line of opening status says.
pub(crate) fn opening(verb: &[u8], mut words: Words<'_>) -> Option<Said>
    ensures { option_map seen_said result ≡ opening_by (cond_at (verb.now ∷ words.entry)) }
{
    let cond = cond_of(verb, &mut words)?;
    if words.next().is_some() {
        return None;
    }
    Some(Said::Opening(cond.fluent))
}

/// What a line of an edge that is linked at first says, which version 2 alone has.
pub(crate) fn linked(edges: bool, words: Words<'_>) -> Result<Said, TextKind>
    ensures { ReadsAs result (linked_by edges (opening_by
        (cond_at (codes "linked" ∷ words.entry)))) }
{
    if edges {
        formed(opening(b"linked", words))
    } else {
        Err(TextKind::Word)
    }
}

/// What a line of a periodic entry says.
pub(crate) fn entry(form: Form, mut words: Words<'_>) -> Option<Said>
    ensures { option_map seen_said result ≡ entry_in form words.entry }
{
    let period = words.next()?;
    let period = read_name(period)?;
    let head = next_head(MAX_POLICY_PRIO, &mut words)?;
    if words.next().is_some() {
        return None;
    }
    Some(Said::Entry { form, period, head })
}

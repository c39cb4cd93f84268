//! Fluents, events, conditions, signals, heads and items, read from the front of the words.
ghost use Rattle.std.specs.Prelude.{◌≡◌, ◌∷◌, ◌≤◌, [], MatchOption, option_map, Some};
ghost use Rattle.std.specs.List.{before_first, after_first};
ghost use Rattle.gt_base.specs.Names.{number_from};
ghost use Rattle.gt_base.specs.declared.limits.TheConstants.{MAX_PRIO};
ghost use Rattle.policy_words.specs.Wording.{fluent_at, verb_in, event_verb, event_at, cond_at, signal_of, head_at, item_at, is_colon, delay_in};
ghost use Rattle.policy_lines.specs.Cursors.{as_signal, as_cond, as_settled, other_item_at};

use crate::units::next_name;
use crate::verbs::{cond_verb, event_verb};
use bstr::ByteSlice;
use gt_base::{LAST_MINUTE, Prio};
use gt_text::{Words, read_between};
use policy_words::{Item, NamedCond, NamedEvent, NamedFluent, NamedHead, NamedSignal, Sort};

/// The fluent whose names stand at the front.
fn fluent(sort: Sort, words: &mut Words<'_>) -> Option<NamedFluent>
    ensures { option_map (λ f. (f, words.new)) result ≡ fluent_at sort words.old }
{
    let first = next_name(words)?;
    match sort {
        Sort::Enabling => Some(NamedFluent::Enabled(first)),
        Sort::Arming => Some(NamedFluent::Limit(first)),
        Sort::Assigning => Some(NamedFluent::Assigned(first, next_name(words)?)),
        Sort::Granting => Some(NamedFluent::Granted(first, next_name(words)?)),
        Sort::Linking => Some(NamedFluent::Edge(first, next_name(words)?)),
    }
}

/// The event of a verb and the names after it.
fn event_of(verb: &[u8], words: &mut Words<'_>) -> Option<NamedEvent>
    ensures { option_map (λ e. (e, words.new)) result ≡ event_at (verb.now ∷ words.old) }
{
    let (on, sort) = event_verb(verb)?;
    let fluent = fluent(sort, words)?;
    Some(NamedEvent { on, fluent })
}

/// The condition of a verb and the names after it.
pub(crate) fn cond_of(verb: &[u8], words: &mut Words<'_>) -> Option<NamedCond>
    ensures { option_map (λ c. (c, words.new)) result ≡ cond_at (verb.now ∷ words.old) }
{
    let (on, sort) = cond_verb(verb)?;
    let fluent = fluent(sort, words)?;
    Some(NamedCond { on, fluent })
}

/// The event at the front.
pub fn next_event(words: &mut Words<'_>) -> Option<NamedEvent>
    ensures { option_map (λ e. (e, words.new)) result ≡ event_at words.old }
{
    let verb = words.next()?;
    event_of(verb, words)
}

/// The condition at the front.
pub fn next_cond(words: &mut Words<'_>) -> Option<NamedCond>
    ensures { option_map (λ c. (c, words.new)) result ≡ cond_at words.old }
{
    let verb = words.next()?;
    cond_of(verb, words)
}

/// The signal whose names stand at the front.
fn signal(start: bool, words: &mut Words<'_>) -> Option<NamedSignal>
    ensures { option_map (λ s. (s, words.new)) result ≡ signal_of start words.old }
{
    let user = next_name(words)?;
    let role = next_name(words)?;
    Some(NamedSignal { start, user, role })
}

/// A signal as an item, its verb read before; None where two names do not follow.
fn signal_item(start: bool, words: &mut Words<'_>) -> Option<Item>
    ensures { option_map (λ i. (i, words.new)) result ≡ as_signal (signal_of start words.old) }
{
    Some(Item::Signal(signal(start, words)?))
}

/// A condition as an item, its verb read before; None where that is none, or a name is missing.
fn cond_item(verb: &[u8], words: &mut Words<'_>) -> Option<Item>
    ensures { option_map (λ i. (i, words.new)) result ≡ as_cond (cond_at (verb.now ∷ words.old)) }
{
    Some(Item::Cond(cond_of(verb, words)?))
}

/// A settled condition as an item, `settled` read before; None where no condition follows.
fn settled_item(words: &mut Words<'_>) -> Option<Item>
    ensures { option_map (λ i. (i, words.new)) result ≡ as_settled (cond_at words.old) }
{
    Some(Item::Settled(next_cond(words)?))
}

/// The signal, the condition or the settled condition of a first word and the words after it.
fn other_item(verb: &[u8], words: &mut Words<'_>) -> Option<Item>
    ensures { option_map (λ i. (i, words.new)) result ≡ other_item_at (verb.now ∷ words.old) }
{
    if verb == b"activate".as_slice() {
        return signal_item(true, words);
    }
    if verb == b"deactivate".as_slice() {
        return signal_item(false, words);
    }
    if verb == b"settled".as_slice() {
        return settled_item(words);
    }
    cond_item(verb, words)
}

/// The event of a verb whose names stand at the front.
fn event_item(word: &[u8], verb: (bool, Sort), words: &mut Words<'_>) -> Option<Item>
    requires { verb_in event_verb word.now ≡ Some verb }
    ensures { option_map (λ i. (i, words.new)) result ≡ item_at (word.now ∷ words.old) }
{
    let (on, sort) = verb;
    let Some(fluent) = fluent(sort, words) else {
        return None;
    };
    Some(Item::Event(NamedEvent { on, fluent }))
}

/// The item at the front.
pub(crate) fn next_item(words: &mut Words<'_>) -> Option<Item>
    ensures { option_map (λ i. (i, words.new)) result ≡ item_at words.old }
{
    let word = words.next()?;
    match event_verb(word) {
        Some(verb) => event_item(word, verb, words),
        None => other_item(word, words),
    }
}

/// What stands before and after the first colon.
fn at_colon(word: &[u8]) -> Option<(&[u8], &[u8])>
    ensures { MatchOption result (after_first is_colon word.now ≡ [])
        (λ cut. (cut.0.now ≡ before_first is_colon word.now)
        × (cut.1.now ≡ after_first is_colon word.now)) }
{
    let colon = word.find_byte(b':')?;
    let (front, rest) = word.split_at(colon);
    let (_, back) = rest.split_at(1);
    Some((front, back))
}

/// The priority up to `most` that a word is.
pub(crate) fn read_prio(most: u8, word: &[u8]) -> Option<Prio>
    requires { most ≤ MAX_PRIO }
    ensures { result ≡ number_from 0 most word.now }
{
    let n = read_between(0, most as u32, word)?;
    Prio::new(n as u8)
}

/// The prioritised event at the front, with a priority up to `most`.
pub fn next_head(most: u8, words: &mut Words<'_>) -> Option<NamedHead>
    requires { most ≤ MAX_PRIO }
    ensures { option_map (λ h. (h, words.new)) result ≡ head_at most words.old }
{
    let word = words.next()?;
    let (prio, verb) = at_colon(word)?;
    let prio = read_prio(most, prio)?;
    let event = event_of(verb, words)?;
    Some(NamedHead { prio, event })
}

/// The delay at the end of a line, 0 where no words are left.
pub fn read_delay(mut words: Words<'_>) -> Option<u32>
    ensures { result ≡ delay_in words.entry }
{
    let Some(after) = words.next() else {
        return Some(0);
    };
    let delay = words.next()?;
    if words.next().is_some() || after != b"after".as_slice() {
        return None;
    }
    read_between(0, LAST_MINUTE, delay)
}

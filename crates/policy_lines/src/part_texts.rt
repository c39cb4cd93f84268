//! Events, conditions, signals, heads and items, written.
ghost use Rattle.std.specs.Prelude.{◌≡◌, ◌∷◌, ◌++◌, [], codes, decimal, flat_map, OnOk};
ghost use Rattle.gt_text.specs.Words.{spaced};
ghost use Rattle.policy_words.specs.Wording.{fluent_names, event_words, cond_words, signal_words, head_words, item_words, delay_words};
ghost use Rattle.policy_words.specs.Sayings.{and_items};
ghost use Rattle.policy_lines.specs.Spaces.{later, led, linked_item};

use crate::verbs::{cond_text, event_text, signal_text};
use gt_base::{Memory, Name};
use gt_text::push_number;
use policy_words::{Item, NamedCond, NamedEvent, NamedFluent, NamedHead, NamedSignal};

/// Adds a word with a space before it.
pub(crate) fn add_word(text: &mut Vec<u8>, word: &[u8]) -> Result<(), Memory>
    ensures { OnOk result (text.new.items ≡ text.old.items ++ later (word.now ∷ [])) }
{
    text.extend_from_slice(b" ")?;
    text.extend_from_slice(word)
}

/// Adds a space and a name.
pub(crate) fn add_name(text: &mut Vec<u8>, name: &Name) -> Result<(), Memory>
    ensures { OnOk result (text.new.items ≡ text.old.items ++ later (name.now ∷ [])) }
{
    add_word(text, name.bytes())
}

/// Adds a space and a number, in decimal.
pub(crate) fn add_number(text: &mut Vec<u8>, n: u32) -> Result<(), Memory>
    ensures { OnOk result (text.new.items ≡ text.old.items ++ later (decimal n ∷ [])) }
{
    text.extend_from_slice(b" ")?;
    push_number(text, u64::from(n))
}

/// Adds two names, each with a space before it.
pub(crate) fn add_pair(text: &mut Vec<u8>, first: &Name, second: &Name) -> Result<(), Memory>
    ensures { OnOk result (text.new.items ≡ text.old.items ++ later (first.now ∷ second.now ∷ [])) }
{
    add_name(text, first)?;
    add_name(text, second)
}

/// Adds the names of a fluent, each with a space before it.
pub(crate) fn add_names(text: &mut Vec<u8>, fluent: &NamedFluent) -> Result<(), Memory>
    ensures { OnOk result (text.new.items ≡ text.old.items ++ later (fluent_names fluent.now)) }
{
    match fluent {
        NamedFluent::Enabled(role) => add_name(text, role),
        NamedFluent::Assigned(user, role) => add_pair(text, user, role),
        NamedFluent::Granted(perm, role) => add_pair(text, perm, role),
        NamedFluent::Limit(limit) => add_name(text, limit),
        NamedFluent::Edge(senior, junior) => add_pair(text, senior, junior),
    }
}

/// Adds an event without a space before it: its verb and its names.
fn write_event(text: &mut Vec<u8>, event: &NamedEvent) -> Result<(), Memory>
    ensures { OnOk result (text.new.items ≡ text.old.items ++ led (event_words event.now)) }
{
    text.extend_from_slice(event_text(event.on, event.fluent.sort()))?;
    add_names(text, &event.fluent)
}

/// Adds a condition without a space before it: its verb and its names.
fn write_cond(text: &mut Vec<u8>, cond: &NamedCond) -> Result<(), Memory>
    ensures { OnOk result (text.new.items ≡ text.old.items ++ led (cond_words cond.now)) }
{
    text.extend_from_slice(cond_text(cond.on, cond.fluent.sort()))?;
    add_names(text, &cond.fluent)
}

/// Adds a signal without a space before it: its verb, its user and its role.
fn write_signal(text: &mut Vec<u8>, signal: &NamedSignal) -> Result<(), Memory>
    ensures { OnOk result (text.new.items ≡ text.old.items ++ led (signal_words signal.now)) }
{
    text.extend_from_slice(signal_text(signal.start))?;
    add_pair(text, &signal.user, &signal.role)
}

/// Adds `PRIO:` and an event, without a space before them.
fn write_head(text: &mut Vec<u8>, head: &NamedHead) -> Result<(), Memory>
    ensures { OnOk result (text.new.items ≡ text.old.items ++ led (head_words head.now)) }
{
    push_number(text, u64::from(head.prio.get()))?;
    text.extend_from_slice(b":")?;
    write_event(text, &head.event)
}

/// Adds `settled` and a condition, without a space before them.
fn write_settled(text: &mut Vec<u8>, cond: &NamedCond) -> Result<(), Memory>
    ensures { OnOk result (text.new.items ≡ text.old.items
        ++ led (codes "settled" ∷ cond_words cond.now)) }
{
    text.extend_from_slice(b"settled")?;
    add_cond(text, cond)
}

/// Adds an item of a body, without a space before it.
fn write_item(text: &mut Vec<u8>, item: &Item) -> Result<(), Memory>
    ensures { OnOk result (text.new.items ≡ text.old.items ++ led (item_words item.now)) }
{
    match item {
        Item::Event(event) => write_event(text, event),
        Item::Signal(signal) => write_signal(text, signal),
        Item::Cond(cond) => write_cond(text, cond),
        Item::Settled(cond) => write_settled(text, cond),
    }
}

/// Adds `after` and a delay, each with a space before it, nothing for 0.
pub fn push_delay(text: &mut Vec<u8>, delay: u32) -> Result<(), Memory>
    ensures { OnOk result (text.new.items ≡ text.old.items ++ later (delay_words delay)) }
{
    if delay == 0 {
        return Ok(());
    }
    add_word(text, b"after")?;
    add_number(text, delay)
}

/// Adds a space and a condition.
pub(crate) fn add_cond(text: &mut Vec<u8>, cond: &NamedCond) -> Result<(), Memory>
    ensures { OnOk result (text.new.items ≡ text.old.items ++ later (cond_words cond.now)) }
{
    text.extend_from_slice(b" ")?;
    write_cond(text, cond)
}

/// Adds a space, a priority with its colon, and an event.
pub(crate) fn add_head(text: &mut Vec<u8>, head: &NamedHead) -> Result<(), Memory>
    ensures { OnOk result (text.new.items ≡ text.old.items ++ later (head_words head.now)) }
{
    text.extend_from_slice(b" ")?;
    write_head(text, head)
}

/// Adds a space and an item of a body.
fn add_item(text: &mut Vec<u8>, item: &Item) -> Result<(), Memory>
    ensures { OnOk result (text.new.items ≡ text.old.items ++ later (item_words item.now)) }
{
    text.extend_from_slice(b" ")?;
    write_item(text, item)
}

/// Adds ` and ` and an item: one behind the first.
fn add_linked(text: &mut Vec<u8>, item: &Item) -> Result<(), Memory>
    ensures { OnOk result (text.new.items ≡ text.old.items ++ linked_item item.now) }
{
    add_word(text, b"and")?;
    add_item(text, item)
}

/// Adds the items behind the first, with ` and ` before each.
fn add_more(text: &mut Vec<u8>, items: &[Item]) -> Result<(), Memory>
    ensures { OnOk result (text.new.items ≡ text.old.items ++ flat_map linked_item items.now) }
{
    for item in items {
        add_linked(text, item)?;
    }
    Ok(())
}

/// Adds items with `and` between them and a space before each word.
pub(crate) fn add_items(text: &mut Vec<u8>, items: &[Item]) -> Result<(), Memory>
    ensures { OnOk result (text.new.items ≡ text.old.items ++ later (and_items items.now)) }
{
    match items {
        [] => Ok(()),
        [first, more @ ..] => {
            add_item(text, first)?;
            add_more(text, more)
        }
    }
}

/// Adds an event, words with one space between them.
pub fn push_event(text: &mut Vec<u8>, event: &NamedEvent) -> Result<(), Memory>
    ensures { OnOk result (text.new.items ≡ text.old.items ++ spaced (event_words event.now)) }
{
    write_event(text, event)
}

/// Adds a condition, words with one space between them.
pub fn push_cond(text: &mut Vec<u8>, cond: &NamedCond) -> Result<(), Memory>
    ensures { OnOk result (text.new.items ≡ text.old.items ++ spaced (cond_words cond.now)) }
{
    write_cond(text, cond)
}

/// Adds a signal, words with one space between them.
pub fn push_signal(text: &mut Vec<u8>, signal: &NamedSignal) -> Result<(), Memory>
    ensures { OnOk result (text.new.items ≡ text.old.items ++ spaced (signal_words signal.now)) }
{
    write_signal(text, signal)
}

/// Adds a prioritised event, words with one space between them.
pub fn push_head(text: &mut Vec<u8>, head: &NamedHead) -> Result<(), Memory>
    ensures { OnOk result (text.new.items ≡ text.old.items ++ spaced (head_words head.now)) }
{
    write_head(text, head)
}

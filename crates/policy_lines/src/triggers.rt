//! Lines of triggers.
ghost use Rattle.std.specs.Prelude.{◌≡◌, option_map, Some, IfOk};
ghost use Rattle.std.specs.List.{list_any};
ghost use Rattle.policy_words.specs.Sayings.{is_cause, is_body, is_bodied};
ghost use Rattle.policy_words.specs.Seen.{seen_said};
ghost use Rattle.policy_words.specs.Reading.{trigger_in, trigger_by};
ghost use Rattle.policy_lines.specs.Answered.{ReadsAs};

use crate::edges::is_allowed;
use crate::items::read_items;
use crate::parts::{next_head, read_delay};
use gt_base::{MAX_ITEMS, MAX_POLICY_PRIO, Memory};
use gt_text::Words;
use policy_words::{Item, Said, TextKind};
use std::alloc::Global;

/// Whether an item brings a trigger about: an event or a signal, not a condition.
fn is_cause(item: &Item) -> bool
    ensures { result ≡ is_cause item.now }
{
    match item {
        Item::Event(_) | Item::Signal(_) => true,
        Item::Cond(_) | Item::Settled(_) => false,
    }
}

/// Whether one of the items is an event or a signal, without which no trigger can fire.
fn has_cause(items: &[Item]) -> bool
    ensures { result ≡ list_any is_cause items.now }
{
    items.iter().any(|item| is_cause(item))
}

/// At most 16 items, of which one is an event or a signal.
fn is_body(items: &[Item]) -> bool
    ensures { result ≡ is_body items.now }
{
    items.len() <= MAX_ITEMS && has_cause(items)
}

/// Whether the body of a trigger is in order; other sayings have none.
fn is_bodied(said: &Said) -> bool
    ensures { result ≡ is_bodied (seen_said said.now) }
{
    match said {
        Said::When { items, .. } => is_body(items.as_slice()),
        _ => true,
    }
}

/// The items, the head and the delay of a trigger.
#[tactic(auto, unfolding(crate::specs::Cursors::items_of))]
fn when(alloc: Global, mut words: Words<'_>) -> Result<Option<Said>, Memory>
    ensures { IfOk result (λ said. option_map seen_said said ≡ trigger_in words.entry) }
{
    let Some(items) = read_items(alloc, &mut words)? else {
        return Ok(None);
    };
    let Some(head) = next_head(MAX_POLICY_PRIO, &mut words) else {
        return Ok(None);
    };
    let Some(delay) = read_delay(words) else {
        return Ok(None);
    };
    Ok(Some(Said::When { items, head, delay }))
}

/// A trigger, or what is wrong with it: first that version 1 has no form for it, then its body.
fn judged(edges: bool, said: Said) -> Result<Said, TextKind>
    ensures { ReadsAs result (trigger_by edges (Some (seen_said said))) }
{
    if !is_allowed(edges, &said) {
        return Err(TextKind::Form);
    }
    if is_bodied(&said) {
        Ok(said)
    } else {
        Err(TextKind::Body)
    }
}

/// What a line of a trigger says.
pub(crate) fn trigger(alloc: Global, edges: bool, words: Words<'_>) -> Result<Said, TextKind>
    ensures { ReadsAs result (trigger_by edges (trigger_in words.entry)) }
{
    match when(alloc, words) {
        Err(_) => Err(TextKind::Memory),
        Ok(None) => Err(TextKind::Form),
        Ok(Some(said)) => judged(edges, said),
    }
}

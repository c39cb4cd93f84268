//! The items of a trigger.
ghost use Rattle.std.specs.Prelude.{◌≡◌, ◌<◌, length, [], ◌∷◌, ◌++◌, option_map, IfOk, OnOk, IfSome};
ghost use Rattle.policy_lines.specs.Cursors.{link_at, items_of};

use crate::parts::next_item;
use gt_base::{List, Memory};
use gt_text::Words;
use policy_words::{Item, NamedCond, NamedEvent, NamedFluent, NamedSignal};
use std::alloc::Global;

/// Whether the word between two items is `then`, which ends them, and not `and`.
fn ends_items(words: &mut Words<'_>) -> Option<bool>
    ensures { option_map (λ l. (l, words.new)) result ≡ link_at words.old }
{
    let word = words.next()?;
    if word == b"and".as_slice() {
        Some(false)
    } else if word == b"then".as_slice() {
        Some(true)
    } else {
        None
    }
}

/// Adds an item at the end; apart, since the kinds of items have to be named for its proof.
fn add(items: &mut List<Item>, item: Item) -> Result<(), Memory>
    ensures { OnOk result (items.new.items ≡ items.old.items ++ item ∷ []) }
{
    // names the types of an item's parts, which the proof of the call below has to know
    let _parts: Option<(NamedEvent, NamedCond, NamedSignal, NamedFluent)> = None;
    items.reserve(1)?;
    items.push(item);
    Ok(())
}

/// The items at the front, with `and` between them, up to `then`.
pub(crate) fn read_items(alloc: Global, words: &mut Words<'_>) -> Result<Option<List<Item>>, Memory>
    ensures { IfOk result (λ items. option_map (λ is. (is.items, words.new)) items
        ≡ items_of words.old) }
{
    let mut items = List::new(alloc);
    while let Some(item) = next_item(words) {
        add(&mut items, item)?;
        match ends_items(words) {
            None => return Ok(None),
            Some(true) => return Ok(Some(items)),
            Some(false) => {}
        }
    }
    Ok(None)
}

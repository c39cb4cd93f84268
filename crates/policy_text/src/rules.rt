//! The lines of the periodic entries and the triggers.
ghost use Rattle.std.specs.Prelude.{◌≡◌, ◌∷◌, ◌++◌, [], map, OnOk, IfOk, IsTrue};
ghost use Rattle.std.specs.List.{list_all};
ghost use Rattle.gtrbac_model.specs.WholePolicy.{is_fluent, is_signal, is_entry, is_rule};
ghost use Rattle.policy_words.specs.Canonical.{items_of};
ghost use Rattle.policy_text.specs.Sections.{line_text, lines_by, event_item, signal_item, cond_item, settled_item, entry_line, trigger_line, ruled_text};

use crate::declarations::push_line;
use gt_base::{Cond, Event, List, Memory, PeriodicEntry, Signal, Trigger};
use policy_book::{Policy, named_cond, named_event, named_head, named_signal};
use policy_words::{Item, NamedCond, NamedEvent, NamedFluent, NamedSignal, Said};
use std::alloc::Global;

/// Adds the line of one periodic entry.
fn push_entry(text: &mut Vec<u8>, p: &Policy, entry: PeriodicEntry) -> Result<(), Memory>
    requires { IsTrue (is_entry p.now.policy entry) }
    ensures { OnOk result (text.new.items ≡ text.old.items
        ++ line_text (entry_line p.now.names entry)) }
{
    p.keeps();
    push_line(
        text,
        &Said::Entry {
            form: entry.form,
            period: p.period_name(entry.period),
            head: named_head(p, entry.head),
        },
    )
}

/// Adds the lines of all periodic entries, in the order of the policy, which numbers them.
fn push_entries(text: &mut Vec<u8>, p: &Policy) -> Result<(), Memory>
    ensures { OnOk result (text.new.items ≡ text.old.items
        ++ lines_by (entry_line p.now.names) p.now.policy.entries) }
{
    p.keeps();
    let entries = p.entries().as_slice();
    for entry in entries {
        push_entry(text, p, *entry)?;
    }
    Ok(())
}

/// Adds an item at the end.
fn add_item(items: &mut Vec<Item>, item: Item) -> Result<(), Memory>
    ensures { OnOk result (items.new.items ≡ items.old.items ++ item ∷ []) }
{
    // names the types of an item's parts, which the proof of the call below has to know
    let _parts: Option<(NamedEvent, NamedCond, NamedSignal, NamedFluent)> = None;
    items.push(item)?;
    Ok(())
}

/// Adds the body events, in their order.
fn add_events(items: &mut Vec<Item>, p: &Policy, events: &[Event]) -> Result<(), Memory>
    requires { IsTrue (list_all (λ e. is_fluent p.now.policy e.fluent) events.now) }
    ensures { OnOk result (items.new.items ≡ items.old.items
        ++ map (event_item p.now.names) events.now) }
{
    for event in events {
        add_item(items, Item::Event(named_event(p, *event)))?;
    }
    Ok(())
}

/// Adds the signals, in their order.
fn add_signals(items: &mut Vec<Item>, p: &Policy, signals: &[Signal]) -> Result<(), Memory>
    requires { IsTrue (list_all (is_signal p.now.policy) signals.now) }
    ensures { OnOk result (items.new.items ≡ items.old.items
        ++ map (signal_item p.now.names) signals.now) }
{
    for signal in signals {
        add_item(items, Item::Signal(named_signal(p, *signal)))?;
    }
    Ok(())
}

/// Adds the conditions on the status before, in their order.
fn add_conds(items: &mut Vec<Item>, p: &Policy, conds: &[Cond]) -> Result<(), Memory>
    requires { IsTrue (list_all (λ c. is_fluent p.now.policy c.fluent) conds.now) }
    ensures { OnOk result (items.new.items ≡ items.old.items
        ++ map (cond_item p.now.names) conds.now) }
{
    for cond in conds {
        add_item(items, Item::Cond(named_cond(p, *cond)))?;
    }
    Ok(())
}

/// Adds the conditions on the status after, each behind `settled`, in their order.
fn add_settled(items: &mut Vec<Item>, p: &Policy, conds: &[Cond]) -> Result<(), Memory>
    requires { IsTrue (list_all (λ c. is_fluent p.now.policy c.fluent) conds.now) }
    ensures { OnOk result (items.new.items ≡ items.old.items
        ++ map (settled_item p.now.names) conds.now) }
{
    for cond in conds {
        add_item(items, Item::Settled(named_cond(p, *cond)))?;
    }
    Ok(())
}

/// Adds the items of a trigger's body.
fn add_items(items: &mut Vec<Item>, p: &Policy, trigger: &Trigger) -> Result<(), Memory>
    requires { IsTrue (is_rule p.now.policy trigger.now) }
    ensures { OnOk result (items.new.items ≡ items.old.items ++ items_of p.now.names trigger.now) }
{
    add_events(items, p, trigger.events.as_slice())?;
    add_signals(items, p, trigger.signals.as_slice())?;
    add_conds(items, p, trigger.conds.as_slice())?;
    add_settled(items, p, trigger.settled.as_slice())
}

/// The items of a trigger's body: its events, its signals, its conditions and its settled
/// conditions.
fn items_of(alloc: Global, p: &Policy, trigger: &Trigger) -> Result<List<Item>, Memory>
    requires { IsTrue (is_rule p.now.policy trigger.now) }
    ensures { IfOk result (λ items. items.items ≡ items_of p.now.names trigger.now) }
{
    let mut items = Vec::new(alloc);
    add_items(&mut items, p, trigger)?;
    Ok(List::from(items))
}

/// Adds the line of one trigger; its items are gathered first, since a saying owns them.
fn push_trigger(text: &mut Vec<u8>, p: &Policy, trigger: &Trigger) -> Result<(), Memory>
    requires { IsTrue (is_rule p.now.policy trigger.now) }
    ensures { OnOk result (text.new.items ≡ text.old.items
        ++ line_text (trigger_line p.now.names trigger.now)) }
{
    let items = items_of(*text.allocator(), p, trigger)?;
    push_line(
        text,
        &Said::When {
            items,
            head: named_head(p, trigger.head),
            delay: trigger.delay,
        },
    )
}

/// Adds the lines of all triggers, in the order of the policy, which numbers them.
fn push_triggers(text: &mut Vec<u8>, p: &Policy) -> Result<(), Memory>
    ensures { OnOk result (text.new.items ≡ text.old.items
        ++ lines_by (trigger_line p.now.names) p.now.policy.triggers) }
{
    p.keeps();
    let triggers = p.triggers().as_slice();
    for trigger in triggers {
        push_trigger(text, p, trigger)?;
    }
    Ok(())
}

/// Adds the periodic entries and the triggers.
pub(crate) fn push_ruled(text: &mut Vec<u8>, p: &Policy) -> Result<(), Memory>
    ensures { OnOk result (text.new.items ≡ text.old.items ++ ruled_text p.now) }
{
    push_entries(text, p)?;
    push_triggers(text, p)
}

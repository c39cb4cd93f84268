//! What single lines say in numbers.
ghost use Rattle.std.specs.Prelude.{◌≡◌, IfOk, IsTrue};
ghost use Rattle.std.specs.List.{filter_map};
ghost use Rattle.policy_words.specs.Sayings.{is_saying};
ghost use Rattle.policy_words.specs.Seen.{seen_said};
ghost use Rattle.policy_words.specs.Naming.{Names};
ghost use Rattle.policy_words.specs.Making.{inherits as does_inherit, activates as does_activate, period_said, during_of, limit_said, edge_said, admin_said, opening_said, entry_said, event_in, signal_in, cond_in, settled_in, rule_said};
ghost use Rattle.policy_book.specs.Seen.{seen_names};
ghost use Rattle.policy_book.specs.Triggers.{trigger_with};

use crate::names::NameTables;
use gt_base::{
    Cond, Event, Fluent, HierEdge, LimitRule, List, Memory, Name, PeriodId, PeriodicEntry,
    Prioritised, Signal, Trigger, UserId,
};
use periodic_expr::Period;
use policy_words::{EdgeKind, Item, Said};
use std::alloc::Global;

/// The period that a line declares.
pub(crate) fn period_in(said: Said) -> Option<Period>
    requires { IsTrue (is_saying (seen_said said)) }
    ensures { (ns : Names) → result ≡ period_said ns (seen_said said) }
{
    match said {
        Said::Period {
            name: _,
            first,
            last,
            expr,
        } => Some(Period { first, last, expr }),
        _ => None,
    }
}

/// The number of a limit's period; the outer None is an unknown name, the inner one no period.
fn during(names: &NameTables, period: &Option<Name>) -> Option<Option<PeriodId>>
    ensures { result ≡ during_of (seen_names names.now) period.now }
{
    match period {
        Some(name) => Some(Some(names.period(name)?)),
        None => Some(None),
    }
}

/// The duration limit that a line declares.
pub(crate) fn limit_in(names: &NameTables, said: &Said) -> Option<LimitRule>
    ensures { result ≡ limit_said (seen_names names.now) (seen_said said.now) }
{
    let Said::Limit {
        prio,
        cond,
        most,
        period,
        ..
    } = said
    else {
        return None;
    };
    let cond = names.cond(cond)?;
    let period = during(names, period)?;
    Some(LimitRule {
        cond,
        prio: *prio,
        most: *most,
        period,
    })
}

/// Whether an edge of this kind lends permissions.
fn inherits(kind: EdgeKind) -> bool
    ensures { result ≡ does_inherit kind }
{
    match kind {
        EdgeKind::I | EdgeKind::Ia => true,
        EdgeKind::A => false,
    }
}

/// Whether an edge of this kind allows activation.
fn activates(kind: EdgeKind) -> bool
    ensures { result ≡ does_activate kind }
{
    match kind {
        EdgeKind::A | EdgeKind::Ia => true,
        EdgeKind::I => false,
    }
}

/// The edge that a line gives.
pub(crate) fn edge_in(names: &NameTables, said: &Said) -> Option<HierEdge>
    ensures { result ≡ edge_said (seen_names names.now) (seen_said said.now) }
{
    let Said::Edge {
        kind,
        strong,
        senior,
        junior,
    } = said
    else {
        return None;
    };
    let senior = names.role(senior)?;
    let junior = names.role(junior)?;
    Some(HierEdge {
        senior,
        junior,
        inherits: inherits(*kind),
        activates: activates(*kind),
        strong: *strong,
    })
}

/// The administrator that a line names.
pub(crate) fn admin_in(names: &NameTables, said: &Said) -> Option<UserId>
    ensures { result ≡ admin_said (seen_names names.now) (seen_said said.now) }
{
    match said {
        Said::Admin(user) => names.user(user),
        _ => None,
    }
}

/// What a line turns on at first.
pub(crate) fn opening_in(names: &NameTables, said: &Said) -> Option<Fluent>
    ensures { result ≡ opening_said (seen_names names.now) (seen_said said.now) }
{
    match said {
        Said::Opening(fluent) => names.fluent(fluent),
        _ => None,
    }
}

/// The periodic entry that a line gives.
pub(crate) fn entry_in(names: &NameTables, said: &Said) -> Option<PeriodicEntry>
    ensures { result ≡ entry_said (seen_names names.now) (seen_said said.now) }
{
    let Said::Entry { form, period, head } = said else {
        return None;
    };
    let period = names.period(period)?;
    let head = names.head(head)?;
    Some(PeriodicEntry {
        form: *form,
        period,
        head,
    })
}

/// The event that an item is; None where it is of another kind, or a name is unknown.
fn event_in(names: &NameTables, item: &Item) -> Option<Event>
    ensures { result ≡ event_in (seen_names names.now) item.now }
{
    match item {
        Item::Event(event) => names.event(event),
        Item::Signal(_) | Item::Cond(_) | Item::Settled(_) => None,
    }
}

/// The signal that an item is; None where it is of another kind, or a name is unknown.
fn signal_in(names: &NameTables, item: &Item) -> Option<Signal>
    ensures { result ≡ signal_in (seen_names names.now) item.now }
{
    match item {
        Item::Signal(signal) => names.signal(signal),
        Item::Event(_) | Item::Cond(_) | Item::Settled(_) => None,
    }
}

/// The plain condition that an item is; None where it is of another kind, or a name is unknown.
fn cond_in(names: &NameTables, item: &Item) -> Option<Cond>
    ensures { result ≡ cond_in (seen_names names.now) item.now }
{
    match item {
        Item::Cond(cond) => names.cond(cond),
        Item::Event(_) | Item::Signal(_) | Item::Settled(_) => None,
    }
}

/// The settled condition that an item is; None where it is of another kind, or a name is unknown.
fn settled_in(names: &NameTables, item: &Item) -> Option<Cond>
    ensures { result ≡ settled_in (seen_names names.now) item.now }
{
    match item {
        Item::Settled(cond) => names.cond(cond),
        Item::Event(_) | Item::Signal(_) | Item::Cond(_) => None,
    }
}

/// The events of a body, in the order of the line.
fn events_in(alloc: Global, names: &NameTables, items: &[Item]) -> Result<Vec<Event>, Memory>
    ensures { IfOk result (λ events. events.items ≡ filter_map
        (event_in (seen_names names.now)) items.now) }
{
    let mut events = Vec::new(alloc);
    for item in items {
        if let Some(event) = event_in(names, item) {
            events.push(event)?;
        }
    }
    Ok(events)
}

/// The signals of a body, in the order of the line.
fn signals_in(alloc: Global, names: &NameTables, items: &[Item]) -> Result<Vec<Signal>, Memory>
    ensures { IfOk result (λ signals. signals.items
        ≡ filter_map (signal_in (seen_names names.now)) items.now) }
{
    let mut signals = Vec::new(alloc);
    for item in items {
        if let Some(signal) = signal_in(names, item) {
            signals.push(signal)?;
        }
    }
    Ok(signals)
}

/// The conditions of a body, in the order of the line.
fn conds_in(alloc: Global, names: &NameTables, items: &[Item]) -> Result<Vec<Cond>, Memory>
    ensures { IfOk result (λ conds. conds.items ≡ filter_map
        (cond_in (seen_names names.now)) items.now) }
{
    let mut conds = Vec::new(alloc);
    for item in items {
        if let Some(cond) = cond_in(names, item) {
            conds.push(cond)?;
        }
    }
    Ok(conds)
}

/// The settled conditions of a body, in the order of the line.
fn settled_conds_in(alloc: Global, names: &NameTables, items: &[Item]) -> Result<Vec<Cond>, Memory>
    ensures { IfOk result (λ conds. conds.items ≡ filter_map
        (settled_in (seen_names names.now)) items.now) }
{
    let mut conds = Vec::new(alloc);
    for item in items {
        if let Some(cond) = settled_in(names, item) {
            conds.push(cond)?;
        }
    }
    Ok(conds)
}

/// The trigger of a body, a head and a delay.
fn trigger_of(
    alloc: Global,
    names: &NameTables,
    items: &[Item],
    head: Prioritised,
    delay: u32,
) -> Result<Trigger, Memory>
    ensures { IfOk result (λ trigger. trigger ≡ trigger_with
        (seen_names names.now) items.now head delay) }
{
    let events = events_in(alloc, names, items)?;
    let signals = signals_in(alloc, names, items)?;
    let conds = conds_in(alloc, names, items)?;
    let settled = settled_conds_in(alloc, names, items)?;
    Ok(Trigger {
        events: List::from(events),
        signals: List::from(signals),
        conds: List::from(conds),
        settled: List::from(settled),
        head,
        delay,
    })
}

/// The trigger that a line gives.
pub(crate) fn trigger_in(
    alloc: Global,
    names: &NameTables,
    said: &Said,
) -> Result<Option<Trigger>, Memory>
    ensures { IfOk result (λ trigger. trigger ≡ rule_said (seen_names names.now)
        (seen_said said.now)) }
{
    let Said::When { items, head, delay } = said else {
        return Ok(None);
    };
    let Some(head) = names.head(head) else {
        return Ok(None);
    };
    Ok(Some(trigger_of(alloc, names, items.as_slice(), head, *delay)?))
}

//! Who leads each fluent among the events of a set. The leaders are its winners.
ghost use Rattle.std.specs.Prelude.{◌≡◌, cond, map, Option, Some, IfOk, OnOk, OnErr};
ghost use Rattle.gt_base.specs.declared.events.Event.{Event};
ghost use Rattle.gt_base.specs.declared.events.Fluent.{Fluent};
ghost use Rattle.gt_base.specs.Orders.{fluent_eq};
ghost use Rattle.gt_base.specs.Sets.{has};
ghost use Rattle.gtrbac_model.specs.Conflict.{won};
ghost use Rattle.gtrbac_model.specs.Same.{lists, same_event, same_prioritised};
ghost use Rattle.indexmap.specs.IndexMap.{get, values, IsUnique, IsUnchanged};
ghost use Rattle.priority_conflict.specs.Winning.{IsLeader, leader_after};

use crate::conflicts::beats;
use gt_base::{Event, EventSet, Fluent, Happened, Memory, Prioritised};
use indexmap::IndexMap;
use std::alloc::Global;

/// The events that stand in the set at some priority at which they are not blocked.
pub fn winners(alloc: Global, x: &Happened) -> Result<EventSet, Memory>
    ensures { IfOk result (λ w. (e : Event) → has w.set e ≡ won x.now.set e) }
{
    let leaders = leaders(alloc, x.events())?;
    let mut events = events_of(alloc, &leaders)?;
    events.sort_unstable();
    set_of(alloc, &events)
}

/// The leader of each fluent that the events set.
pub(crate) fn leaders(
    alloc: Global,
    events: &[Prioritised],
) -> Result<IndexMap<Fluent, Prioritised>, Memory>
    ensures { IfOk result (λ m. (f : Fluent) → IsLeader (lists same_prioritised events.now) f
        (get fluent_eq m f)) }
{
    let mut leaders = IndexMap::new(alloc);
    for p in events {
        note(&mut leaders, p)?;
    }
    Ok(leaders)
}

/// Takes one more event into account. After a refusal the leaders are as they were.
pub(crate) fn note(
    leaders: &mut IndexMap<Fluent, Prioritised>,
    p: &Prioritised,
) -> Result<(), Memory>
    ensures ok { OnOk result ((f : Fluent) → get fluent_eq leaders.new f
        ≡ cond (fluent_eq p.now.event.fluent f)
        (Some (leader_after (get fluent_eq leaders.old p.now.event.fluent) p.now))
        (get fluent_eq leaders.old f)) }
    ensures err { OnErr result (IsUnchanged leaders.old leaders.new) }
{
    let leader = leading(leaders.get(&p.event.fluent).copied(), *p);
    leaders.insert(p.event.fluent, leader)?;
    Ok(())
}

/// Of the leader of a fluent and one more event of it the one that leads then.
fn leading(leader: Option<Prioritised>, p: Prioritised) -> Prioritised
    ensures { result ≡ leader_after leader p }
{
    match leader {
        Some(q) => stronger(q, p),
        None => p,
    }
}

/// The second, unless the first stands against it.
fn stronger(q: Prioritised, p: Prioritised) -> Prioritised
    ensures { result ≡ leader_after (Some q) p }
{
    if beats(q.event.on, p.prio.get(), q.prio.get()) {
        p
    } else {
        q
    }
}

/// The events that lead, in the order of the map.
fn events_of(alloc: Global, leaders: &IndexMap<Fluent, Prioritised>) -> Result<Vec<Event>, Memory>
    ensures events { IfOk result (λ v. v.items ≡ map (λ p. p.event) (values leaders.now)) }
    ensures unique { IsUnique fluent_eq leaders.now }
{
    // the call tells that each fluent stands once
    let _many = leaders.len();
    leaders.values().map(|p| p.event).collect(alloc)
}

/// The set of the events. It takes least time where they are ascending.
fn set_of(alloc: Global, events: &[Event]) -> Result<EventSet, Memory>
    ensures { IfOk result (λ w. (e : Event) → has w.set e ≡ lists same_event events.now e) }
{
    let mut set = EventSet::new(alloc);
    set.reserve(events.len())?;
    for e in events {
        set.add(*e);
    }
    Ok(set)
}

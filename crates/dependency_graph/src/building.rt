//! The graph made from triggers.
ghost use Rattle.std.specs.Prelude.{◌≡◌, ℕ, ◌+◌, ◌*◌, ◌≤◌, ◌<◌, ◌++◌, length, true, false, Some, IfOk, OnOk, MatchOption};
ghost use Rattle.gt_base.specs.declared.limits.TheConstants.{MAX_ITEMS};
ghost use Rattle.gtrbac_model.specs.Graph.{item_at};
ghost use Rattle.gtrbac_model.specs.Same.{lists, same_event};
ghost use Rattle.gtrbac_model.specs.Trigger.{immediate};
ghost use Rattle.gtrbac_model.specs.Safety.{of_body, of_settled, of_trigger, dependencies};
ghost use Rattle.least_walk.specs.Net.{IsNet};
ghost use Rattle.dependency_graph.specs.Nets.{IsGraphOf, IsWithinLimits, read_off, event_at};
ghost use Rattle.dependency_graph.specs.Making.{AreApart, AreNodes, Adds, edge_in};

use crate::event_graphs::EventGraph;
use gt_base::{Cond, Event, List, Trigger};
use indexmap::IndexSet;
use least_walk::{Graph, GraphEdge};
use std::alloc::{AllocError, Global};

/// The dependency graph: its nodes are the events that head an immediate trigger. Each body event
/// of an immediate trigger gives a plain edge from it to the head, and a conflict edge from its
/// converse to the head, and each settled condition conflict edges to the head from the events that
/// turn its fluent on and off, where they begin at a node. Edges are numbered by trigger, then by
/// place, body events before settled conditions, plain before conflict, and on before off.
pub fn graph(alloc: Global, triggers: &List<Trigger>) -> Result<EventGraph, AllocError>
    requires { IsWithinLimits triggers.now.items }
    ensures { IfOk result (IsGraphOf triggers.now.items) }
{
    let triggers = triggers.as_slice();
    let events = heads(alloc, triggers)?;
    let (graph, places) = edges_among(alloc, triggers, &events)?;
    Ok(EventGraph {
        events,
        graph,
        places,
    })
}

/// The edges among these events, with their triggers and places.
fn edges_among(
    alloc: Global,
    triggers: &[Trigger],
    events: &IndexSet<Event>,
) -> Result<(Graph, Vec<(u32, u32)>), AllocError>
    requires limits { IsWithinLimits triggers.now }
    requires few { length events.now.keys ≤ length triggers.now }
    requires nodes { AreNodes triggers.now events.now.keys }
    ensures net { IfOk result (λ made. IsNet made.0) }
    ensures nodes { IfOk result (λ made. made.0.nodes ≡ length events.now.keys) }
    ensures sizes { IfOk result (λ made. length made.1.items ≡ length made.0.edges) }
    ensures edges { IfOk result (λ made. read_off events.now.keys made.0.edges made.1.items
        ≡ dependencies triggers.now) }
{
    let mut graph = Graph::new(alloc, events.len() as u32);
    let mut places = Vec::new(alloc);
    for (t, trigger) in triggers.iter().enumerate() {
        add_trigger(trigger, t as u32, events, &mut graph, &mut places)?;
    }
    graph.keeps();
    Ok((graph, places))
}

/// The events that head an immediate trigger, each once.
fn heads(alloc: Global, triggers: &[Trigger]) -> Result<IndexSet<Event>, AllocError>
    ensures nodes { IfOk result (λ events. AreNodes triggers.now events.keys) }
    ensures apart { IfOk result (λ events. AreApart events.keys) }
    ensures few { IfOk result (λ events. length events.keys ≤ length triggers.now) }
{
    let mut events = IndexSet::new(alloc);
    for trigger in triggers {
        if trigger.delay == 0 {
            events.insert(trigger.head.event)?;
        }
    }
    Ok(events)
}

/// The place of an event, none where it is absent.
pub(crate) fn find(events: &IndexSet<Event>, e: Event) -> Option<u32>
    requires { length events.now.keys ≤ u32.MAX }
    ensures { MatchOption result (lists same_event events.now.keys e ≡ false)
        (λ n. item_at events.now.keys n ≡ Some e) }
{
    match events.get_index_of(&e) {
        Some(place) => Some(place as u32),
        None => None,
    }
}

/// Adds the edges of a trigger, which has none unless it is immediate.
fn add_trigger(
    trigger: &Trigger,
    t: u32,
    events: &IndexSet<Event>,
    graph: &mut Graph,
    places: &mut Vec<(u32, u32)>,
) -> Result<(), AllocError>
    requires nodes { graph.old.nodes ≡ length events.now.keys }
    requires few { length events.now.keys ≤ u32.MAX }
    requires head { immediate trigger.now ≡ true
        → lists same_event events.now.keys trigger.now.head.event ≡ true }
    requires sizes { length places.old.items ≡ length graph.old.edges }
    requires short { length trigger.now.events + length trigger.now.settled ≤ MAX_ITEMS }
    requires room { length graph.old.edges + 2 * MAX_ITEMS ≤ u32.MAX }
    ensures nodes { OnOk result (graph.new.nodes ≡ graph.old.nodes) }
    ensures sizes { OnOk result (length places.new.items ≡ length graph.new.edges) }
    ensures room { OnOk result (length graph.new.edges ≤ length graph.old.edges + 2 * MAX_ITEMS) }
    ensures edges { OnOk result (Adds events.now.keys
        (read_off events.now.keys graph.old.edges places.old.items)
        (read_off events.now.keys graph.new.edges places.new.items)
        (λ triggers. of_trigger triggers t trigger.now)) }
{
    if trigger.delay != 0 {
        return Ok(());
    }
    let Some(head) = find(events, trigger.head.event) else {
        return Ok(());
    };
    add_body(trigger.events.as_slice(), t, head, events, graph, places)?;
    let first = trigger.events.len() as u32;
    add_settled(
        trigger.settled.as_slice(),
        t,
        first,
        head,
        events,
        graph,
        places,
    )
}

/// Adds the edges from the events of a body, and from their converses, to the head.
fn add_body(
    body: &[Event],
    t: u32,
    head: u32,
    events: &IndexSet<Event>,
    graph: &mut Graph,
    places: &mut Vec<(u32, u32)>,
) -> Result<(), AllocError>
    requires nodes { graph.old.nodes ≡ length events.now.keys }
    requires few { length events.now.keys ≤ u32.MAX }
    requires end { head < length events.now.keys }
    requires sizes { length places.old.items ≡ length graph.old.edges }
    requires short { length body.now ≤ MAX_ITEMS }
    requires room { length graph.old.edges + 2 * length body.now ≤ u32.MAX }
    ensures nodes { OnOk result (graph.new.nodes ≡ graph.old.nodes) }
    ensures sizes { OnOk result (length places.new.items ≡ length graph.new.edges) }
    ensures room { OnOk result (length graph.new.edges ≤ length graph.old.edges + 2
        * length body.now) }
    ensures edges { OnOk result (Adds events.now.keys
        (read_off events.now.keys graph.old.edges places.old.items)
        (read_off events.now.keys graph.new.edges places.new.items)
        (λ triggers. of_body triggers (event_at events.now.keys head) t 0 body.now)) }
{
    for p in 0..body.len() {
        let place = (t, p as u32);
        add_edge(body[p], head, false, place, events, graph, places)?;
        add_edge(body[p].converse(), head, true, place, events, graph, places)?;
    }
    Ok(())
}

/// Adds the edges to the head from both events of the fluents of settled conditions, which stand
/// from this place on.
fn add_settled(
    conds: &[Cond],
    t: u32,
    first: u32,
    head: u32,
    events: &IndexSet<Event>,
    graph: &mut Graph,
    places: &mut Vec<(u32, u32)>,
) -> Result<(), AllocError>
    requires nodes { graph.old.nodes ≡ length events.now.keys }
    requires few { length events.now.keys ≤ u32.MAX }
    requires end { head < length events.now.keys }
    requires sizes { length places.old.items ≡ length graph.old.edges }
    requires short { first + length conds.now ≤ MAX_ITEMS }
    requires room { length graph.old.edges + 2 * length conds.now ≤ u32.MAX }
    ensures nodes { OnOk result (graph.new.nodes ≡ graph.old.nodes) }
    ensures sizes { OnOk result (length places.new.items ≡ length graph.new.edges) }
    ensures room { OnOk result (length graph.new.edges ≤ length graph.old.edges + 2
        * length conds.now) }
    ensures edges { OnOk result (Adds events.now.keys
        (read_off events.now.keys graph.old.edges places.old.items)
        (read_off events.now.keys graph.new.edges places.new.items)
        (λ triggers. of_settled triggers (event_at events.now.keys head) t first conds.now)) }
{
    let mut p = first;
    for cond in conds {
        let on = Event {
            on: true,
            fluent: cond.fluent,
        };
        add_edge(on, head, true, (t, p), events, graph, places)?;
        add_edge(on.converse(), head, true, (t, p), events, graph, places)?;
        p += 1;
    }
    Ok(())
}

/// Adds an edge from the event to the node, where the event is a node.
fn add_edge(
    source: Event,
    to: u32,
    marked: bool,
    place: (u32, u32),
    events: &IndexSet<Event>,
    graph: &mut Graph,
    places: &mut Vec<(u32, u32)>,
) -> Result<(), AllocError>
    requires nodes { graph.old.nodes ≡ length events.now.keys }
    requires few { length events.now.keys ≤ u32.MAX }
    requires end { to < length events.now.keys }
    requires sizes { length places.old.items ≡ length graph.old.edges }
    requires room { length graph.old.edges < u32.MAX }
    ensures nodes { OnOk result (graph.new.nodes ≡ graph.old.nodes) }
    ensures sizes { OnOk result (length places.new.items ≡ length graph.new.edges) }
    ensures room { OnOk result (length graph.new.edges ≤ length graph.old.edges + 1) }
    ensures edges { OnOk result (read_off events.now.keys graph.new.edges places.new.items
        ≡ read_off events.now.keys graph.old.edges places.old.items
        ++ edge_in events.now.keys (record {
          source = source;
          target = event_at events.now.keys to;
          conflict = marked;
          trigger = place.0;
          place = place.1;
        })) }
{
    let Some(from) = find(events, source) else {
        return Ok(());
    };
    graph.add(GraphEdge { from, to, marked })?;
    places.push(place)?;
    Ok(())
}

//! Level by level, the triggers that wait to be looked at.
ghost use Rattle.std.specs.Prelude.{◌≡◌, ◌+◌, ◌<◌, ◌≤◌, ◌++◌, ◌⊎◌, true, false, flat_map, length, cond, IfOk, OnOk};
ghost use Rattle.gt_base.specs.Happening.{HappenedView};
ghost use Rattle.gt_base.specs.Sets.{has};
ghost use Rattle.gtrbac_model.specs.Graph.{item_at};
ghost use Rattle.gtrbac_model.specs.Instant.{Settled};
ghost use Rattle.dependency_graph.specs.Carried.{level_in};
ghost use Rattle.dependency_graph.specs.Levelled.{IsLevelled};
ghost use Rattle.trigger_rules.specs.Indexed.{numbers, with_event, with_signal};
ghost use Rattle.instant_engine.specs.TriggerLevels.{AreLevels};
ghost use Rattle.instant_engine.specs.OnTheWay.{KeepsSet, head_at, is_due, head_joined, prompted, waiting_with};
ghost use Rattle.instant_engine.specs.Counted.{size, woken, first_looks, most_looks};

use crate::levels::{TriggerLevels, is_due};
use dependency_graph::EventGraph;
use gt_base::{Happened, Looks, Memory, Prioritised, Signal, Status};
use priority_conflict::Contest;
use safety_cycle::Strata;
use std::alloc::Global;
use std::marker::Brand;
use std::sync::ledger::{Blank, Ledger};
use trigger_rules::{Rules, met_in};

/// The rules with their graph and its levels, and the triggers of each level.
#[derive(Clone, Copy)]
pub struct Stratified<'a> {
    rules: &'a Rules,
    graph: &'a EventGraph,
    strata: &'a Strata,
    levels: &'a TriggerLevels,
    ghost levelled: { IsLevelled rules.now graph.now strata.now },
    ghost due: { AreLevels rules.now graph.now strata.now levels.now },
}

impl<'a> Stratified<'a> {
    /// The graph and the levels are those of the rules.
    pub fn new(
        rules: &'a Rules,
        graph: &'a EventGraph,
        strata: &'a Strata,
        levels: &'a TriggerLevels,
    ) -> Stratified<'a>
        requires levelled { IsLevelled rules.now graph.now strata.now }
        requires levels { AreLevels rules.now graph.now strata.now levels.now }
        ensures rules { result.rules.now ≡ rules.now }
        ensures levels { result.levels.now ≡ levels.now }
    {
        Stratified {
            rules,
            graph,
            strata,
            levels,
        }
    }
}

/// The one closed and grounded set of the rules over this base, under the status before the
/// instant. The graph and the levels are those of the rules.
pub fn settle(
    alloc: Global,
    r: &Rules,
    g: &EventGraph,
    s: &Strata,
    base: &Happened,
    before: &Status,
) -> Result<Happened, Memory>
    requires { IsLevelled r.now g.now s.now }
    ensures settled { IfOk result (λ x. Settled r.now base.now.set (has before.now.set) x.set) }
    ensures only { IfOk result (λ x. (y : HappenedView)
        → Settled r.now base.now.set (has before.now.set) y → y ≡ x.set) }
{
    let levels = TriggerLevels::new(alloc, r, g, s)?;
    let x = settled_contest(alloc, r, g, s, &levels, base, before)?;
    Ok(x.into_set())
}

/// The same set as a contest, where the triggers of each level were found before.
pub fn settled_contest(
    alloc: Global,
    r: &Rules,
    g: &EventGraph,
    s: &Strata,
    levels: &TriggerLevels,
    base: &Happened,
    before: &Status,
) -> Result<Contest, Memory>
    requires levelled { IsLevelled r.now g.now s.now }
    requires levels { AreLevels r.now g.now s.now levels.now }
    ensures settled { IfOk result (λ x. Settled r.now base.now.set (has before.now.set) x) }
    ensures only { IfOk result (λ x. (y : HappenedView)
        → Settled r.now base.now.set (has before.now.set) y → y ≡ x) }
{
    let by = Stratified::new(r, g, s, levels);
    settled_over::<Brand>(alloc, &by, base, before, Blank::new(1))
}

/// The same set, where nobody asks how often triggers are looked at.
fn settled_over<L: Ledger>(
    alloc: Global,
    by: &Stratified,
    base: &Happened,
    before: &Status,
    blank: Blank,
) -> Result<Contest, Memory>
    requires name { blank.name ≡ L.name }
    requires parts { blank.parts ≡ L.parts }
    requires some { 0 < blank.parts }
    ensures settled { IfOk result
        (λ x. Settled by.now.rules.now base.now.set (has before.now.set) x) }
    ensures only { IfOk result (λ x. (y : HappenedView)
        → Settled by.now.rules.now base.now.set (has before.now.set) y → y ≡ x) }
{
    let mut looks: Looks<L> = Looks::new(blank);
    settled_in_looks(alloc, by, base, before, &mut looks)
}

/// The same set, and how often triggers are looked at on the way to it: at most as often as its
/// events and signals are many and wake triggers, over all levels, where each trigger has an event
/// or a signal in its body; else each trigger once, and again for each event that wakes it.
pub fn settled_in_looks<L: Ledger>(
    alloc: Global,
    by: &Stratified,
    base: &Happened,
    before: &Status,
    looks: &mut Looks<L>,
) -> Result<Contest, Memory>
    ensures settled { IfOk result
        (λ x. Settled by.now.rules.now base.now.set (has before.now.set) x) }
    ensures only { IfOk result (λ x. (y : HappenedView)
        → Settled by.now.rules.now base.now.set (has before.now.set) y → y ≡ x) }
    ensures cost { IfOk result (λ x. looks.new ≤ looks.old
        + most_looks by.now.levels.now.caused by.now.levels.now.count by.now.rules.now x) }
{
    let mut x = Contest::new(alloc, base)?;
    for n in 0..by.levels.count() {
        settle_level(alloc, by, n, &mut x, before, looks)?;
    }
    Ok(x)
}

/// Adds the heads of the triggers of a level that are met, until none is left to add. A trigger is
/// looked at first, and again after each event of its body that joins.
fn settle_level<L: Ledger>(
    alloc: Global,
    by: &Stratified,
    n: u64,
    x: &mut Contest,
    before: &Status,
    looks: &mut Looks<L>,
) -> Result<(), Memory>
    ensures keeps { OnOk result (KeepsSet by.now.rules.now (has before.now.set)
        (level_in by.now.graph.now.events by.now.strata.now) n x.old (n + 1) x.new) }
    ensures grows { OnOk result ((size x.old ≤ size x.new)
        × (woken by.now.rules.now x.old ≤ woken by.now.rules.now x.new)) }
    ensures cost { OnOk result (looks.new + woken by.now.rules.now x.old ≤ looks.old
        + first_looks by.now.levels.now.caused
        (length (numbers
        (is_due (level_in by.now.graph.now.events by.now.strata.now) n) 0 by.now.rules.now))
        by.now.rules.now x.old
        + woken by.now.rules.now x.new) }
{
    let due = by.levels.of(n);
    let mut pending = first_waiting(alloc, by.rules, by.levels.caused(), due, x)?;
    while let Some(t) = pending.pop() {
        let head = head_if_firing(by, t, n, x, before, looks);
        join(by.rules, x, &mut pending, head)?;
    }
    Ok(())
}

/// The triggers to look at first: those that have an event or a signal of the set in their bodies,
/// where each trigger has one or the other and these are fewer than those of the level.
fn first_waiting(
    alloc: Global,
    r: &Rules,
    caused: bool,
    due: &[u32],
    x: &Contest,
) -> Result<Vec<u32>, Memory>
    ensures items { IfOk result (λ ts. (ts.items ≡ due.now)
        ⊎ ((caused ≡ true) × (ts.items ≡ prompted r.now x.now))) }
    ensures few { IfOk result
        (λ ts. length ts.items ≤ first_looks caused (length due.now) r.now x.now) }
{
    if caused {
        if are_fewer(x.set(), due.len()) {
            let prompted = prompted_by(alloc, r, x.set())?;
            return Ok(prompted);
        }
    }
    Vec::from_slice(alloc, due)
}

/// Whether the set has fewer events and signals than this.
fn are_fewer(x: &Happened, count: usize) -> bool
    ensures { result ≡ false → count ≤ size x.now.set }
{
    x.len() < count && x.signal_len() < count - x.len()
}

/// The triggers that have an event or a signal of the set in their bodies.
fn prompted_by(alloc: Global, r: &Rules, x: &Happened) -> Result<Vec<u32>, Memory>
    ensures { IfOk result (λ ts. ts.items ≡ prompted r.now x.now.set) }
{
    let mut waiting = Vec::new(alloc);
    add_by_events(&mut waiting, r, x.events())?;
    add_by_signals(&mut waiting, r, x.signals())?;
    Ok(waiting)
}

/// Adds the triggers that have one of the events in their bodies.
fn add_by_events(waiting: &mut Vec<u32>, r: &Rules, events: &[Prioritised]) -> Result<(), Memory>
    ensures { OnOk result (waiting.new.items ≡ waiting.old.items
        ++ flat_map (λ o. with_event r.now o.event) events.now) }
{
    for o in events {
        waiting.extend_from_slice(r.by_event(o.event))?;
    }
    Ok(())
}

/// Adds the triggers that have one of the signals in their bodies.
fn add_by_signals(waiting: &mut Vec<u32>, r: &Rules, signals: &[Signal]) -> Result<(), Memory>
    ensures { OnOk result (waiting.new.items ≡ waiting.old.items
        ++ flat_map (with_signal r.now) signals.now) }
{
    for s in signals {
        waiting.extend_from_slice(r.by_signal(*s))?;
    }
    Ok(())
}

/// The head of the trigger of this number, if it is of this level, is met, and its head is not
/// there.
fn head_if_firing<L: Ledger>(
    by: &Stratified,
    t: u32,
    n: u64,
    x: &Contest,
    before: &Status,
    looks: &mut Looks<L>,
) -> Option<Prioritised>
    ensures head { result ≡ head_at (has before.now.set)
        (level_in by.now.graph.now.events by.now.strata.now) n x.now (item_at by.now.rules.now t) }
    ensures looks { looks.new ≡ looks.old + 1 }
{
    looks.look();
    let trigger = by.rules.triggers().get(t as usize)?;
    if !met_in(trigger, x, before) {
        return None;
    }
    if x.set().has(trigger.head) {
        return None;
    }
    if is_due(trigger, by.graph, by.strata, n) {
        return Some(trigger.head);
    }
    None
}

/// Adds the head, if there is one, and lets the triggers wait that have it in their bodies.
fn join(
    r: &Rules,
    x: &mut Contest,
    pending: &mut Vec<u32>,
    head: Option<Prioritised>,
) -> Result<(), Memory>
    ensures set { OnOk result (x.new ≡ head_joined x.old head) }
    ensures pending { OnOk result (pending.new.items ≡ waiting_with r.now pending.old.items head) }
{
    if let Some(head) = head {
        let event = head.event;
        x.add(head)?;
        pending.extend_from_slice(r.by_event(event))?;
    }
    Ok(())
}

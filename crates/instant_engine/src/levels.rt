//! Levels of events, by the nodes that stand for them, and the triggers of each level.
ghost use Rattle.std.specs.Prelude.{◌≡◌, ℕ, ◌<◌, ◌++◌, [], ◌∷◌, cond, true, nat_eq, length, slice_index, Some, None, IfOk, OnOk};
ghost use Rattle.std.specs.List.{list_all};
ghost use Rattle.gtrbac_model.specs.History.{is_some_item};
ghost use Rattle.gtrbac_model.specs.WholePolicy.{has_cause};
ghost use Rattle.gtrbac_model.specs.Same.{lists, same_event};
ghost use Rattle.gtrbac_model.specs.Trigger.{immediate};
ghost use Rattle.indexmap.specs.IndexMap.{get};
ghost use Rattle.dependency_graph.specs.Nets.{IsEventNet};
ghost use Rattle.dependency_graph.specs.Carried.{level_in};
ghost use Rattle.trigger_rules.specs.Indexed.{numbers, under};
ghost use Rattle.instant_engine.specs.TriggerLevels.{AreLevels};
ghost use Rattle.dependency_graph.specs.Levelled.{IsLevelled};
ghost use Rattle.instant_engine.specs.OnTheWay.{is_due, is_level};

use dependency_graph::EventGraph;
use gt_base::{Event, Memory, Trigger};
use indexmap::IndexMap;
use safety_cycle::Strata;
use std::alloc::Global;
use trigger_rules::Rules;

/// The numbers of the triggers by the levels of their heads, found once for all instants.
pub struct TriggerLevels {
    index: IndexMap<u64, Vec<u32>>,
    count: u64,
    caused: bool,
}

impl Drop for TriggerLevels {
    fn drop(self) {
        let TriggerLevels {
            index: _,
            count: _,
            caused: _,
        } = self;
    }
}

impl TriggerLevels {
    /// Those of the rules, whose graph and levels these are. For want of memory it may refuse.
    pub fn new(
        alloc: Global,
        r: &Rules,
        g: &EventGraph,
        s: &Strata,
    ) -> Result<TriggerLevels, Memory>
        requires { IsLevelled r.now g.now s.now }
        ensures { IfOk result (AreLevels r.now g.now s.now) }
    {
        Ok(TriggerLevels {
            index: by_level(alloc, r, g, s)?,
            count: count(g, s),
            caused: are_caused(r.triggers().as_slice()),
        })
    }

    /// A number above each level.
    pub(crate) fn count(&self) -> u64
        ensures { result ≡ self.now.count }
    {
        self.count
    }

    /// Whether each trigger has an event or a signal in its body.
    pub(crate) fn caused(&self) -> bool
        ensures { result ≡ self.now.caused }
    {
        self.caused
    }

    /// The triggers of a level.
    pub(crate) fn of(&self, n: u64) -> &[u32]
        ensures { result.now ≡ under (get nat_eq self.now.index n) (λ v. v.items) }
    {
        of_level(&self.index, n)
    }
}

/// Whether each trigger has a cause: an event or a signal.
fn are_caused(triggers: &[Trigger]) -> bool
    ensures { result ≡ list_all has_cause triggers.now }
{
    triggers.iter().all(is_caused)
}

/// Whether a trigger has a cause: an event or a signal.
fn is_caused(trigger: &Trigger) -> bool
    ensures { result ≡ has_cause trigger.now }
{
    has_item(trigger.events.as_slice()) || has_item(trigger.signals.as_slice())
}

/// Whether there is an item; its kind plays no part.
fn has_item<T>(items: &[T]) -> bool
    ensures { result ≡ is_some_item items.now }
{
    !items.is_empty()
}

/// The numbers of the triggers, by the levels of their heads; a delayed trigger is at none.
fn by_level(
    alloc: Global,
    r: &Rules,
    g: &EventGraph,
    s: &Strata,
) -> Result<IndexMap<u64, Vec<u32>>, Memory>
    requires { IsLevelled r.now g.now s.now }
    ensures { IfOk result (λ m. (n : ℕ) → under (get nat_eq m n) (λ v. v.items)
        ≡ numbers (is_due (level_in g.now.events s.now) n) 0 r.now) }
{
    let mut index = IndexMap::new(alloc);
    let triggers = r.triggers().as_slice();
    for t in 0..triggers.len() {
        put(alloc, &mut index, due_level(&triggers[t], g, s), t as u32)?;
    }
    Ok(index)
}

/// Puts a number last at its level, if it has one.
fn put(
    alloc: Global,
    index: &mut IndexMap<u64, Vec<u32>>,
    level: Option<u64>,
    t: u32,
) -> Result<(), Memory>
    ensures { OnOk result ((n : ℕ) → under (get nat_eq index.new n) (λ v. v.items)
        ≡ under (get nat_eq index.old n) (λ v. v.items) ++ cond (is_level level n) (t ∷ []) []) }
{
    if let Some(level) = level {
        index.entry(level)?.or_insert(Vec::new(alloc)).push(t)?;
    }
    Ok(())
}

/// The numbers at a level.
fn of_level(index: &IndexMap<u64, Vec<u32>>, n: u64) -> &[u32]
    ensures { result.now ≡ under (get nat_eq index.now n) (λ v. v.items) }
{
    match index.get(&n) {
        Some(numbers) => numbers.as_slice(),
        None => &[],
    }
}

/// The level of the head of an immediate trigger.
fn due_level(trigger: &Trigger, g: &EventGraph, s: &Strata) -> Option<u64>
    requires net { IsEventNet g.now }
    requires size { length s.now ≡ length g.now.events }
    requires node { immediate trigger.now ≡ true
        → lists same_event g.now.events trigger.now.head.event ≡ true }
    ensures { result ≡ cond (immediate trigger.now)
        (Some (level_in g.now.events s.now trigger.now.head.event)) None }
{
    if trigger.delay == 0 {
        level_of(trigger.head.event, g, s)
    } else {
        None
    }
}

/// Whether the trigger is immediate and its head is of this level.
pub(crate) fn is_due(trigger: &Trigger, g: &EventGraph, s: &Strata, n: u64) -> bool
    requires net { IsEventNet g.now }
    requires size { length s.now ≡ length g.now.events }
    requires node { immediate trigger.now ≡ true
        → lists same_event g.now.events trigger.now.head.event ≡ true }
    ensures { result ≡ is_due (level_in g.now.events s.now) n trigger.now }
{
    due_level(trigger, g, s) == Some(n)
}

/// The level of an event for which a node stands.
fn level_of(e: Event, g: &EventGraph, s: &Strata) -> Option<u64>
    requires net { IsEventNet g.now }
    requires size { length s.now ≡ length g.now.events }
    ensures { lists same_event g.now.events e ≡ true
        → result ≡ Some (level_in g.now.events s.now e) }
{
    match g.node(e) {
        Some(node) => Some(s.level(node) as u64),
        None => None,
    }
}

/// A number above the level of each node.
fn count(g: &EventGraph, s: &Strata) -> u64
    requires { length s.now ≡ g.now.net.nodes }
    ensures { (v : ℕ) → slice_index s.now v < result }
{
    let mut greatest = 0;
    for node in 0..g.graph().nodes() {
        greatest = greatest.max(s.level(node));
    }
    greatest as u64 + 1
}

//! Prioritised events that have joined, found by what they are.
ghost use Rattle.std.specs.Prelude.{◌≡◌, ◌||◌, false, None, IfOk, OnOk};
ghost use Rattle.gt_base.specs.declared.events.Event.{Event as EventOf};
ghost use Rattle.gt_base.specs.declared.events.Prioritised.{Prioritised as PrioritisedOf};
ghost use Rattle.gtrbac_model.specs.Same.{same_prioritised};
ghost use Rattle.indexmap.specs.IndexMap.{get};
ghost use Rattle.trigger_rules.specs.Indexed.{event_eq};
ghost use Rattle.gtrbac_tool.specs.Joined.{has_joined, is_last, with_before};

use gt_base::{Event, Happened, Memory, Prio, Prioritised};
use indexmap::IndexMap;
use std::alloc::Global;

/// Of each event the priority at which it joined last, and what joined before at others: one more
/// event moves none.
pub(crate) struct Joined {
    last: IndexMap<Event, Prio>,
    others: Happened,
}

impl Drop for Joined {
    fn drop(self) {
        let Joined { last: _, others: _ } = self;
    }
}

impl Joined {
    /// None, with room for so many.
    pub(crate) fn new(alloc: Global, many: usize) -> Result<Joined, Memory>
        ensures { IfOk result (λ j. (e : PrioritisedOf) → has_joined j e ≡ false) }
    {
        let last = no_last(alloc, many)?;
        Ok(Joined {
            last,
            others: Happened::new(alloc),
        })
    }

    /// Whether the event joined at this priority.
    pub(crate) fn has(&self, e: Prioritised) -> bool
        ensures { result ≡ has_joined self.now e }
    {
        is_last(self.last.get(&e.event).copied(), e.prio) || self.others.has(e)
    }

    /// Adds the event at its priority.
    pub(crate) fn add(&mut self, e: Prioritised) -> Result<(), Memory>
        ensures { OnOk result ((o : PrioritisedOf) → has_joined self.new o
            ≡ (same_prioritised o e || has_joined self.old o)) }
    {
        let before = self.last.insert(e.event, e.prio)?;
        keep(&mut self.others, before, e.event)
    }
}

/// No priority of any event, with room for so many.
fn no_last(alloc: Global, many: usize) -> Result<IndexMap<Event, Prio>, Memory>
    ensures { IfOk result (λ m. (e : EventOf) → get event_eq m e ≡ None) }
{
    IndexMap::with_capacity(alloc, many)
}

/// Keeps the event at the priority that it had before, if it had one.
fn keep(others: &mut Happened, before: Option<Prio>, event: Event) -> Result<(), Memory>
    ensures { OnOk result (others.new.set.events ≡ with_before others.old.set.events before event) }
{
    match before {
        Some(prio) => {
            others.reserve(1)?;
            others.add(Prioritised { prio, event });
            Ok(())
        }
        None => Ok(()),
    }
}

/// Whether the last priority, if there is one, is this.
fn is_last(last: Option<Prio>, prio: Prio) -> bool
    ensures { result ≡ is_last last prio }
{
    match last {
        Some(q) => q == prio,
        None => false,
    }
}

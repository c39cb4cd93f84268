//! Triggers that are kept, and when the body of one is met.
ghost use Rattle.std.specs.Prelude.{◌≡◌, ◌≤◌, not, cond, length, IfOk};
ghost use Rattle.std.specs.List.{list_all};
ghost use Rattle.gt_base.specs.declared.events.Event.{Event};
ghost use Rattle.gt_base.specs.Held.{TriggerView};
ghost use Rattle.gt_base.specs.Sets.{has};
ghost use Rattle.gt_base.specs.declared.limits.TheConstants.{MAX_TRIGGERS};
ghost use Rattle.gtrbac_model.specs.Conflict.{won as is_won, after};
ghost use Rattle.gtrbac_model.specs.Trigger.{met, holds};
ghost use Rattle.trigger_rules.specs.Indexed.{with_event, with_signal};

use crate::index::{event_index, signal_index};
use gt_base::{Cond, Event, Happened, List, Memory, Signal, Status, Trigger};
use indexmap::IndexMap;
use priority_conflict::Contest;
use std::alloc::Global;
use std::marker::Model;

/// The triggers of a policy in their order, numbered from 0.
pub struct Rules {
    triggers: List<Trigger>,
    events: IndexMap<Event, Vec<u32>>,
    signals: IndexMap<Signal, Vec<u32>>,
}

impl Drop for Rules {
    fn drop(self) {
        let Rules {
            triggers: _,
            events: _,
            signals: _,
        } = self;
    }
}

impl Model for Rules {
    ghost use Rattle.std.specs.Prelude.{List, length, ◌≤◌, ◌≡◌};
    ghost use Rattle.gt_base.specs.declared.limits.TheConstants.{MAX_TRIGGERS};
    ghost use Rattle.gt_base.specs.declared.events.Event.{Event};
    ghost use Rattle.gt_base.specs.declared.events.Signal.{Signal};
    ghost use Rattle.gt_base.specs.Held.{TriggerView};
    ghost use Rattle.indexmap.specs.IndexMap.{get};
    ghost use Rattle.trigger_rules.specs.Indexed.{event_eq, signal_eq, with_event, with_signal, under};

    ghost Value = { List TriggerView };

    ghost view = { λ r. r.triggers.items };

    ghost invariant = { λ r. (length r.triggers.items ≤ MAX_TRIGGERS)
        × ((e : Event) → under (get event_eq r.events e) (λ v. v.items)
        ≡ with_event r.triggers.items e)
        × ((s : Signal) → under (get signal_eq r.signals s) (λ v. v.items)
        ≡ with_signal r.triggers.items s) };
}

impl Rules {
    /// Keeps equal triggers, which are at most 4,000.
    pub fn new(alloc: Global, triggers: &List<Trigger>) -> Result<Rules, Memory>
        requires { length triggers.now.items ≤ MAX_TRIGGERS }
        ensures { IfOk result (λ r. r ≡ triggers.now.items) }
    {
        let triggers = copied(alloc, triggers)?;
        let events = event_index(alloc, triggers.as_slice())?;
        let signals = signal_index(alloc, triggers.as_slice())?;
        Ok(Rules {
            triggers,
            events,
            signals,
        })
    }

    /// The triggers, in their order.
    pub fn triggers(&self) -> &List<Trigger>
        ensures triggers { result.now.items ≡ self.now }
        ensures few { length self.now ≤ MAX_TRIGGERS }
    {
        &self.triggers
    }

    /// The numbers of the triggers that have the event in their bodies, ascending.
    pub fn by_event(&self, e: Event) -> &[u32]
        ensures { result.now ≡ with_event self.now e }
    {
        match self.events.get(&e) {
            Some(numbers) => numbers.as_slice(),
            None => &[],
        }
    }

    /// The numbers of the triggers that have the signal in their bodies, ascending.
    pub fn by_signal(&self, s: Signal) -> &[u32]
        ensures { result.now ≡ with_signal self.now s }
    {
        match self.signals.get(&s) {
            Some(numbers) => numbers.as_slice(),
            None => &[],
        }
    }
}

/// Equal triggers.
fn copied(alloc: Global, triggers: &List<Trigger>) -> Result<List<Trigger>, Memory>
    ensures { IfOk result (λ copy. copy.items ≡ triggers.now.items) }
{
    let mut copy = List::new(alloc);
    copy.reserve(triggers.len())?;
    for t in triggers.as_slice() {
        copy.push(t.copied()?);
    }
    Ok(copy)
}

/// Whether the body of the trigger is met in the set: each of its events is won, each of its
/// signals is there, each of its conditions held before the instant, and each of its settled
/// conditions holds after it. It takes no memory.
pub fn met_in(t: &Trigger, x: &Contest, before: &Status) -> bool
    ensures { result ≡ met t.now x.now (has before.now.set) }
{
    if !all_lead(t.events.as_slice(), x) {
        return false;
    }
    if !all_there(t.signals.as_slice(), x.set()) {
        return false;
    }
    all_held(t.conds.as_slice(), before) && all_settled(t.settled.as_slice(), x, before)
}

/// Whether each of the events is won in the set.
fn all_lead(events: &[Event], x: &Contest) -> bool
    ensures { result ≡ list_all (is_won x.now) events.now }
{
    events.iter().all(|e| x.is_won(*e))
}

/// Whether each of the signals is there.
fn all_there(signals: &[Signal], x: &Happened) -> bool
    ensures { result ≡ list_all (has x.now.set.signals) signals.now }
{
    signals.iter().all(|s| x.signalled(*s))
}

/// Whether each of the conditions held before.
fn all_held(conds: &[Cond], before: &Status) -> bool
    ensures { result ≡ list_all (holds (has before.now.set)) conds.now }
{
    conds.iter().all(|c| is_so(*c, before.is_on(c.fluent)))
}

/// Whether each of the conditions holds after the set.
fn all_settled(conds: &[Cond], x: &Contest, before: &Status) -> bool
    ensures { result ≡ list_all (holds (after x.now (has before.now.set))) conds.now }
{
    conds
        .iter()
        .all(|c| is_so(*c, x.is_on_after(c.fluent, before)))
}

/// Whether the condition holds, given whether its fluent is on.
fn is_so(c: Cond, is_on: bool) -> bool
    ensures { result ≡ cond c.on is_on (not is_on) }
{
    if c.on { is_on } else { !is_on }
}

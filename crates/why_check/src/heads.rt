//! The triggers of a policy by the events that they head.
ghost use Rattle.std.specs.Prelude.{◌≡◌, ◌≤◌, ◌++◌, [], ◌∷◌, cond, length, None, Some, MatchOption, IfOk, OnOk};
ghost use Rattle.gt_base.specs.declared.events.Event.{Event as EventOf};
ghost use Rattle.gt_base.specs.declared.limits.TheConstants.{MAX_TRIGGERS};
ghost use Rattle.gtrbac_model.specs.Graph.{item_at};
ghost use Rattle.indexmap.specs.IndexMap.{get};
ghost use Rattle.trigger_rules.specs.Indexed.{event_eq, numbers, under};
ghost use Rattle.why_check.specs.Heads.{is_headed};

use gt_base::{Event, List, Memory, Trigger};
use indexmap::IndexMap;
use std::alloc::Global;
use std::marker::Model;
use trigger_rules::Rules;

/// Triggers in their order, numbered from 0, with the immediate ones under the events that they
/// head. They are seen as the triggers.
pub(crate) struct Headed {
    rules: Rules,
    heads: IndexMap<Event, Vec<u32>>,
}

impl Drop for Headed {
    fn drop(self) {
        let Headed { rules: _, heads: _ } = self;
    }
}

impl Model for Headed {
    ghost use Rattle.std.specs.Prelude.{List, ◌≡◌};
    ghost use Rattle.gt_base.specs.declared.events.Event.{Event};
    ghost use Rattle.gt_base.specs.Held.{TriggerView};
    ghost use Rattle.indexmap.specs.IndexMap.{get};
    ghost use Rattle.trigger_rules.specs.Indexed.{event_eq, numbers, under};
    ghost use Rattle.why_check.specs.Heads.{is_headed};

    ghost Value = { List TriggerView };

    ghost view = { λ h. h.rules };

    ghost invariant = { λ h. (e : Event) → under (get event_eq h.heads e) (λ v. v.items)
        ≡ numbers (is_headed e) 0 h.rules };
}

impl Headed {
    /// Keeps equal triggers.
    pub(crate) fn new(alloc: Global, triggers: &List<Trigger>) -> Result<Headed, Memory>
        requires { length triggers.now.items ≤ MAX_TRIGGERS }
        ensures { IfOk result (λ h. h ≡ triggers.now.items) }
    {
        Ok(Headed {
            rules: Rules::new(alloc, triggers)?,
            heads: head_index(alloc, triggers.as_slice())?,
        })
    }

    /// The triggers, in their order.
    pub(crate) fn triggers(&self) -> &[Trigger]
        ensures { result.now ≡ self.now }
    {
        self.rules.triggers().as_slice()
    }

    /// The trigger of this number, if there is one.
    pub(crate) fn at(&self, n: u32) -> Option<&Trigger>
        ensures { MatchOption result (item_at self.now n ≡ None)
            (λ r. item_at self.now n ≡ Some r.now) }
    {
        self.triggers().get(n as usize)
    }

    /// The numbers of the immediate triggers that head the event, ascending.
    pub(crate) fn by_head(&self, e: Event) -> &[u32]
        ensures { result.now ≡ numbers (is_headed e) 0 self.now }
    {
        match self.heads.get(&e) {
            Some(numbers) => numbers.as_slice(),
            None => &[],
        }
    }
}

/// Under each event, the numbers of the immediate triggers that head it, ascending.
fn head_index(alloc: Global, triggers: &[Trigger]) -> Result<IndexMap<Event, Vec<u32>>, Memory>
    requires { length triggers.now ≤ MAX_TRIGGERS }
    ensures { IfOk result (λ m. (e : EventOf) → under (get event_eq m e) (λ v. v.items)
        ≡ numbers (is_headed e) 0 triggers.now) }
{
    let mut index = IndexMap::new(alloc);
    for n in 0..triggers.len() {
        add_head(alloc, &mut index, &triggers[n], n as u32)?;
    }
    Ok(index)
}

/// Puts the number of the trigger last under its head, if it is immediate.
fn add_head(
    alloc: Global,
    index: &mut IndexMap<Event, Vec<u32>>,
    r: &Trigger,
    n: u32,
) -> Result<(), Memory>
    ensures { OnOk result ((e : EventOf) → under (get event_eq index.new e) (λ v. v.items)
        ≡ under (get event_eq index.old e) (λ v. v.items) ++ cond (is_headed e r.now) (n ∷ []) []) }
{
    if r.delay == 0 {
        put_number(alloc, index, r.head.event, n)?;
    }
    Ok(())
}

/// Puts the number last under the event.
fn put_number(
    alloc: Global,
    index: &mut IndexMap<Event, Vec<u32>>,
    e: Event,
    n: u32,
) -> Result<(), Memory>
    ensures { OnOk result ((k : EventOf) → under (get event_eq index.new k) (λ v. v.items)
        ≡ cond (event_eq e k) (under (get event_eq index.old e) (λ v. v.items) ++ n ∷ [])
        (under (get event_eq index.old k) (λ v. v.items))) }
{
    push_number(index.entry(e)?.or_insert(Vec::new(alloc)), n)
}

/// Puts the number last.
fn push_number(numbers: &mut Vec<u32>, n: u32) -> Result<(), Memory>
    ensures { OnOk result (numbers.new.items ≡ numbers.old.items ++ n ∷ []) }
{
    numbers.push(n)?;
    Ok(())
}

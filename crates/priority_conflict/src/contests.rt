//! A set of an instant with the leader of each fluent, so that a winner is known at once while the
//! set grows.
ghost use Rattle.std.specs.Prelude.{◌≡◌, IfOk, OnOk, OnErr};
ghost use Rattle.gt_base.specs.Sets.{has, with_member};
ghost use Rattle.gtrbac_model.specs.Conflict.{won, after};
ghost use Rattle.priority_conflict.specs.Winning.{led};

use crate::leading::{leaders, note};
use gt_base::{Event, Fluent, Happened, Memory, Prioritised, Status};
use indexmap::IndexMap;
use std::alloc::Global;
use std::marker::Model;

/// A set that keeps who leads each fluent in it, seen as the set.
#[derive(Drop)]
pub struct Contest {
    set: Happened,
    leaders: IndexMap<Fluent, Prioritised>,
}

impl Model for Contest {
    ghost use Rattle.gt_base.specs.declared.events.Fluent.{Fluent};
    ghost use Rattle.gt_base.specs.Happening.{HappenedView, happening_code};
    ghost use Rattle.gt_base.specs.Orders.{fluent_eq};
    ghost use Rattle.gt_base.specs.Sets.{has};
    ghost use Rattle.indexmap.specs.IndexMap.{get};
    ghost use Rattle.priority_conflict.specs.Winning.{IsLeader};

    ghost Value = { HappenedView };

    ghost coded = { happening_code };

    ghost view = { λ c. c.set.set };

    ghost invariant = { λ c. (f : Fluent)
        → IsLeader (has c.set.set.events) f (get fluent_eq c.leaders f) };
}

impl Contest {
    /// The contest of an equal set.
    pub fn new(alloc: Global, x: &Happened) -> Result<Contest, Memory>
        ensures { IfOk result (λ c. c ≡ x.now.set) }
    {
        let leaders = leaders(alloc, x.events())?;
        let set = x.copied()?;
        Ok(Contest { set, leaders })
    }

    /// The set.
    pub fn set(&self) -> &Happened
        ensures { result.now.set ≡ self.now }
    {
        &self.set
    }

    /// Whether the event stands in the set at some priority at which it is not blocked. It takes no
    /// memory.
    pub fn is_won(&self, e: Event) -> bool
        ensures { result ≡ won self.now e }
    {
        leads(self.leaders.get(&e.fluent).copied(), e)
    }

    /// Whether the fluent is on in the status after the set, given the status before it. It takes
    /// no memory.
    pub fn is_on_after(&self, f: Fluent, before: &Status) -> bool
        ensures { result ≡ after self.now (has before.now.set) f }
    {
        match self.leaders.get(&f) {
            Some(leader) => leader.event.on,
            None => before.is_on(f),
        }
    }

    /// Adds an event. After a refusal the set is as it was.
    pub fn add(&mut self, p: Prioritised) -> Result<(), Memory>
        ensures events { OnOk result (self.new.events ≡ with_member self.old.events p) }
        ensures signals { OnOk result (self.new.signals ≡ self.old.signals) }
        ensures err { OnErr result (self.new ≡ self.old) }
    {
        self.set.reserve(1)?;
        note(&mut self.leaders, &p)?;
        self.set.add(p);
        Ok(())
    }

    /// The set, by value.
    pub fn into_set(self) -> Happened
        ensures { result.set ≡ self }
    {
        self.set
    }
}

/// Whether the leader is the event.
fn leads(leader: Option<Prioritised>, e: Event) -> bool
    ensures { result ≡ led leader e }
{
    match leader {
        Some(q) => q.event.cmp(&e).is_eq(),
        None => false,
    }
}

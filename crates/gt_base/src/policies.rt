//! The rules of a policy.
ghost use Rattle.std.specs.Prelude.{◌≡◌, IfOk};

use crate::events::{Cond, Event, PeriodId, Prioritised, RoleId, Signal};
use crate::instants::Prio;
use crate::lists::{List, Memory};
use std::marker::Model;

/// A trigger: at an instant at which its body is met its head follows after the delay, in minutes;
/// at once where the delay is 0. Its conditions are asked of the status before the instant, its
/// settled conditions of the status after it. Triggers are seen without the room of their lists.
pub struct Trigger {
    pub events: List<Event>,
    pub signals: List<Signal>,
    pub conds: List<Cond>,
    pub settled: List<Cond>,
    pub head: Prioritised,
    pub delay: u32,
}

impl Drop for Trigger {
    fn drop(self) {
        let Trigger {
            events: _,
            signals: _,
            conds: _,
            settled: _,
            head: _,
            delay: _,
        } = self;
    }
}

impl Model for Trigger {
    ghost use Rattle.gt_base.specs.Held.{TriggerView};

    ghost Value = { TriggerView };

    ghost view = { λ t. record {
      events = t.events.items;
      signals = t.signals.items;
      conds = t.conds.items;
      settled = t.settled.items;
      head = t.head;
      delay = t.delay;
    } };
}

/// When a periodic entry raises its event: at each instant of its period, where the period starts,
/// or where a span of it begins, with the converse where it ends.
#[derive(Clone, Copy, PartialEq, Eq)]
pub enum Form {
    Each,
    Start,
    Span,
}

/// A periodic entry: its form, its period and the event that it raises.
#[derive(Clone, Copy, PartialEq, Eq)]
pub struct PeriodicEntry {
    pub form: Form,
    pub period: PeriodId,
    pub head: Prioritised,
}

/// A duration limit: the condition may hold for `most` minutes, within the period if it has one.
#[derive(Clone, Copy, PartialEq, Eq)]
pub struct LimitRule {
    pub cond: Cond,
    pub prio: Prio,
    pub most: u32,
    pub period: Option<PeriodId>,
}

/// An edge of the role hierarchy. It lends the junior's permissions to the senior where it
/// inherits, and lets who may activate the senior activate the junior where it activates; it does
/// so while it is linked, and a strong edge needs both roles enabled.
#[derive(Clone, Copy, PartialEq, Eq)]
pub struct HierEdge {
    pub senior: RoleId,
    pub junior: RoleId,
    pub inherits: bool,
    pub activates: bool,
    pub strong: bool,
}

/// The caps of one role: activations at once over all sessions and of one user, minutes of one
/// activation, and charged minutes of a user in a civil day.
#[derive(Clone, Copy, PartialEq, Eq)]
pub struct Caps {
    pub total: Option<u32>,
    pub user: Option<u32>,
    pub length: Option<u32>,
    pub day: Option<u32>,
}

/// A walk over the hierarchy: the role where it begins and the numbers of its edges. It is seen
/// without its list's room.
#[derive(Drop)]
pub struct Walk {
    pub start: RoleId,
    pub edges: List<u32>,
}

impl Model for Walk {
    ghost use Rattle.gt_base.specs.Held.{RoleWalk};

    ghost Value = { RoleWalk };

    ghost view = { λ w. record { start = w.start; edges = w.edges.items } };
}

impl Trigger {
    /// An equal trigger.
    pub fn copied(&self) -> Result<Trigger, Memory>
        ensures { IfOk result (λ copy. copy ≡ self.now) }
    {
        Ok(Trigger {
            events: self.events.copied()?,
            signals: self.signals.copied()?,
            conds: self.conds.copied()?,
            settled: self.settled.copied()?,
            head: self.head,
            delay: self.delay,
        })
    }
}

impl Walk {
    /// An equal walk.
    pub fn copied(&self) -> Result<Walk, Memory>
        ensures { IfOk result (λ copy. copy ≡ self.now) }
    {
        Ok(Walk {
            start: self.start,
            edges: self.edges.copied()?,
        })
    }
}

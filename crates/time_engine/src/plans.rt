//! Plans of closing a timeline.
ghost use Rattle.std.specs.Prelude.{◌≡◌};

use delay_agenda::Pending;
use gt_base::{EventSet, Happened, Instant, List, Status};
use std::marker::Model;

/// What closing a timeline at an instant gives: the instant, its base and its set, the status after
/// it, and the pairs of a due instant and an event that join. It also knows how much room it needs.
#[derive(Drop)]
pub struct Plan {
    pub(crate) at: Instant,
    pub(crate) base: Happened,
    pub(crate) set: Happened,
    pub(crate) won: EventSet,
    pub(crate) status: Status,
    pub(crate) joining: List<Pending>,
}

impl Model for Plan {
    ghost use Rattle.std.specs.Prelude.{◌≡◌, max, length};
    ghost use Rattle.gt_base.specs.declared.events.Event.{Event};
    ghost use Rattle.gt_base.specs.Sets.{has, members};
    ghost use Rattle.gtrbac_model.specs.Conflict.{won as is_won};
    ghost use Rattle.time_engine.specs.Plans.{PlanView, plan_code};

    ghost Value = { PlanView };

    ghost coded = { plan_code };

    ghost view = { λ p. record {
      at = p.at;
      base = p.base.set;
      set = p.set.set;
      status = p.status.set;
      joining = p.joining.items;
      need = max 1 (max (length (members p.won.set)) (length p.joining.items));
    } };

    ghost invariant = { λ p. (e : Event) → has p.won.set e ≡ is_won p.set.set e };
}

impl Plan {
    /// The instant that is to be closed.
    pub fn at(&self) -> Instant
        ensures { result ≡ self.now.at }
    {
        self.at
    }

    /// The status after it. It takes no memory.
    pub fn status(&self) -> &Status
        ensures { result.now.set ≡ self.now.status }
    {
        &self.status
    }

    /// The set of it. It takes no memory.
    pub fn happened(&self) -> &Happened
        ensures { result.now.set ≡ self.now.set }
    {
        &self.set
    }

    /// How much room it needs.
    pub(crate) fn need(&self) -> usize
        ensures { result ≡ self.now.need }
    {
        self.joining.len().max(self.won.len()).max(1)
    }
}

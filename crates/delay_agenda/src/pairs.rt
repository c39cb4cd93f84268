//! Pairs of a due instant and an event, and their order.
ghost use Rattle.std.specs.Prelude.{refl};
ghost use Rattle.std.specs.Ordering.{as_partial_cmp};
ghost use Rattle.delay_agenda.specs.Due.{pending_cmp};
ghost use Rattle.delay_agenda.specs.Order.{pending_cmp_total, pending_ties, pending_order};

use gt_base::{Instant, Prioritised};
use std::cmp::Ordering;

/// An event with the instant at which it is due. Of two pairs the one that is due later stands
/// first, and of two that are due together the one with the lesser event.
#[derive(Clone, Copy, PartialEq, Eq)]
pub struct Pending {
    pub due: Instant,
    pub event: Prioritised,
}

impl Ord for Pending {
    ghost cmp = { pending_cmp };

    ghost total = { pending_cmp_total };

    ghost matches_partial_cmp = { λ _ _. refl };

    ghost matches_eq = { pending_ties };

    fn cmp(&self, other: &Pending) -> Ordering {
        match other.due.cmp(&self.due) {
            Ordering::Equal => self.event.cmp(&other.event),
            unequal => unequal,
        }
    }
}

impl PartialOrd for Pending {
    ghost partial_cmp = { as_partial_cmp pending_cmp };

    ghost laws = { pending_order };

    fn partial_cmp(&self, other: &Pending) -> Option<Ordering> {
        Some(self.cmp(other))
    }
}

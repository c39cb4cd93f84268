//! The events that stand among those listed so far.
ghost use Rattle.std.specs.Prelude.{◌≡◌, ◌&&◌, ◌||◌, false, not, IfOk, OnOk};
ghost use Rattle.gt_base.specs.declared.events.Event.{Event as EventOf};
ghost use Rattle.gtrbac_model.specs.Conflict.{blocked};
ghost use Rattle.gtrbac_model.specs.Same.{same_event};
ghost use Rattle.why_check.specs.Standing.{stands_in};

use crate::blocking::Peaks;
use crate::sides::{SideTable, side};
use gt_base::{Event, Memory, Prioritised};
use std::alloc::Global;

/// Events that stand, with the greatest priority at which each was noted.
pub struct Standing {
    noted: SideTable,
}

impl Drop for Standing {
    fn drop(self) {
        let Standing { noted: _ } = self;
    }
}

impl Standing {
    /// None, with room for so many.
    pub fn new(alloc: Global, many: usize) -> Result<Standing, Memory>
        ensures { IfOk result (λ s. (e : EventOf) → stands_in s e ≡ false) }
    {
        Ok(Standing {
            noted: SideTable::new(alloc, many)?,
        })
    }

    /// Whether the event stands.
    pub fn has(&self, e: Event) -> bool
        ensures { result ≡ stands_in self.now e }
    {
        side(self.noted.of(e.fluent), e.on).is_some()
    }

    /// Adds the event, where it is not blocked at its priority in the set.
    pub fn note(&mut self, x: &Peaks, e: &Prioritised) -> Result<(), Memory>
        ensures { OnOk result ((f : EventOf) → stands_in self.new f
            ≡ ((same_event e.now.event f && not (blocked x.now e.now)) || stands_in self.old f)) }
    {
        if !x.blocks(e) {
            self.noted.note(e.event, e.prio.get())?;
        }
        Ok(())
    }
}

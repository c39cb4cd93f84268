//! Traces: the sets of a run.
ghost use Rattle.std.specs.Prelude.{◌≡◌, ◌≤◌, ◌+◌, ◌++◌, IfOk};
ghost use Rattle.gtrbac_model.specs.History.{is_some_item};
ghost use Rattle.time_engine.specs.Traces.{is_something, traced};

use gt_base::{Happened, Instant, List, Memory};
use std::marker::Model;

/// A nonempty set with its instant and the base of that instant.
pub struct Closed {
    pub at: Instant,
    pub base: Happened,
    pub set: Happened,
}

impl Drop for Closed {
    fn drop(self) {
        let Closed {
            at: _,
            base: _,
            set: _,
        } = self;
    }
}

impl Model for Closed {
    ghost use Rattle.instant_bases.specs.Timelines.{ClosedSet, closed_set_code};

    ghost Value = { ClosedSet };

    ghost coded = { closed_set_code };

    ghost view = { λ c. record { at = c.at; base = c.base.set; set = c.set.set } };
}

/// The nonempty sets of a run, by ascending instant; at each other minute nothing happened.
pub type Trace = List<Closed>;

/// Whether the set has an event or a signal.
pub(crate) fn is_something(set: &Happened) -> bool
    ensures { result ≡ is_something set.now.set }
{
    has_item(set.events()) || has_item(set.signals())
}

/// Whether there is an item.
pub(crate) fn has_item<T>(items: &[T]) -> bool
    ensures { result ≡ is_some_item items.now }
{
    !items.is_empty()
}

/// Adds the set at the end where something happens, into room that was made before.
pub(crate) fn push_closed(trace: &mut Trace, at: Instant, base: Happened, set: Happened)
    requires { 1 ≤ trace.old.spare }
    ensures items { trace.new.items ≡ trace.old.items ++ traced at base.set set.set }
{
    if is_something(&set) {
        trace.push(Closed { at, base, set });
    }
}

impl Closed {
    /// An equal set, with its instant and its base.
    pub fn copied(&self) -> Result<Closed, Memory>
        ensures { IfOk result (λ copy. copy ≡ self.now) }
    {
        Ok(Closed {
            at: self.at,
            base: self.base.copied()?,
            set: self.set.copied()?,
        })
    }
}

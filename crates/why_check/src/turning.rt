//! The status that a set makes of one.
ghost use Rattle.std.specs.Prelude.{◌≡◌, ◌≤◌, ◌+◌, cond, length, OnOk};
ghost use Rattle.std.specs.List.{list_any};
ghost use Rattle.gt_base.specs.declared.events.Fluent.{Fluent as FluentOf};
ghost use Rattle.gt_base.specs.Sets.{has};
ghost use Rattle.gtrbac_model.specs.Conflict.{after};
ghost use Rattle.gtrbac_model.specs.Same.{same_fluent};

use crate::blocking::Peaks;
use gt_base::{Fluent, Memory, Prioritised, Status};

/// Turns the status to that after the set.
pub fn turn(status: &mut Status, x: &Peaks) -> Result<(), Memory>
    ensures { OnOk result ((f : FluentOf)
        → has status.new.set f ≡ after x.now (has status.old.set) f) }
{
    let events = x.set().events();
    status.reserve(events.len())?;
    turn_all(status, x, events);
    Ok(())
}

/// Turns the fluents of these events, into room that was made before.
fn turn_all(status: &mut Status, x: &Peaks, events: &[Prioritised])
    requires { length events.now ≤ status.old.spare }
    ensures { (f : FluentOf) → has status.new.set f
        ≡ cond (list_any (λ o. same_fluent o.event.fluent f) events.now)
        (after x.now (has status.old.set) f) (has status.old.set f) }
{
    for e in events {
        turn_fluent(status, x, e.event.fluent);
    }
}

/// Turns the fluent to what it is after the set.
fn turn_fluent(status: &mut Status, x: &Peaks, f: Fluent)
    requires { 1 ≤ status.old.spare }
    ensures status { (g : FluentOf) → has status.new.set g
        ≡ cond (same_fluent f g) (after x.now (has status.old.set) g) (has status.old.set g) }
    ensures spare { status.old.spare ≤ status.new.spare + 1 }
{
    let on = x.is_on_after(f, status);
    status.set(f, on);
}

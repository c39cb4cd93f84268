//! Lists of events and signals as sets of an instant.
ghost use Rattle.std.specs.Prelude.{◌≡◌, ◌≤◌, ◌+◌, ◌||◌, length};
ghost use Rattle.std.specs.List.{list_any};
ghost use Rattle.std.specs.Ordering.{eq_by_cmp};
ghost use Rattle.gt_base.specs.declared.events.Prioritised.{Prioritised};
ghost use Rattle.gt_base.specs.declared.events.Signal.{Signal};
ghost use Rattle.gt_base.specs.Orders.{prioritised_cmp, signal_cmp};
ghost use Rattle.gt_base.specs.Sets.{has};

use gt_base::{Happened, Prioritised, Signal};

/// Adds the events, into room that was made before.
pub fn add_events(into: &mut Happened, events: &[Prioritised])
    requires { length events.now ≤ into.old.spare }
    ensures events { (e : Prioritised) → has into.new.set.events e
        ≡ (has into.old.set.events e || list_any (eq_by_cmp prioritised_cmp e) events.now) }
    ensures signals { into.new.set.signals ≡ into.old.set.signals }
    ensures spare { into.old.spare ≤ into.new.spare + length events.now }
{
    for e in events {
        into.add(*e);
    }
}

/// Adds the signals, into room that was made before.
pub fn add_signals(into: &mut Happened, signals: &[Signal])
    requires { length signals.now ≤ into.old.spare }
    ensures events { into.new.set.events ≡ into.old.set.events }
    ensures signals { (x : Signal) → has into.new.set.signals x
        ≡ (has into.old.set.signals x || list_any (eq_by_cmp signal_cmp x) signals.now) }
    ensures spare { into.old.spare ≤ into.new.spare + length signals.now }
{
    for x in signals {
        into.add_signal(*x);
    }
}

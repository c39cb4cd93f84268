//! When the body of a trigger is met in a set.
ghost use Rattle.std.specs.Prelude.{◌≡◌, not, cond};
ghost use Rattle.std.specs.List.{list_all};
ghost use Rattle.gt_base.specs.Sets.{has};
ghost use Rattle.gtrbac_model.specs.Conflict.{won as is_won, after};
ghost use Rattle.gtrbac_model.specs.Trigger.{met, holds};

use crate::blocking::Peaks;
use gt_base::{Cond, Event, Happened, Signal, Status, Trigger};

/// Whether the body of the trigger is met in the set: each of its events is won, each of its
/// signals is there, each of its conditions held before the instant, and each of its settled
/// conditions holds after it.
pub fn met_in(t: &Trigger, x: &Peaks, before: &Status) -> bool
    ensures { result ≡ met t.now x.now (has before.now.set) }
{
    if !all_won(t.events.as_slice(), x) {
        return false;
    }
    if !all_there(t.signals.as_slice(), x.set()) {
        return false;
    }
    all_held(t.conds.as_slice(), before) && all_settled(t.settled.as_slice(), x, before)
}

/// Whether each of the events is won in the set.
fn all_won(events: &[Event], x: &Peaks) -> bool
    ensures { result ≡ list_all (is_won x.now) events.now }
{
    events.iter().all(|e| x.is_won(*e))
}

/// Whether each of the signals is there.
fn all_there(signals: &[Signal], x: &Happened) -> bool
    ensures { result ≡ list_all (has x.now.set.signals) signals.now }
{
    signals.iter().all(|s| x.signalled(*s))
}

/// Whether each of the conditions held before.
fn all_held(conds: &[Cond], before: &Status) -> bool
    ensures { result ≡ list_all (holds (has before.now.set)) conds.now }
{
    conds.iter().all(|c| is_so(*c, before.is_on(c.fluent)))
}

/// Whether each of the conditions holds after the set.
fn all_settled(conds: &[Cond], x: &Peaks, before: &Status) -> bool
    ensures { result ≡ list_all (holds (after x.now (has before.now.set))) conds.now }
{
    conds
        .iter()
        .all(|c| is_so(*c, x.is_on_after(c.fluent, before)))
}

/// Whether the condition holds, given whether its fluent is on.
fn is_so(c: Cond, is_on: bool) -> bool
    ensures { result ≡ cond c.on is_on (not is_on) }
{
    if c.on { is_on } else { !is_on }
}

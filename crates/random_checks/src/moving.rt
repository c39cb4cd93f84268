//! Goes on with a timeline, from one stirring instant to the next or minute after minute.
ghost use Rattle.std.specs.Prelude.{◌≡◌, ℕ, ◌<◌, ◌≤◌, Bool, IfOk, OnErr};
ghost use Rattle.gt_base.specs.declared.limits.TheConstants.{LAST_MINUTE};
ghost use Rattle.gtrbac_model.specs.History.{IsNextStop};
ghost use Rattle.instant_bases.specs.Nexts.{IsNextOf};
ghost use Rattle.instant_bases.specs.Timelines.{StandsFor};

use gt_base::{Instant, Memory, Prioritised, Signal};
use time_engine::{Ground, RequestFault, Timeline};

/// Where a timeline stops that is to go on to the bound: at the next stirring instant, where it is
/// before the bound.
fn stop(next: Option<Instant>, bound: Instant) -> Instant
    ensures { (test : ℕ → Bool) (now : ℕ) → IsNextOf test now next → now < bound
        → IsNextStop test now bound result }
{
    bound.keeps();
    match next {
        Some(t) if t < bound => t,
        _ => bound,
    }
}

/// Closes the timeline at its next stirring instant, or at the bound, where that comes first.
fn go(g: &Ground, line: &mut Timeline, bound: Instant) -> Result<(), Memory>
    requires stands { StandsFor g.now.policy line.old.line }
    requires later { line.old.line.now < bound }
    ensures stands { StandsFor g.now.policy line.new.line }
{
    let to = stop(line.due(g), bound);
    line.close(g, to)
}

/// The same; from the bound on it does nothing.
pub(crate) fn jump(g: &Ground, line: &mut Timeline, bound: Instant) -> Result<(), Memory>
    requires stands { StandsFor g.now.policy line.old.line }
    ensures stands { StandsFor g.now.policy line.new.line }
{
    if line.now() < bound {
        go(g, line, bound)
    } else {
        Ok(())
    }
}

/// Closes the timeline at the minute after now; at the last minute it does nothing.
pub(crate) fn step(g: &Ground, line: &mut Timeline) -> Result<(), Memory>
    requires stands { StandsFor g.now.policy line.old.line }
    ensures stands { StandsFor g.now.policy line.new.line }
{
    match Instant::new(line.now().minute() + 1) {
        Some(to) => line.close(g, to),
        None => Ok(()),
    }
}

/// Adds a signal of the minute after now.
pub(crate) fn signal(g: &Ground, line: &mut Timeline, s: Signal) -> Result<(), Memory>
    requires stands { StandsFor g.now.policy line.old.line }
    ensures stands { StandsFor g.now.policy line.new.line }
{
    let _policy = g.policy();
    line.reserve(1)?;
    line.signal(s);
    Ok(())
}

/// Requests an event.
pub(crate) fn request(
    g: &Ground,
    line: &mut Timeline,
    head: &Prioritised,
    delay: u32,
) -> Result<Instant, RequestFault>
    requires stands { StandsFor g.now.policy line.old.line }
    requires delay { delay ≤ LAST_MINUTE }
    ensures stands { StandsFor g.now.policy line.new.line }
{
    let _policy = g.policy();
    line.request(*head, delay)
}

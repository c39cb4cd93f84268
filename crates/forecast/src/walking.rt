//! Steps of a walk ahead of a book.
ghost use Rattle.std.specs.Prelude.{◌≡◌, ℕ, ◌<◌, ◌≤◌, Bool, length, Some, IfOk, OnOk};
ghost use Rattle.gt_base.specs.Sets.{has};
ghost use Rattle.gtrbac_model.specs.History.{IsNextStop};
ghost use Rattle.instant_bases.specs.Nexts.{IsNextOf};
ghost use Rattle.instant_bases.specs.Timelines.{StandsFor};
ghost use Rattle.session_table.specs.NextDrops.{IsFirstOrNone};
ghost use Rattle.session_table.specs.Tables.{NotBefore, closed_at, table_of};
ghost use Rattle.core_machine.specs.Steps.{moves, with_signals};
ghost use Rattle.forecast.specs.Going.{IsOnWay, StepsTo};

use core_machine::Book;
use gt_base::{Caps, Instant, List, Memory, Signal, Status};
use hybrid_hierarchy::Hierarchy;
use session_table::Sessions;
use time_engine::{Ground, Timeline};

/// Goes on to the least instant after now and up to the horizon at which something is raised or a
/// cap ends an activation, or to the horizon. The trace and the charges of past days are let go.
/// The hierarchy is that of the policy's edges.
pub(crate) fn go_on(
    book: &Book,
    hierarchy: &Hierarchy,
    line: &mut Timeline,
    table: &mut Sessions,
    upto: Instant,
) -> Result<(), Memory>
    requires hierarchy { hierarchy.now ≡ book.now.named.policy.edges }
    requires way { IsOnWay book.now line.old.line table.old }
    requires later { line.old.line.now < upto }
    ensures { OnOk result (StepsTo book.now line.old.line line.new.line table.new upto) }
{
    book.keeps();
    upto.keeps();
    let now = line.now();
    let ground = book.ground();
    let policy = ground.policy();
    let to = stop(ground, line, table, upto);
    line.close(ground, to)?;
    line.forget_trace();
    let signals = end_instants(table, hierarchy, policy.caps(), now, to, line.status())?;
    table.forget_days_before(to);
    line.reserve(signals.len())?;
    add_signals(line, signals.as_slice());
    Ok(())
}

/// Ends the minutes after `now`, up to `to`, under the status at `to`: the end signals.
fn end_instants(
    table: &mut Sessions,
    hierarchy: &Hierarchy,
    caps: &List<Caps>,
    now: Instant,
    to: Instant,
    status: &Status,
) -> Result<List<Signal>, Memory>
    requires order { now < to }
    requires not_before { NotBefore table.old.charged_to now }
    ensures table { IfOk result
        (λ signals. record (table_of table.new) { signals = signals.items }
        ≡ closed_at hierarchy.now caps.now.items (has status.now.set) now to
        (table_of table.old)) }
    ensures charged_to { OnOk result (table.new.charged_to ≡ Some to) }
{
    let drops = table.plan_end_over(hierarchy, caps, now, to, status)?;
    let signals = drops.signals().copied()?;
    table.commit_end(drops);
    Ok(signals)
}

/// Where the next step of the walk stops.
fn stop(ground: &Ground, line: &Timeline, table: &Sessions, upto: Instant) -> Instant
    requires stands { StandsFor ground.now.policy line.now.line }
    requires charged { NotBefore table.now.charged_to line.now.line.now }
    requires later { line.now.line.now < upto }
    ensures { IsNextStop (moves ground.now.policy line.now.line
        (table_of table.now)) line.now.line.now upto result }
{
    let raised = earlier(line.due(ground), upto);
    earlier(table.next_drop(ground.policy().caps(), line.now()), raised)
}

/// The next instant, where it is before the bound, else the bound.
fn earlier(next: Option<Instant>, bound: Instant) -> Instant
    ensures raised { (test : ℕ → Bool) (now : ℕ) → IsNextOf test now next → now < bound
        → IsNextStop test now bound result }
    ensures dropped { (test : ℕ → Bool) (now : ℕ) → IsFirstOrNone test now next → now < bound
        → IsNextStop test now bound result }
{
    bound.keeps();
    match next {
        Some(t) if t < bound => t,
        _ => bound,
    }
}

/// Adds the signals, into room that was made before.
fn add_signals(line: &mut Timeline, signals: &[Signal])
    requires { length signals.now ≤ line.old.spare }
    ensures { line.new.line ≡ with_signals line.old.line signals.now }
{
    for x in signals {
        line.signal(*x);
    }
}

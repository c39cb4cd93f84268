//! A tick: where it stops, what it plans first, and the close by these plans.
ghost use Rattle.std.specs.Prelude.{◌≡◌, ℕ, ◌<◌, ◌≤◌, Bool, true, length, IfOk, OnOk, OnErr};
ghost use Rattle.std.specs.List.{list_all};
ghost use Rattle.gt_base.specs.Sets.{has, members};
ghost use Rattle.gt_base.specs.declared.limits.TheConstants.{MAX_STEPS};
ghost use Rattle.gtrbac_model.specs.History.{IsNextStop};
ghost use Rattle.instant_bases.specs.Nexts.{IsNextOf};
ghost use Rattle.session_table.specs.NextDrops.{IsFirstOrNone};
ghost use Rattle.session_table.specs.Plans.{AllStand, IsDropPlan, need_of};
ghost use Rattle.session_table.specs.Tables.{table_of};
ghost use Rattle.time_engine.specs.Plans.{Fits, IsPlan, NoneStirs};
ghost use Rattle.core_machine.specs.Agreeing.{agrees};
ghost use Rattle.core_machine.specs.Books.{TicksFurther};
ghost use Rattle.core_machine.specs.Coherent.{IsCoherent, Same, view_of};
ghost use Rattle.core_machine.specs.Steps.{IsClosing, moves};

use crate::entering::{add_signals, make_room};
use crate::states::State;
use gt_base::{Caps, Entry, Happened, Instant, List, Memory, Prioritised, Status, Step, Who};
use hybrid_hierarchy::Hierarchy;
use session_table::{Drops, Sessions};
use time_engine::Plan;

/// Goes on to the least instant after now and up to the bound at which something is raised or an
/// activation ends, or to the bound, and adds one entry. It takes its memory first: a refused tick
/// leaves the book as it was.
pub(crate) fn go_on(s: &mut State, who: Who, upto: Instant) -> Result<Instant, Memory>
    requires kept { IsCoherent s.old }
    requires later { s.old.line.line.now < upto }
    requires room { length s.old.entries.items < MAX_STEPS }
    ensures kept { IsCoherent s.new }
    ensures ok { IfOk result (λ to. TicksFurther (view_of s.old) (view_of s.new) who upto to) }
    ensures err { OnErr result (view_of s.new ≡ view_of s.old) }
{
    let to = stop(s, upto);
    let (plan, drops) = planned(s, to)?;
    make_room(s, drops.signals().len())?;
    close(s, who, upto, plan, drops);
    Ok(to)
}

/// The plans of the timeline and of the end of its minutes, for an instant that is not after the
/// next one at which something is raised, with the room for them made.
fn planned(s: &mut State, to: Instant) -> Result<(Plan, Drops), Memory>
    requires kept { IsCoherent s.old }
    requires later { s.old.line.line.now < to }
    requires skipped { NoneStirs s.old.ground.policy s.old.line.line to }
    ensures same { Same s.old s.new }
    ensures at { IfOk result (λ r. r.0.at ≡ to) }
    ensures plan { IfOk result (λ r. IsPlan s.old.ground.policy s.old.line.line r.0) }
    ensures fits { IfOk result (λ r. Fits s.old.line.line r.0) }
    ensures plan_room { IfOk result (λ r. r.0.need ≤ s.new.line.room) }
    ensures drops { IfOk result
        (λ r. IsDropPlan s.old.ground.policy.edges s.old.ground.policy.caps (has r.0.status)
        s.old.line.line.now to (table_of s.old.table) r.1) }
    ensures drops_room { OnOk result
        (need_of s.old.line.line.now to s.new.table ≤ s.new.table.room) }
{
    s.line.keeps();
    let plan = s.line.plan(s.ground.ground(), to)?;
    let policy = s.ground.policy();
    let now = s.line.now();
    let hierarchy = s.ground.hierarchy();
    let set = plan.happened();
    let before = s.line.status();
    let still = is_still(set, before);
    let drops = end_of(
        &mut s.table,
        hierarchy,
        policy.caps(),
        now,
        to,
        plan.status(),
        still,
    )?;
    Ok((plan, drops))
}

/// Whether the status already says what the event makes of it.
fn agrees(status: &Status, e: &Prioritised) -> bool
    ensures { result ≡ agrees (has status.now.set) e.now }
{
    let on = status.is_on(e.event.fluent);
    if e.event.on { on } else { !on }
}

/// Whether the status already says what each event of the set makes of it, as where there is none:
/// then the set changes no fluent.
fn is_still(set: &Happened, before: &Status) -> bool
    ensures { result ≡ list_all (agrees (has before.now.set)) (members set.now.set.events) }
{
    set.events().iter().all(|e| agrees(before, e))
}

/// The plan of the end of the minutes. Where no fluent changes, each activation stands as before,
/// and neither the status nor the hierarchy is asked.
fn end_of(
    table: &mut Sessions,
    hierarchy: &Hierarchy,
    caps: &List<Caps>,
    now: Instant,
    to: Instant,
    status: &Status,
    still: bool,
) -> Result<Drops, Memory>
    requires later { now < to }
    requires still { still ≡ true
        → AllStand hierarchy.now (has status.now.set) (table_of table.old) }
    ensures same { table_of table.new ≡ table_of table.old }
    ensures charged_to { table.new.charged_to ≡ table.old.charged_to }
    ensures room { OnOk result (need_of now to table.new ≤ table.new.room) }
    ensures plan { IfOk result
        (IsDropPlan hierarchy.now caps.now.items (has status.now.set) now to
        (table_of table.old)) }
{
    if still {
        return table.plan_end_still(caps, now, to);
    }
    table.plan_end_over(hierarchy, caps, now, to, status)
}

/// Where a tick with this bound stops.
fn stop(s: &State, upto: Instant) -> Instant
    requires kept { IsCoherent s.now }
    requires later { s.now.line.line.now < upto }
    ensures { IsNextStop (moves s.now.ground.policy s.now.line.line (table_of s.now.table))
        s.now.line.line.now upto result }
{
    let raised = first_of(s.line.due(s.ground.ground()), upto);
    let drops = s.table.next_drop(s.ground.policy().caps(), s.line.now());
    first_of(drops, raised)
}

/// The next instant at which something is raised, or at which an activation ends, where it is
/// before the bound, else the bound.
fn first_of(next: Option<Instant>, upto: Instant) -> Instant
    ensures raised { (test : ℕ → Bool) (now : ℕ) → IsNextOf test now next → now < upto
        → IsNextStop test now upto result }
    ensures drops { (test : ℕ → Bool) (now : ℕ) → IsFirstOrNone test now next → now < upto
        → IsNextStop test now upto result }
{
    upto.keeps();
    match next {
        Some(t) if t < upto => t,
        _ => upto,
    }
}

/// Goes to the stop by the plans, into room that was made before.
fn close(s: &mut State, who: Who, upto: Instant, plan: Plan, drops: Drops)
    requires kept { IsCoherent s.old }
    requires room { length s.old.entries.items < MAX_STEPS }
    requires closing { IsClosing s.old.ground.policy s.old.line.line (table_of s.old.table) upto
        plan drops }
    requires plan_room { plan.need ≤ s.old.line.room }
    requires drops_room { need_of s.old.line.line.now plan.at s.old.table ≤ s.old.table.room }
    requires signals_room { length drops.signals ≤ s.old.line.spare }
    requires entry_room { 1 ≤ s.old.entries.spare }
    ensures kept { IsCoherent s.new }
    ensures ok { TicksFurther (view_of s.old) (view_of s.new) who upto plan.at }
{
    s.line.keeps();
    upto.keeps();
    let to = plan.at();
    s.line.commit(plan);
    add_signals(&mut s.line, drops.signals().as_slice());
    s.table.commit_end(drops);
    let what = Step::Tick { upto, to };
    s.entries.push(Entry { who, what });
}

//! Plans of a timeline, and the timeline after them.
ghost use Rattle.std.specs.Prelude.{◌≡◌, ℕ, ◌<◌, ◌≤◌, ◌+◌, ◌++◌, ◌&&◌, ◌||◌, cond, length, flat_map, IfOk, OnOk};
ghost use Rattle.std.specs.List.{list_any};
ghost use Rattle.std.specs.Ordering.{eq_by_cmp};
ghost use Rattle.gt_base.specs.declared.events.Event.{Event};
ghost use Rattle.gt_base.specs.declared.events.Fluent.{Fluent};
ghost use Rattle.gt_base.specs.Sets.{has, members};
ghost use Rattle.gtrbac_model.specs.Conflict.{won as is_won, after};
ghost use Rattle.gtrbac_model.specs.Same.{same_fluent};
ghost use Rattle.gtrbac_model.specs.Status.{differ};
ghost use Rattle.delay_agenda.specs.Due.{pending_cmp};
ghost use Rattle.delay_agenda.specs.declared.pairs.Pending.{Pending as Pair};
ghost use Rattle.duration_limits.specs.Aged.{minute_after};
ghost use Rattle.duration_limits.specs.Since.{since_in};
ghost use Rattle.gt_base.specs.Happening.{HappenedView};
ghost use Rattle.gtrbac_model.specs.Instant.{Settled};
ghost use Rattle.instant_bases.specs.Timelines.{StandsFor, base_in};
ghost use Rattle.time_engine.specs.Kept.{view_of, room_of};
ghost use Rattle.time_engine.specs.Plans.{joins, joins_of, IsPlan, Fits, IsAfter, IsTimeline};

use crate::dues::base;
use crate::grounds::Ground;
use crate::plans::Plan;
use crate::states::TimelineState;
use crate::traces::push_closed;
use delay_agenda::{Agenda, Pending};
use duration_limits::Ages;
use gt_base::{Event, EventSet, Fluent, Happened, Instant, List, Memory, Status, Trigger};
use instant_bases::pass_all;
use priority_conflict::{Contest, next_status, winners};
use std::alloc::Global;
use trigger_rules::met_in;

/// What closing the timeline at the instant would give.
fn planned(s: &TimelineState, g: &Ground, to: Instant) -> Result<Plan, Memory>
    requires stands { StandsFor g.now.policy (view_of s.now) }
    requires kept { IsTimeline (view_of s.now) }
    requires later { s.now.present < to }
    ensures at { IfOk result (λ plan. plan.at ≡ to) }
    ensures plan { IfOk result (IsPlan g.now.policy (view_of s.now)) }
{
    let base = base(s, g.policy(), to)?;
    planned_over(s, g, base.copied()?, to)
}

/// The same, with what is due up to the instant put in order before, and the room for the plan made
/// after. For want of memory it may refuse. The timeline stays as it is seen.
pub(crate) fn prepared(s: &mut TimelineState, g: &Ground, to: Instant) -> Result<Plan, Memory>
    requires stands { StandsFor g.now.policy (view_of s.old) }
    requires kept { IsTimeline (view_of s.old) }
    requires later { s.old.present < to }
    ensures view { view_of s.new ≡ view_of s.old }
    ensures spare { s.new.signals.spare ≡ s.old.signals.spare }
    ensures low { room_of s.old ≤ room_of s.new }
    ensures quiet { s.new.quiet.set ≡ s.old.quiet.set }
    ensures at { IfOk result (λ plan. plan.at ≡ to) }
    ensures plan { IfOk result (IsPlan g.now.policy (view_of s.old)) }
    ensures room { IfOk result (λ plan. plan.need ≤ room_of s.new) }
{
    look_ahead(s, to)?;
    let plan = planned(s, g, to)?;
    make_room(s, plan.need())?;
    Ok(plan)
}

/// Puts what is due up to the instant in order. For want of memory it may refuse. The timeline stays
/// as it is seen.
fn look_ahead(s: &mut TimelineState, to: Instant) -> Result<(), Memory>
    ensures view { view_of s.new ≡ view_of s.old }
    ensures present { s.new.present ≡ s.old.present }
    ensures spare { s.new.signals.spare ≡ s.old.signals.spare }
    ensures low { room_of s.old ≤ room_of s.new }
    ensures quiet { s.new.quiet.set ≡ s.old.quiet.set }
{
    s.pending.look_ahead(to)
}

/// The same, over its base.
fn planned_over(s: &TimelineState, g: &Ground, base: Happened, to: Instant) -> Result<Plan, Memory>
    requires { base.set ≡ base_in g.now.policy (view_of s.now) to }
    ensures at { IfOk result (λ plan. plan.at ≡ to) }
    ensures plan { IfOk result (IsPlan g.now.policy (view_of s.now)) }
{
    let x = g.settle(&base, &s.status)?;
    planned_by(s, g, base, &x, to)
}

/// The same, by the one set that its base settles to.
fn planned_by(
    s: &TimelineState,
    g: &Ground,
    base: Happened,
    x: &Contest,
    to: Instant,
) -> Result<Plan, Memory>
    requires base { base.set ≡ base_in g.now.policy (view_of s.now) to }
    requires settled { Settled g.now.policy.triggers base.set (has s.now.status.set) x.now }
    requires only { (y : HappenedView)
        → Settled g.now.policy.triggers base.set (has s.now.status.set) y → y ≡ x.now }
    ensures at { IfOk result (λ plan. plan.at ≡ to) }
    ensures plan { IfOk result (IsPlan g.now.policy (view_of s.now)) }
{
    let set = x.set().copied()?;
    let won = winners(s.alloc, &set)?;
    let status = status_after(&s.status, &won, &set)?;
    let triggers = g.policy().triggers().as_slice();
    let joining = heads(s.alloc, triggers, x, &s.status, to)?;
    Ok(Plan {
        at: to,
        base,
        set,
        won,
        status,
        joining: List::from(joining),
    })
}

/// The status after the set, whose winners these are.
fn status_after(before: &Status, won: &EventSet, set: &Happened) -> Result<Status, Memory>
    requires { (e : Event) → has won.now.set e ≡ is_won set.now.set e }
    ensures { IfOk result (λ s. (f : Fluent) → has s.set f
        ≡ after set.now.set (has before.now.set) f) }
{
    let mut status = before.copied()?;
    status.reserve(won.len())?;
    next_status(&mut status, won);
    Ok(status)
}

/// The heads of the delayed triggers that are met, with their due instants.
fn heads(
    alloc: Global,
    triggers: &[Trigger],
    x: &Contest,
    before: &Status,
    at: Instant,
) -> Result<Vec<Pending>, Memory>
    ensures { IfOk result (λ pairs. pairs.items ≡ joins triggers.now
        (has before.now.set) x.now at) }
{
    let mut pairs = Vec::new(alloc);
    for trigger in triggers {
        push_head(&mut pairs, trigger, x, before, at)?;
    }
    Ok(pairs)
}

/// Adds the head of the trigger, if it is delayed and met, and due in time.
fn push_head(
    pairs: &mut Vec<Pending>,
    trigger: &Trigger,
    x: &Contest,
    before: &Status,
    at: Instant,
) -> Result<(), Memory>
    ensures { OnOk result (pairs.new.items ≡ pairs.old.items
        ++ joins_of (has before.now.set) x.now at trigger.now) }
{
    if trigger.delay > 0 && met_in(trigger, x, before) {
        if let Some(due) = later(at, trigger.delay) {
            pairs.push(Pending {
                due,
                event: trigger.head,
            })?;
        }
    }
    Ok(())
}

/// The instant that many minutes later, if there is one.
pub(crate) fn later(t: Instant, minutes: u32) -> Option<Instant>
    ensures { result ≡ minute_after t minutes }
{
    Instant::new(t.minute().checked_add(minutes)?)
}

/// Makes room for a plan that needs this much.
fn make_room(s: &mut TimelineState, need: usize) -> Result<(), Memory>
    ensures view { view_of s.new ≡ view_of s.old }
    ensures spare { s.new.signals.spare ≡ s.old.signals.spare }
    ensures low { room_of s.old ≤ room_of s.new }
    ensures room { OnOk result (need ≤ room_of s.new) }
    ensures quiet { s.new.quiet.set ≡ s.old.quiet.set }
{
    s.pending.reserve(need)?;
    s.ages.reserve(need)?;
    s.trace.reserve(need)
}

/// Follows a plan, into room that was made before.
pub(crate) fn follow(s: &mut TimelineState, p: Plan)
    requires fits { Fits (view_of s.old) p }
    requires room { p.need ≤ room_of s.old }
    ensures after { IsAfter (view_of s.old) p (view_of s.new) }
    ensures spare { s.new.signals.spare ≡ s.old.signals.spare }
    ensures quiet { s.new.quiet.set ≡ s.old.quiet.set }
{
    let Plan {
        at,
        base,
        set,
        won,
        status,
        joining,
    } = p;
    s.pending.forget(at);
    put_all(&mut s.pending, joining.as_slice());
    note_changes(&mut s.ages, &s.status, &status, won.as_slice(), at);
    s.status = status;
    push_closed(&mut s.trace, at, base, set);
    s.signals.clear();
    pass_all(&mut s.watches, at);
    s.present = at;
}

/// Puts the pairs in, into room that was made before.
fn put_all(pending: &mut Agenda, pairs: &[Pending])
    requires { length pairs.now ≤ pending.old.spare }
    ensures { (q : Pair) → has pending.new.set q
        ≡ (has pending.old.set q || list_any (eq_by_cmp pending_cmp q) pairs.now) }
{
    for q in pairs {
        pending.put(q.due, q.event);
    }
}

/// Notes the instant for the fluents of these events that are not as they were.
fn note_changes(ages: &mut Ages, before: &Status, status: &Status, won: &[Event], at: Instant)
    requires { length won.now ≤ ages.old.spare }
    ensures birth { ages.new.birth ≡ ages.old.birth }
    ensures since { (f : Fluent) → since_in ages.new f
        ≡ cond (differ (has status.now.set f) (has before.now.set f)
        && list_any (λ e. same_fluent e.fluent f) won.now) at (since_in ages.old f) }
{
    for e in won {
        let changed = are_apart(status.is_on(e.fluent), before.is_on(e.fluent));
        note_change(ages, e.fluent, changed, at);
    }
}

/// Whether the two are not the same.
fn are_apart(a: bool, b: bool) -> bool
    ensures { result ≡ differ a b }
{
    if a { !b } else { b }
}

/// Notes the instant for the fluent, if it changed.
fn note_change(ages: &mut Ages, f: Fluent, changed: bool, at: Instant)
    requires { 1 ≤ ages.old.spare }
    ensures birth { ages.new.birth ≡ ages.old.birth }
    ensures since { (g : Fluent) → since_in ages.new g
        ≡ cond (changed && same_fluent f g) at (since_in ages.old g) }
    ensures spare { ages.old.spare ≤ ages.new.spare + 1 }
{
    if changed {
        ages.changed(f, at);
    }
}

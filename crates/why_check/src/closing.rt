//! The running state after an instant is closed with its set, and after a request.
ghost use Rattle.std.specs.Prelude.{◌≡◌, ℕ, ◌<◌, ◌≤◌, ◌+◌, ◌-◌, ◌^◌, ◌++◌, cond, flat_map, nat_eq, length, Some, IfOk, OnOk};
ghost use Rattle.std.specs.List.{list_any};
ghost use Rattle.gt_base.specs.declared.events.Fluent.{Fluent as FluentOf};
ghost use Rattle.gt_base.specs.Sets.{has};
ghost use Rattle.gt_base.specs.declared.limits.TheConstants.{LAST_MINUTE};
ghost use Rattle.gtrbac_model.specs.Conflict.{after};
ghost use Rattle.gtrbac_model.specs.Same.{same_fluent};
ghost use Rattle.gtrbac_model.specs.Status.{differ};
ghost use Rattle.duration_limits.specs.Since.{since_in};
ghost use Rattle.indexmap.specs.IndexMap.{get};
ghost use Rattle.session_table.specs.Tables.{NotBefore, table_of, closed_at};
ghost use Rattle.why_check.specs.Kept.{IsAnsweredAt, IsClosed, IsAsked, under, joins_at, with_signals};

use crate::bases::{put_heads, queue};
use crate::blocking::Peaks;
use crate::replays::Replay;
use crate::sessions::{Answering, apply};
use duration_limits::Ages;
use gt_base::{Actor, Fluent, Instant, Memory, Prioritised, Reply, Request, Signal, Status};
use indexmap::IndexMap;
use policy_book::Policy;
use session_table::Sessions;
use std::alloc::Global;

/// Plays a request with its reply.
pub(crate) fn ask(
    s: &mut Replay,
    policy: &Policy,
    actor: Actor,
    request: &Request,
    reply: &Reply,
) -> Result<(), Memory>
    requires few { s.old.table.begun < 2 ^ 32 - 1 }
    requires answered { IsAnsweredAt policy.now.policy.edges policy.now.policy.caps
        (has s.old.status.set) s.old.present (table_of s.old.table) actor request.now reply.now }
    ensures { OnOk result (IsAsked s.old actor request.now reply.now s.new) }
{
    policy.keeps();
    queue(s.alloc, &mut s.due, *request, reply)?;
    let by = Answering {
        edges: policy.edges(),
        caps: policy.caps(),
        status: &s.status,
        instant: s.present,
    };
    apply(&mut s.table, &mut s.waiting, &by, actor, *request, reply)
}

/// Closes the instant with its set.
pub(crate) fn close(s: &mut Replay, policy: &Policy, to: Instant, x: &Peaks) -> Result<(), Memory>
    requires later { s.old.present < to }
    requires charged { NotBefore s.old.table.charged_to s.old.present }
    ensures { OnOk result (IsClosed policy.now.policy s.old x.now to s.new) }
{
    put_delayed(s.alloc, &mut s.due, policy, x, &s.status, to)?;
    turn(&mut s.ages, &mut s.status, x, to)?;
    s.waiting = ended(s.alloc, &mut s.table, policy, s.present, to, &s.status)?;
    s.present = to;
    Ok(())
}

/// Puts the heads of the delayed triggers that are met in the set under their minutes.
fn put_delayed(
    alloc: Global,
    due: &mut IndexMap<u32, Vec<Prioritised>>,
    policy: &Policy,
    x: &Peaks,
    before: &Status,
    at: Instant,
) -> Result<(), Memory>
    ensures { OnOk result ((k : ℕ) → k ≤ LAST_MINUTE
        → under (get nat_eq due.new k) (λ v. v.items) ≡ under (get nat_eq due.old k) (λ v. v.items)
        ++ flat_map (joins_at (has before.now.set) x.now at k) policy.now.policy.triggers) }
{
    put_heads(alloc, due, policy.triggers().as_slice(), x, before, at)
}

/// Turns the status to that after the set, and notes the instant for the fluents that it changes.
fn turn(ages: &mut Ages, status: &mut Status, x: &Peaks, at: Instant) -> Result<(), Memory>
    ensures status { OnOk result ((f : FluentOf)
        → has status.new.set f ≡ after x.now (has status.old.set) f) }
    ensures birth { OnOk result (ages.new.birth ≡ ages.old.birth) }
    ensures since { OnOk result ((f : FluentOf) → since_in ages.new f
        ≡ cond (differ (has status.new.set f) (has status.old.set f)) at (since_in ages.old f)) }
{
    let events = x.set().events();
    ages.reserve(events.len())?;
    status.reserve(events.len())?;
    turn_all(ages, status, x, events, at);
    Ok(())
}

/// Turns the fluents of these events, into room that was made before.
fn turn_all(ages: &mut Ages, status: &mut Status, x: &Peaks, events: &[Prioritised], at: Instant)
    requires ages { length events.now ≤ ages.old.spare }
    requires status { length events.now ≤ status.old.spare }
    ensures status { (f : FluentOf) → has status.new.set f
        ≡ cond (list_any (λ o. same_fluent o.event.fluent f) events.now)
        (after x.now (has status.old.set) f) (has status.old.set f) }
    ensures birth { ages.new.birth ≡ ages.old.birth }
    ensures since { (f : FluentOf) → since_in ages.new f
        ≡ cond (differ (has status.new.set f) (has status.old.set f)) at (since_in ages.old f) }
{
    for e in events {
        turn_fluent(ages, status, x, e.event.fluent, at);
    }
}

/// Turns the fluent to what it is after the set, and notes the instant where that changes it.
fn turn_fluent(ages: &mut Ages, status: &mut Status, x: &Peaks, f: Fluent, at: Instant)
    requires ages { 1 ≤ ages.old.spare }
    requires status { 1 ≤ status.old.spare }
    ensures status { (g : FluentOf) → has status.new.set g
        ≡ cond (same_fluent f g) (after x.now (has status.old.set) g) (has status.old.set g) }
    ensures birth { ages.new.birth ≡ ages.old.birth }
    ensures since { (g : FluentOf) → since_in ages.new g
        ≡ cond (differ (has status.new.set g) (has status.old.set g)) at (since_in ages.old g) }
    ensures room { ages.old.spare ≤ ages.new.spare + 1 }
    ensures spare { status.old.spare ≤ status.new.spare + 1 }
{
    let on = x.is_on_after(f, status);
    if are_apart(on, status.is_on(f)) {
        status.set(f, on);
        ages.changed(f, at);
    }
}

/// Whether the two are not the same.
fn are_apart(a: bool, b: bool) -> bool
    ensures { result ≡ differ a b }
{
    if a { !b } else { b }
}

/// Ends the instants of the table before this one: the signals that then wait.
fn ended(
    alloc: Global,
    table: &mut Sessions,
    policy: &Policy,
    present: Instant,
    to: Instant,
    status: &Status,
) -> Result<Vec<Signal>, Memory>
    requires later { present < to }
    requires charged { NotBefore table.old.charged_to present }
    ensures table { IfOk result (λ waiting. with_signals (table_of table.new) waiting.items
        ≡ closed_at policy.now.policy.edges policy.now.policy.caps (has status.now.set) present to
        (table_of table.old)) }
    ensures charged { IfOk result (λ waiting. table.new.charged_to ≡ Some to) }
{
    policy.keeps();
    let ended = table.end_instants(policy.edges(), policy.caps(), present, to, status)?;
    Vec::from_slice(alloc, ended.as_slice())
}

//! The base of an instant, from the running state, and what comes to be due.
ghost use Rattle.std.specs.Prelude.{◌≡◌, ℕ, ◌<◌, ◌≤◌, ◌++◌, [], ◌∷◌, cond, nat_eq, flat_map, IfOk, OnOk};
ghost use Rattle.gt_base.specs.Sets.{has};
ghost use Rattle.gt_base.specs.declared.limits.TheConstants.{LAST_MINUTE};
ghost use Rattle.duration_limits.specs.Aged.{minute_after};
ghost use Rattle.gtrbac_model.specs.Base.{queued_at};
ghost use Rattle.indexmap.specs.IndexMap.{get};
ghost use Rattle.why_check.specs.Kept.{under, waiting_for, raised_in, base_in, joins_at};

use crate::blocking::Peaks;
use crate::meeting::met_in;
use crate::periods::{is_next, push_limited, push_periodic};
use crate::replays::Replay;
use crate::showing::set_of_lists;
use gt_base::{Happened, Instant, Memory, Prioritised, Reply, Request, Signal, Status, Trigger};
use indexmap::IndexMap;
use policy_book::Policy;
use std::alloc::Global;

/// The base at an instant after now and before which nothing happens.
pub(crate) fn base(s: &Replay, policy: &Policy, t: Instant) -> Result<Happened, Memory>
    requires { s.now.ages.birth < t }
    ensures { IfOk result (λ b. b.set ≡ base_in policy.now.policy s.now t) }
{
    let raised = raised(s, policy, t)?;
    set_of_lists(s.alloc, &raised, signals(s, t))
}

/// The signals of the minute after now.
fn signals(s: &Replay, t: Instant) -> &[Signal]
    ensures { result.now ≡ waiting_for s.now.present s.now.waiting.items t }
{
    if is_next(s.present, t) {
        &s.waiting
    } else {
        &[]
    }
}

/// What is raised at the instant.
fn raised(s: &Replay, policy: &Policy, t: Instant) -> Result<Vec<Prioritised>, Memory>
    requires { s.now.ages.birth < t }
    ensures { IfOk result (λ xs. xs.items ≡ raised_in policy.now.policy s.now t) }
{
    policy.keeps();
    let periods = policy.periods().as_slice();
    let mut raised = Vec::new(s.alloc);
    push_periodic(
        &mut raised,
        periods,
        policy.entries().as_slice(),
        s.ages.birth(),
        t,
    )?;
    raised.extend_from_slice(due_at(&s.due, t.minute()))?;
    push_limited(
        &mut raised,
        periods,
        policy.limits().as_slice(),
        &s.status,
        &s.ages,
        t,
    )?;
    Ok(raised)
}

/// What is due at the minute.
fn due_at(due: &IndexMap<u32, Vec<Prioritised>>, t: u32) -> &[Prioritised]
    ensures { result.now ≡ under (get nat_eq due.now t) (λ v. v.items) }
{
    match due.get(&t) {
        Some(events) => events.as_slice(),
        None => &[],
    }
}

/// Puts the event under its minute.
fn put(
    alloc: Global,
    due: &mut IndexMap<u32, Vec<Prioritised>>,
    t: u32,
    e: Prioritised,
) -> Result<(), Memory>
    ensures { OnOk result ((k : ℕ) → under (get nat_eq due.new k) (λ v. v.items)
        ≡ cond (nat_eq t k) (under (get nat_eq due.old t) (λ v. v.items) ++ e ∷ [])
        (under (get nat_eq due.old k) (λ v. v.items))) }
{
    push_event(due.entry(t)?.or_insert(Vec::new(alloc)), e)
}

/// Puts the event at the end.
fn push_event(events: &mut Vec<Prioritised>, e: Prioritised) -> Result<(), Memory>
    ensures { OnOk result (events.new.items ≡ events.old.items ++ e ∷ []) }
{
    events.push(e)?;
    Ok(())
}

/// Puts the event under its minute, where one was queued.
pub(crate) fn queue(
    alloc: Global,
    due: &mut IndexMap<u32, Vec<Prioritised>>,
    request: Request,
    reply: &Reply,
) -> Result<(), Memory>
    ensures { OnOk result ((k : ℕ) → under (get nat_eq due.new k) (λ v. v.items)
        ≡ under (get nat_eq due.old k) (λ v. v.items) ++ queued_at k request reply.now) }
{
    match (request, reply) {
        (Request::Raise { head, delay: _ }, Reply::Queued(t)) => put(alloc, due, t.minute(), head),
        _ => Ok(()),
    }
}

/// Puts the heads of the delayed triggers that are met under their minutes.
pub(crate) fn put_heads(
    alloc: Global,
    due: &mut IndexMap<u32, Vec<Prioritised>>,
    rules: &[Trigger],
    x: &Peaks,
    before: &Status,
    at: Instant,
) -> Result<(), Memory>
    ensures { OnOk result ((k : ℕ) → k ≤ LAST_MINUTE
        → under (get nat_eq due.new k) (λ v. v.items) ≡ under (get nat_eq due.old k) (λ v. v.items)
        ++ flat_map (joins_at (has before.now.set) x.now at k) rules.now) }
{
    for r in rules {
        put_head(alloc, due, r, x, before, at)?;
    }
    Ok(())
}

/// Puts the head of the trigger under its minute, if it is delayed and met, and due in time.
fn put_head(
    alloc: Global,
    due: &mut IndexMap<u32, Vec<Prioritised>>,
    r: &Trigger,
    x: &Peaks,
    before: &Status,
    at: Instant,
) -> Result<(), Memory>
    ensures { OnOk result ((k : ℕ) → k ≤ LAST_MINUTE
        → under (get nat_eq due.new k) (λ v. v.items) ≡ under (get nat_eq due.old k) (λ v. v.items)
        ++ joins_at (has before.now.set) x.now at k r.now) }
{
    if r.delay > 0 && met_in(r, x, before) {
        if let Some(t) = later(at, r.delay) {
            put(alloc, due, t.minute(), r.head)?;
        }
    }
    Ok(())
}

/// The instant that many minutes later, if there is one.
fn later(t: Instant, minutes: u32) -> Option<Instant>
    ensures { result ≡ minute_after t minutes }
{
    Instant::new(t.minute().checked_add(minutes)?)
}

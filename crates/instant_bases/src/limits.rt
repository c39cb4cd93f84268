//! What the duration limits raise at an instant, and when they raise something next.
ghost use Rattle.std.specs.Prelude.{◌≡◌, ℕ, ◌<◌, ◌≤◌, ◌+◌, ◌*◌, ◌-◌, ◌++◌, max, length, OnOk, IfSome};
ghost use Rattle.gt_base.specs.declared.events.Fluent.{Fluent};
ghost use Rattle.gt_base.specs.declared.policies.LimitRule.{LimitRule as LimitRuleOf};
ghost use Rattle.gt_base.specs.Sets.{has};
ghost use Rattle.gt_base.specs.declared.limits.TheConstants.{LAST_MINUTE, MAX_LIMITS};
ghost use Rattle.gtrbac_model.specs.Base.{limited_from, is_ripe};
ghost use Rattle.gtrbac_model.specs.History.{is_some_item};
ghost use Rattle.duration_limits.specs.Since.{since_in};
ghost use Rattle.duration_limits.specs.Following.{in_period};
ghost use Rattle.instant_bases.specs.Nexts.{IsNextOf, ending};

use crate::least::{earlier, known, minute_after, minute_before};
use crate::periods::{is_inside, next_within};
use crate::raising::push_if;
use crate::watches::WatchedPeriod;
use duration_limits::Ages;
use gt_base::{Event, Instant, LimitId, LimitRule, Looks, Memory, PeriodId, Prioritised, Status};
use std::sync::ledger::Ledger;

/// Adds what the duration limits raise at t, on the status before it, in their order.
pub fn push_limited(
    raised: &mut Vec<Prioritised>,
    periods: &[WatchedPeriod],
    limits: &[LimitRule],
    status: &Status,
    ages: &Ages,
    t: Instant,
) -> Result<(), Memory>
    requires { length limits.now ≤ MAX_LIMITS }
    ensures { OnOk result (raised.new.items ≡ raised.old.items
        ++ limited_from periods.now (has status.now.set) (since_in ages.now) 0 limits.now t) }
{
    for n in 0..limits.len() {
        let limit = &limits[n];
        let ripe = is_ripe(periods, LimitId(n as u32), limit, status, ages, t);
        push_if(raised, ripe, ended(limit))?;
    }
    Ok(())
}

/// Whether the limit of this number ends its condition at t.
fn is_ripe(
    periods: &[WatchedPeriod],
    id: LimitId,
    limit: &LimitRule,
    status: &Status,
    ages: &Ages,
    t: Instant,
) -> bool
    ensures { result ≡ is_ripe periods.now (has status.now.set)
        (since_in ages.now) id.0 limit.now t }
{
    ages.ripe(id, limit, status, t) && is_there(periods, limit.period, t)
}

/// Whether the instant is in the period, if there is one.
fn is_there(periods: &[WatchedPeriod], period: Option<PeriodId>, t: Instant) -> bool
    ensures { (l : LimitRuleOf) → l.period ≡ period → result ≡ in_period periods.now l t }
{
    match period {
        Some(id) => is_inside(periods, id, t),
        None => true,
    }
}

/// The converse of the limit's condition, at its priority.
fn ended(limit: &LimitRule) -> Prioritised
    ensures { result ≡ ending limit.now }
{
    let event = Event {
        on: limit.cond.on,
        fluent: limit.cond.fluent,
    };
    Prioritised {
        prio: limit.prio,
        event: event.converse(),
    }
}

/// The least instant after now at which one of the duration limits ends its condition while the
/// status stays, none exactly where there is none, and how often limits are asked for their age and
/// periods for their minutes: at most each limit once and its period once. It takes no memory.
pub fn next_limited_in_looks<L: Ledger>(
    periods: &[WatchedPeriod],
    limits: &[LimitRule],
    status: &Status,
    ages: &Ages,
    now: Instant,
    looks: &mut Looks<L>,
) -> Option<Instant>
    requires few { length limits.now ≤ MAX_LIMITS }
    requires past { (f : Fluent) → since_in ages.now f ≤ now }
    ensures next { IsNextOf (λ t. is_some_item (limited_from periods.now (has status.now.set)
        (since_in ages.now) 0 limits.now t)) now result }
    ensures cost { looks.new ≤ looks.old + 2 * length limits.now }
{
    let mut next = None;
    for n in 0..limits.len() {
        let id = LimitId(n as u32);
        let ripe = next_ripe(periods, id, &limits[n], status, ages, now, looks);
        next = earlier(next, ripe);
    }
    next
}

/// The least instant after now at which the limit of this number ends its condition.
fn next_ripe<L: Ledger>(
    periods: &[WatchedPeriod],
    id: LimitId,
    limit: &LimitRule,
    status: &Status,
    ages: &Ages,
    now: Instant,
    looks: &mut Looks<L>,
) -> Option<Instant>
    requires { since_in ages.now limit.now.cond.fluent ≤ now }
    ensures next { IsNextOf (is_ripe periods.now (has status.now.set)
        (since_in ages.now) id.0 limit.now) now result }
    ensures cost { looks.new ≤ looks.old + 2 }
{
    looks.look();
    match ages.ripe_from(id, limit, status) {
        Some(from) => next_there(periods, limit.period, later_start(from, now), looks),
        None => None,
    }
}

/// Now, or the minute before the other instant where that is after now.
fn later_start(from: Instant, now: Instant) -> Instant
    ensures { result ≡ max (from - 1) now }
{
    if now < from { minute_before(from) } else { now }
}

/// The least instant after this one that is in the period, if there is one.
fn next_there<L: Ledger>(
    periods: &[WatchedPeriod],
    period: Option<PeriodId>,
    after: Instant,
    looks: &mut Looks<L>,
) -> Option<Instant>
    ensures next { (l : LimitRuleOf) → l.period ≡ period
        → IsNextOf (in_period periods.now l) after result }
    ensures bound { IfSome result (λ t. t ≤ LAST_MINUTE) }
    ensures cost { looks.new ≤ looks.old + 1 }
{
    match period {
        Some(id) => known(next_within(periods, id, after, looks)),
        None => known(minute_after(after)),
    }
}

//! What the periodic entries and the duration limits raise at an instant.
ghost use Rattle.std.specs.Prelude.{◌≡◌, ◌<◌, ◌≤◌, ◌+◌, ◌-◌, ◌++◌, nat_eq, flat_map, length, MatchOption, None, Some, OnOk};
ghost use Rattle.gt_base.specs.declared.policies.LimitRule.{LimitRule as LimitRuleOf};
ghost use Rattle.gt_base.specs.Sets.{has};
ghost use Rattle.gt_base.specs.declared.limits.TheConstants.{MAX_LIMITS};
ghost use Rattle.gtrbac_model.specs.Base.{when, turned, raised_by, period_test, limited_from, is_ripe};
ghost use Rattle.gtrbac_model.specs.Graph.{item_at};
ghost use Rattle.gtrbac_model.specs.Period.{inside, starts};
ghost use Rattle.duration_limits.specs.Since.{since_in};
ghost use Rattle.duration_limits.specs.Following.{in_period};
ghost use Rattle.instant_bases.specs.Nexts.{ending};

use calendar_match::{inside, starts};
use duration_limits::Ages;
use gt_base::{
    Event, Form, Instant, LimitId, LimitRule, Memory, PeriodId, PeriodicEntry, Prioritised, Status,
};
use periodic_expr::Period;

/// The period of this number, if there is one.
fn period_at(periods: &[Period], id: PeriodId) -> Option<&Period>
    ensures { MatchOption result (item_at periods.now id.0 ≡ None)
        (λ p. item_at periods.now id.0 ≡ Some p.now) }
{
    periods.get(id.0 as usize)
}

/// Whether the period of this number is there at the instant.
fn is_inside(periods: &[Period], id: PeriodId, t: Instant) -> bool
    ensures { result ≡ period_test inside periods.now id t }
{
    match period_at(periods, id) {
        Some(p) => inside(p, t),
        None => false,
    }
}

/// Whether the period of this number starts at the instant.
fn is_start(periods: &[Period], id: PeriodId, t: Instant) -> bool
    ensures { result ≡ period_test starts periods.now id t }
{
    match period_at(periods, id) {
        Some(p) => starts(p, t),
        None => false,
    }
}

/// Adds the event at the end where the test is true.
fn push_if(raised: &mut Vec<Prioritised>, holds: bool, e: Prioritised) -> Result<(), Memory>
    ensures { OnOk result (raised.new.items ≡ raised.old.items ++ when holds e) }
{
    if holds {
        raised.push(e)?;
    }
    Ok(())
}

/// The converse, at the same priority.
fn turned(e: Prioritised) -> Prioritised
    ensures { result ≡ turned e }
{
    Prioritised {
        prio: e.prio,
        event: e.event.converse(),
    }
}

/// The minute before.
fn minute_before(t: Instant) -> Instant
    requires { 0 < t }
    ensures { result ≡ t - 1 }
{
    Instant::new(t.minute() - 1).unwrap()
}

/// Whether the second is the minute after the first.
pub(crate) fn is_next(first: Instant, t: Instant) -> bool
    ensures { result ≡ nat_eq t (first + 1) }
{
    t.minute() == first.minute() + 1
}

/// Adds what the periodic entries raise at t, after the birth, in their order.
pub(crate) fn push_periodic(
    raised: &mut Vec<Prioritised>,
    periods: &[Period],
    entries: &[PeriodicEntry],
    birth: Instant,
    t: Instant,
) -> Result<(), Memory>
    requires { birth < t }
    ensures { OnOk result (raised.new.items ≡ raised.old.items
        ++ flat_map (raised_by periods.now birth t) entries.now) }
{
    for e in entries {
        push_entry(raised, periods, *e, birth, t)?;
    }
    Ok(())
}

/// Adds what one entry raises.
fn push_entry(
    raised: &mut Vec<Prioritised>,
    periods: &[Period],
    e: PeriodicEntry,
    birth: Instant,
    t: Instant,
) -> Result<(), Memory>
    requires { birth < t }
    ensures { OnOk result (raised.new.items ≡ raised.old.items ++ raised_by periods.now birth t e) }
{
    match e.form {
        Form::Each => push_if(raised, is_inside(periods, e.period, t), e.head),
        Form::Start => push_if(raised, is_start(periods, e.period, t), e.head),
        Form::Span => push_span(raised, periods, e, birth, t),
    }
}

/// Adds the event where a span begins, and its converse where it ends.
fn push_span(
    raised: &mut Vec<Prioritised>,
    periods: &[Period],
    e: PeriodicEntry,
    birth: Instant,
    t: Instant,
) -> Result<(), Memory>
    requires after { birth < t }
    requires span { e.form ≡ Form.Span }
    ensures { OnOk result (raised.new.items ≡ raised.old.items ++ raised_by periods.now birth t e) }
{
    let is = is_inside(periods, e.period, t);
    let was = is_inside(periods, e.period, minute_before(t));
    push_if(raised, is && (is_next(birth, t) || !was), e.head)?;
    push_if(raised, was && !is, turned(e.head))
}

/// Adds what the duration limits raise at t, on the status before it, in their order.
pub(crate) fn push_limited(
    raised: &mut Vec<Prioritised>,
    periods: &[Period],
    limits: &[LimitRule],
    status: &Status,
    ages: &Ages,
    t: Instant,
) -> Result<(), Memory>
    requires { length limits.now ≤ MAX_LIMITS }
    ensures { OnOk result (raised.new.items ≡ raised.old.items
        ++ limited_from periods.now (has status.now.set) (since_in ages.now) 0 limits.now t) }
{
    for n in 0..limits.len() {
        let limit = &limits[n];
        let ripe = is_ripe(periods, LimitId(n as u32), limit, status, ages, t);
        push_if(raised, ripe, ended(limit))?;
    }
    Ok(())
}

/// Whether the limit of this number ends its condition at t.
fn is_ripe(
    periods: &[Period],
    id: LimitId,
    limit: &LimitRule,
    status: &Status,
    ages: &Ages,
    t: Instant,
) -> bool
    ensures { result ≡ is_ripe periods.now (has status.now.set)
        (since_in ages.now) id.0 limit.now t }
{
    ages.ripe(id, limit, status, t) && is_there(periods, limit.period, t)
}

/// Whether the instant is in the period, if there is one.
fn is_there(periods: &[Period], period: Option<PeriodId>, t: Instant) -> bool
    ensures { (l : LimitRuleOf) → l.period ≡ period → result ≡ in_period periods.now l t }
{
    match period {
        Some(id) => is_inside(periods, id, t),
        None => true,
    }
}

/// The converse of the limit's condition, at its priority.
fn ended(limit: &LimitRule) -> Prioritised
    ensures { result ≡ ending limit.now }
{
    let event = Event {
        on: limit.cond.on,
        fluent: limit.cond.fluent,
    };
    Prioritised {
        prio: limit.prio,
        event: event.converse(),
    }
}

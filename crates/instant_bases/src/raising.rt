//! What the periodic entries raise at an instant, and when they raise something next.
ghost use Rattle.std.specs.Prelude.{◌≡◌, ◌<◌, ◌≤◌, ◌+◌, ◌*◌, ◌++◌, ◌&&◌, nat_eq, flat_map, length, OnOk};
ghost use Rattle.gtrbac_model.specs.Base.{when, turned, raised_by};
ghost use Rattle.gtrbac_model.specs.History.{is_some_item};
ghost use Rattle.gtrbac_model.specs.Period.{inside};
ghost use Rattle.instant_bases.specs.Nexts.{IsNextOf, raises};

use crate::least::{earlier, minute_after, minute_before};
use crate::periods::{is_inside, is_start, keeps_on, next_begin, next_within, period_at};
use crate::watches::WatchedPeriod;
use gt_base::{Form, Instant, Looks, Memory, PeriodId, PeriodicEntry, Prioritised};
use std::sync::ledger::Ledger;

/// Adds the event at the end where the test is true.
pub(crate) fn push_if(
    raised: &mut Vec<Prioritised>,
    holds: bool,
    e: Prioritised,
) -> Result<(), Memory>
    ensures { OnOk result (raised.new.items ≡ raised.old.items ++ when holds e) }
{
    if holds {
        raised.push(e)?;
    }
    Ok(())
}

/// The converse, at the same priority.
fn turned(e: Prioritised) -> Prioritised
    ensures { result ≡ turned e }
{
    Prioritised {
        prio: e.prio,
        event: e.event.converse(),
    }
}

/// Adds what the periodic entries raise at t, after the birth, in their order.
pub fn push_periodic(
    raised: &mut Vec<Prioritised>,
    periods: &[WatchedPeriod],
    entries: &[PeriodicEntry],
    birth: Instant,
    t: Instant,
) -> Result<(), Memory>
    requires { birth < t }
    ensures { OnOk result (raised.new.items ≡ raised.old.items
        ++ flat_map (raised_by periods.now birth t) entries.now) }
{
    for e in entries {
        push_entry(raised, periods, *e, birth, t)?;
    }
    Ok(())
}

/// Adds what one entry raises.
fn push_entry(
    raised: &mut Vec<Prioritised>,
    periods: &[WatchedPeriod],
    e: PeriodicEntry,
    birth: Instant,
    t: Instant,
) -> Result<(), Memory>
    requires { birth < t }
    ensures { OnOk result (raised.new.items ≡ raised.old.items ++ raised_by periods.now birth t e) }
{
    match e.form {
        Form::Each => push_if(raised, is_inside(periods, e.period, t), e.head),
        Form::Start => push_if(raised, is_start(periods, e.period, t), e.head),
        Form::Span => push_span(raised, periods, e, birth, t),
    }
}

/// Adds the event where a span begins, and its converse where it ends.
fn push_span(
    raised: &mut Vec<Prioritised>,
    periods: &[WatchedPeriod],
    e: PeriodicEntry,
    birth: Instant,
    t: Instant,
) -> Result<(), Memory>
    requires after { birth < t }
    requires span { e.form ≡ Form.Span }
    ensures { OnOk result (raised.new.items ≡ raised.old.items ++ raised_by periods.now birth t e) }
{
    if !is_next(birth, t) && keeps_on(periods, e.period, t) {
        return Ok(());
    }
    let is = is_inside(periods, e.period, t);
    let was = is_inside(periods, e.period, minute_before(t));
    push_if(raised, is && (is_next(birth, t) || !was), e.head)?;
    push_if(raised, was && !is, turned(e.head))
}

/// Whether the second is the minute after the first.
fn is_next(birth: Instant, t: Instant) -> bool
    ensures { result ≡ nat_eq t (birth + 1) }
{
    t.minute() == birth.minute() + 1
}

/// The least instant after now at which one of the periodic entries raises something, none exactly
/// where there is none, and how often periods are asked for it: at most twice for each entry. It
/// takes no memory.
pub fn next_periodic_in_looks<L: Ledger>(
    periods: &[WatchedPeriod],
    entries: &[PeriodicEntry],
    birth: Instant,
    now: Instant,
    looks: &mut Looks<L>,
) -> Option<Instant>
    requires { birth ≤ now }
    ensures next { IsNextOf (λ t. is_some_item
        (flat_map (raised_by periods.now birth t) entries.now)) now result }
    ensures cost { looks.new ≤ looks.old + 2 * length entries.now }
{
    let mut next = None;
    for e in entries {
        next = earlier(next, next_entry(periods, *e, birth, now, looks));
    }
    next
}

/// The least instant after now at which the entry raises something.
fn next_entry<L: Ledger>(
    periods: &[WatchedPeriod],
    e: PeriodicEntry,
    birth: Instant,
    now: Instant,
    looks: &mut Looks<L>,
) -> Option<Instant>
    requires { birth ≤ now }
    ensures next { IsNextOf (raises periods.now birth e) now result }
    ensures cost { looks.new ≤ looks.old + 2 }
{
    match e.form {
        Form::Each => next_within(periods, e.period, now, looks),
        Form::Start => next_begin(periods, e.period, now, looks),
        Form::Span => next_span(periods, e, birth, now, looks),
    }
}

/// The least instant after now at which a span begins or ends.
fn next_span<L: Ledger>(
    periods: &[WatchedPeriod],
    e: PeriodicEntry,
    birth: Instant,
    now: Instant,
    looks: &mut Looks<L>,
) -> Option<Instant>
    requires after { birth ≤ now }
    requires span { e.form ≡ Form.Span }
    ensures next { IsNextOf (raises periods.now birth e) now result }
    ensures cost { looks.new ≤ looks.old + 2 }
{
    match period_at(periods, e.period) {
        Some(p) => {
            let edge = p.look_edge(now, looks);
            earlier(edge, first_minute(p, birth, now, looks))
        }
        None => None,
    }
}

/// The minute after the birth where now is the birth and the period is there.
fn first_minute<L: Ledger>(
    p: &WatchedPeriod,
    birth: Instant,
    now: Instant,
    looks: &mut Looks<L>,
) -> Option<Instant>
    requires { birth ≤ now }
    ensures next { IsNextOf (λ t. nat_eq t (birth + 1) && inside p.now t) now result }
    ensures cost { looks.new ≤ looks.old + 1 }
{
    if now != birth {
        return None;
    }
    match minute_after(now) {
        Some(t) if p.look_at(t, looks) => Some(t),
        _ => None,
    }
}

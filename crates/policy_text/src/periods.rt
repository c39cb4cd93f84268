//! The lines of the periods and the duration limits, each by number.
ghost use Rattle.std.specs.Prelude.{◌≡◌, ◌<◌, ◌++◌, true, length, nat_lt, option_map, None, Some, OnOk, IsTrue};
ghost use Rattle.gtrbac_model.specs.WholePolicy.{is_limit};
ghost use Rattle.policy_words.specs.Naming.{period_name};
ghost use Rattle.policy_words.specs.Canonical.{period_line, limit_line};
ghost use Rattle.policy_text.specs.Sections.{line_text, lines_by, timed_text, numbered};

use crate::declarations::push_line;
use gt_base::{LimitId, LimitRule, Memory, Name, PeriodId};
use periodic_expr::Period;
use policy_book::{Policy, named_cond};
use policy_lines::push_period;
use policy_words::Said;

/// Adds the line of one period, written from the period itself: a saying would need a copy of it.
fn push_period_line(
    text: &mut Vec<u8>,
    p: &Policy,
    n: PeriodId,
    period: &Period,
) -> Result<(), Memory>
    requires { n.0 < length p.now.names.periods }
    ensures { OnOk result (text.new.items ≡ text.old.items
        ++ line_text (period_line p.now.names (n.0, period.now))) }
{
    push_period(
        text,
        &p.period_name(n),
        period.first,
        period.last,
        &period.expr,
    )?;
    text.extend_from_slice(b"\n")
}

/// Adds the lines of all periods, by number.
fn push_periods(text: &mut Vec<u8>, p: &Policy) -> Result<(), Memory>
    ensures { OnOk result (text.new.items ≡ text.old.items
        ++ lines_by (period_line p.now.names) (numbered p.now.policy.periods)) }
{
    p.keeps();
    for n in 0..p.period_count() {
        push_period_line(text, p, PeriodId(n), p.period(PeriodId(n)))?;
    }
    Ok(())
}

/// The name of a limit's period.
fn named_period(p: &Policy, period: Option<PeriodId>) -> Option<Name>
    requires { IsTrue (elim period [
      | None ↦ true
      | Some q ↦ nat_lt q.0
          (length p.now.policy.periods)
    ]) }
    ensures { result ≡ option_map (period_name p.now.names) period }
{
    p.keeps();
    match period {
        Some(q) => Some(p.period_name(q)),
        None => None,
    }
}

/// Adds the line of one limit; whether it is armed at first is said by a line of its own.
fn push_limit(text: &mut Vec<u8>, p: &Policy, n: LimitId, limit: LimitRule) -> Result<(), Memory>
    requires number { n.0 < length p.now.names.limits }
    requires rule { IsTrue (is_limit p.now.policy limit) }
    ensures { OnOk result (text.new.items ≡ text.old.items
        ++ line_text (limit_line p.now.names (n.0, limit))) }
{
    push_line(
        text,
        &Said::Limit {
            name: p.limit_name(n),
            prio: limit.prio,
            cond: named_cond(p, limit.cond),
            most: limit.most,
            period: named_period(p, limit.period),
        },
    )
}

/// Adds the lines of all limits, by number.
fn push_limits(text: &mut Vec<u8>, p: &Policy) -> Result<(), Memory>
    ensures { OnOk result (text.new.items ≡ text.old.items
        ++ lines_by (limit_line p.now.names) (numbered p.now.policy.limits)) }
{
    p.keeps();
    let limits = p.limits().as_slice();
    for n in 0..p.limit_count() {
        push_limit(text, p, LimitId(n), limits[n as usize])?;
    }
    Ok(())
}

/// Adds the periods and the duration limits.
pub(crate) fn push_timed(text: &mut Vec<u8>, p: &Policy) -> Result<(), Memory>
    ensures { OnOk result (text.new.items ≡ text.old.items ++ timed_text p.now) }
{
    push_periods(text, p)?;
    push_limits(text, p)
}

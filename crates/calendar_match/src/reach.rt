//! Searches for the begins of an expression.
ghost use Rattle.std.specs.Prelude.{◌≡◌, ◌<◌, ◌≤◌, ◌+◌, ◌^◌, false, IfSome, IfNone, IsTrue};
ghost use Rattle.gtrbac_model.specs.Calendar.{interval_of};
ghost use Rattle.gtrbac_model.specs.Period.{begun_within};
ghost use Rattle.gtrbac_model.specs.Valid.{is_expr};
ghost use Rattle.calendar_match.specs.Reach.{unit_first, IsFirstBegin, IsLastBegin, HasNoBegin, IsCovered};
ghost use Rattle.calendar_match.specs.declared.calendars.TheConstants.{END};
ghost use Rattle.calendar_match.specs.declared.periods.TheConstants.{FIRST_MINUTE};

use crate::calendars::{first_minute, interval_of};
use crate::steps::{can_begin, step_ahead, step_back};
use periodic_expr::Expr;

/// The first minute of an interval of the length's calendar.
pub(crate) fn unit_start(e: &Expr, k: u64) -> u64
    requires { k ≤ END }
    ensures { result ≡ unit_first e.now k }
{
    first_minute(e.length().1, k)
}

/// The interval of the length's calendar that has the minute.
#[tactic(auto, using(gtrbac_model::proofs::Covers::begun, gtrbac_model::proofs::Covers::goes_on))]
pub(crate) fn unit_at(e: &Expr, m: u64) -> u64
    requires { m < END }
    ensures interval { result ≡ interval_of e.now.unit m }
    ensures begun { 2880 ≤ m → unit_first e.now result ≤ m }
    ensures goes_on { m < unit_first e.now (result + 1) }
    ensures bound { result ≤ END }
{
    interval_of(e.length().1, m)
}

/// The first begin from this minute on that is not after the minute `upto`.
#[tactic(auto, using(crate::proofs::Latest::search_more, crate::proofs::Latest::begins_none))]
pub(crate) fn first_begin(e: &Expr, from: u64, upto: u64) -> Option<u64>
    requires from_in { 2880 ≤ from }
    requires upto_in { upto < END }
    ensures some { IfSome result (λ m. IsFirstBegin e.now from upto m) }
    ensures none { IfNone result (HasNoBegin e.now from (upto + 1)) }
    ensures valid { IsTrue (is_expr e.now) }
{
    if !can_begin(e) {
        return None;
    }
    let mut m = from;
    'search: while m <= upto {
        let next = step_ahead(e, m);
        if next == m {
            return Some(m);
        }
        m = next;
    }
    None
}

/// The last begin up to the minute `upto` that is not before this one.
#[tactic(auto, using(crate::proofs::Latest::search_less))]
fn last_begin(e: &Expr, from: u64, upto: u64) -> Option<u64>
    requires from_in { 2880 ≤ from }
    requires upto_in { upto < END }
    ensures some { IfSome result (λ m. IsLastBegin e.now from upto m) }
    ensures none { IfNone result (HasNoBegin e.now from (upto + 1)) }
{
    let mut m = upto;
    'search: while from <= m {
        let before = step_back(e, m);
        if before == m {
            return Some(m);
        }
        m = before;
    }
    None
}

/// How far the last begin up to the unit k covers the units, where it covers that one: to before
/// this unit.
pub(crate) fn covered_to(e: &Expr, k: u64) -> Option<u64>
    requires low { FIRST_MINUTE < unit_first e.now (k + 1) }
    requires high { unit_first e.now k < END }
    ensures some { IfSome result (λ j. IsCovered e.now k j) }
    ensures none { IfNone result (begun_within e.now e.now.count k ≡ false) }
    ensures valid { IsTrue (is_expr e.now) }
{
    let count = u64::from(e.length().0);
    let m = last_begin(e, unit_start(e, k + 1 - count), unit_start(e, k))?;
    Some(unit_at(e, m) + count)
}

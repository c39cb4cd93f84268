//! The next start, the next instant inside, and the next edge.
ghost use Rattle.std.specs.Prelude.{◌≡◌, ◌<◌, ◌≤◌, ◌+◌, true, false, max, IfSome, IfNone, IsTrue, ◌-◌};
ghost use Rattle.gt_base.specs.declared.limits.TheConstants.{LAST_MINUTE};
ghost use Rattle.gtrbac_model.specs.Calendar.{minute_of, interval_of};
ghost use Rattle.gtrbac_model.specs.Period.{starts, inside, begun_within};
ghost use Rattle.gtrbac_model.specs.Valid.{is_expr};
ghost use Rattle.calendar_match.specs.Reach.{unit_first, IsFirstBegin, HasNoBegin, IsCovered};
ghost use Rattle.calendar_match.specs.Steps.{fills, repeats};
ghost use Rattle.calendar_match.specs.Next.{IsLeast, IsNever, IsNext, HasNone, IsHorizon, turns, outside};
ghost use Rattle.calendar_match.specs.declared.calendars.TheConstants.{END};

use crate::begins::{fills, repeats};
use crate::periods::{FIRST_MINUTE, inside, minute_of};
use crate::reach::{covered_to, first_begin, unit_at, unit_start};
use gt_base::Instant;
use periodic_expr::Period;

/// The minutes of a week.
const WEEK: u64 = 10_080;

/// The instant of a minute.
fn instant_of(m: u64) -> Instant
    requires low { FIRST_MINUTE ≤ m }
    requires high { m ≤ 1_104_494_399 }
    ensures { minute_of result ≡ m }
{
    Instant::new((m - FIRST_MINUTE) as u32).unwrap()
}

/// The later of the minute and the period's first instant.
fn within(p: &Period, from: u32) -> u32
    requires { from ≤ LAST_MINUTE + 1 }
    ensures start { result ≡ max from p.now.first }
    ensures bound { result ≤ LAST_MINUTE + 1 }
{
    let first = p.first.minute();
    if from < first { first } else { from }
}

/// The minute of the period's last instant.
fn end_of(p: &Period) -> u64
    ensures minute { result ≡ minute_of p.now.last }
    ensures bound { result ≤ 1_104_494_399 }
{
    minute_of(p.last)
}

/// The interval of the length's calendar at the minute.
fn unit_of(p: &Period, m: u64) -> u64
    requires { m ≤ 1_104_494_399 }
    ensures unit { result ≡ interval_of p.now.expr.unit m }
    ensures bound { result < END }
{
    unit_at(&p.expr, m)
}

/// The first minute of an interval of the length's calendar, by its number.
fn unit_start_of(p: &Period, k: u64) -> u64
    requires { k ≤ END }
    ensures { result ≡ unit_first p.now.expr k }
{
    unit_start(&p.expr, k)
}

/// The minute of the first begin of the period from this instant on, not after its last one.
fn first_begin_of(p: &Period, start: u32) -> Option<u64>
    requires { start ≤ LAST_MINUTE + 1 }
    ensures some { IfSome result (λ m. IsFirstBegin p.now.expr (minute_of start)
        (minute_of p.now.last) m) }
    ensures none { IfNone result (HasNoBegin p.now.expr (minute_of start)
        (minute_of p.now.last + 1)) }
    ensures valid { IsTrue (is_expr p.now.expr) }
    ensures bound { p.now.last ≤ LAST_MINUTE }
{
    first_begin(&p.expr, FIRST_MINUTE + u64::from(start), minute_of(p.last))
}

/// The least instant from this minute on at which the period starts.
#[tactic(auto, using(crate::proofs::Moves::start_found, crate::proofs::Moves::start_missing))]
fn start_from(p: &Period, from: u32) -> Option<Instant>
    requires { from ≤ LAST_MINUTE + 1 }
    ensures some { IfSome result (λ t. IsLeast (starts p.now) from t) }
    ensures none { IfNone result (IsNever (starts p.now) from) }
    ensures valid { IsTrue (is_expr p.now.expr) }
{
    match first_begin_of(p, within(p, from)) {
        Some(m) => Some(instant_of(m)),
        None => None,
    }
}

/// The least instant after this one at which the period starts, none exactly where there is none.
pub fn next_start(p: &Period, after: Instant) -> Option<Instant>
    ensures some { IfSome result (λ t. IsNext (starts p.now) after t) }
    ensures none { IfNone result (HasNone (starts p.now) after) }
{
    start_from(p, after.minute() + 1)
}

/// The least instant from this minute on that is inside.
#[tactic(auto, using(crate::proofs::Moves::inside_here, crate::proofs::Moves::inside_by_start, crate::proofs::Moves::inside_never))]
fn inside_from(p: &Period, from: u32) -> Option<Instant>
    requires { from ≤ LAST_MINUTE + 1 }
    ensures some { IfSome result (λ t. IsLeast (inside p.now) from t) }
    ensures none { IfNone result (IsNever (inside p.now) from) }
{
    let start = within(p, from);
    let Some(here) = Instant::new(start) else {
        return None;
    };
    if inside(p, here) {
        return Some(here);
    }
    start_from(p, start + 1)
}

/// The least instant after this one that is inside, none exactly where there is none.
pub fn next_inside(p: &Period, after: Instant) -> Option<Instant>
    ensures some { IfSome result (λ t. IsNext (inside p.now) after t) }
    ensures none { IfNone result (HasNone (inside p.now) after) }
{
    inside_from(p, after.minute() + 1)
}

/// How far the last begin up to the unit k covers the units.
fn covered_of(p: &Period, k: u64) -> Option<u64>
    requires low { FIRST_MINUTE < unit_first p.now.expr (k + 1) }
    requires high { unit_first p.now.expr k < END }
    ensures some { IfSome result (λ j. IsCovered p.now.expr k j) }
    ensures none { IfNone result (begun_within p.now.expr p.now.expr.count k ≡ false) }
{
    covered_to(&p.expr, k)
}

/// The instant after the period's last one.
fn past(p: &Period) -> Option<Instant>
    ensures some { IfSome result (λ t. t ≡ p.now.last + 1) }
    ensures none { IfNone result (LAST_MINUTE ≤ p.now.last) }
{
    Instant::new(p.last.minute() + 1)
}

/// Whether the begins fill the time of the period.
fn is_filled(p: &Period) -> bool
    ensures value { result ≡ fills p.now.expr }
    ensures valid { IsTrue (is_expr p.now.expr) }
{
    fills(&p.expr)
}

/// Whether its begins come again each week.
fn is_weekly(p: &Period) -> bool
    ensures value { result ≡ repeats p.now.expr }
    ensures valid { IsTrue (is_expr p.now.expr) }
{
    repeats(&p.expr)
}

/// The minute beyond which what was inside from this instant on stays inside.
fn horizon(p: &Period, after: Instant) -> u64
    requires { inside p.now after ≡ true }
    ensures horizon { IsHorizon p.now after result }
    ensures within { result ≤ minute_of p.now.last }
    ensures bound { result ≤ 1_104_494_399 }
{
    let end = end_of(p);
    if is_filled(p) {
        0
    } else if is_weekly(p) {
        end.min(minute_of(after) + WEEK)
    } else {
        end
    }
}

/// The least instant after one inside that is outside. Goes from one begin to the last one that its
/// length reaches.
fn outside_after(p: &Period, after: Instant) -> Option<Instant>
    requires { inside p.now after ≡ true }
    ensures some { IfSome result (λ t. IsNext (outside p.now) after t) }
    ensures none { IfNone result (HasNone (outside p.now) after) }
{
    let stop = horizon(p, after);
    let mut k = unit_of(p, minute_of(after)) + 1;
    let mut m = unit_start_of(p, k);
    'units: while m <= stop {
        let Some(j) = covered_of(p, k) else {
            return Some(instant_of(m));
        };
        k = j;
        m = unit_start_of(p, k);
    }
    past(p)
}

/// The least instant after this one at which being inside differs from the minute before, none
/// exactly where there is none.
pub fn next_edge(p: &Period, after: Instant) -> Option<Instant>
    ensures some { IfSome result (λ t. IsNext (turns p.now) after t) }
    ensures none { IfNone result (HasNone (turns p.now) after) }
{
    if inside(p, after) {
        return outside_after(p, after);
    }
    next_inside(p, after)
}

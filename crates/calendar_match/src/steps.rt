//! Steps over minutes at which an expression cannot begin.
ghost use Rattle.std.specs.Prelude.{◌≡◌, ◌<◌, ◌≤◌, ◌+◌, ◌-◌, ◌^◌, [], ◌∷◌, true, min, option_map, IfSome, IfNone, MatchOption, IsTrue};
ghost use Rattle.gtrbac_model.specs.Calendar.{first_minute, interval_of, number_within};
ghost use Rattle.gtrbac_model.specs.Period.{begins, selects};
ghost use Rattle.gtrbac_model.specs.Valid.{is_expr, is_set};
ghost use Rattle.calendar_match.specs.Steps.{IsAhead, IsBehind, IsPassed, IsPassedBack, picks_at, are_sets, can_select, can_begin, most_in};
ghost use Rattle.calendar_match.specs.declared.calendars.TheConstants.{END};

use crate::calendars::{first_minute, interval_of, number_within};
use crate::picks::{has_upto, last_picked, next_picked};
use gt_base::List;
use gtrbac_model::Calendar;
use periodic_expr::{Expr, ExprPart};

/// The first part and the others.
fn first_part(parts: &[ExprPart]) -> Option<(&ExprPart, &[ExprPart])>
    ensures { MatchOption result (parts.now ≡ []) (λ cut. parts.now ≡ cut.0.now ∷ cut.1.now) }
{
    match parts {
        [] => None,
        [part, more @ ..] => Some((part, more)),
    }
}

/// The first minute of the interval that has the minute.
fn start_of(c: Calendar, m: u64) -> u64
    requires { m < END }
    ensures { result ≡ first_minute c (interval_of c m) }
{
    first_minute(c, interval_of(c, m))
}

/// The first minute after the interval that has the minute.
fn end_of(c: Calendar, m: u64) -> u64
    requires { m < END }
    ensures { result ≡ first_minute c (interval_of c m + 1) }
{
    first_minute(c, interval_of(c, m) + 1)
}

/// The first minute of the inner interval number k, or that after the outer interval, from the
/// inner interval number n at the minute.
fn ahead_to(outer: Calendar, inner: Calendar, m: u64, n: u64, k: u64) -> u64
    requires minute { m < END }
    requires number { n ≡ number_within outer inner m }
    requires low { n ≤ k }
    requires high { k ≤ n + 999_999_999 }
    ensures { result
        ≡ min (first_minute inner (interval_of inner m + k - n))
        (first_minute outer (interval_of outer m + 1)) }
{
    first_minute(inner, interval_of(inner, m) + k - n).min(end_of(outer, m))
}

/// None where the set picks the number of the inner interval at the minute, else the first minute
/// after the numbers that it does not pick.
fn ahead_in_set(outer: Calendar, inner: Calendar, set: &Option<List<u32>>, m: u64) -> Option<u64>
    requires low { 2880 ≤ m }
    requires high { m < END }
    requires sets { IsTrue (is_set (option_map (λ l. l.items) set.now)) }
    ensures some { IfSome result
        (λ r. IsPassed (picks_at outer inner (option_map (λ l. l.items) set.now)) m r) }
    ensures none { IfNone result (picks_at outer inner (option_map (λ l. l.items) set.now) m
        ≡ true) }
{
    let n = number_within(outer, inner, m);
    match next_picked(set, n) {
        None => Some(end_of(outer, m)),
        Some(k) if k == n => None,
        Some(k) => Some(ahead_to(outer, inner, m, n, k)),
    }
}

/// The last minute before the inner interval after number k, from number n at the minute.
fn back_to(outer: Calendar, inner: Calendar, m: u64, n: u64, k: u64) -> u64
    requires minute { m < END }
    requires number { n ≡ number_within outer inner m }
    requires high { k ≤ n }
    ensures { result ≡ first_minute inner (interval_of inner m + k + 1 - n) - 1 }
{
    first_minute(inner, interval_of(inner, m) + k + 1 - n).saturating_sub(1)
}

/// The same back.
fn behind_in_set(outer: Calendar, inner: Calendar, set: &Option<List<u32>>, m: u64) -> Option<u64>
    requires low { 2880 ≤ m }
    requires high { m < END }
    requires sets { IsTrue (is_set (option_map (λ l. l.items) set.now)) }
    ensures some { IfSome result
        (λ r. IsPassedBack (picks_at outer inner (option_map (λ l. l.items) set.now)) m r) }
    ensures none { IfNone result (picks_at outer inner (option_map (λ l. l.items) set.now) m
        ≡ true) }
{
    let n = number_within(outer, inner, m);
    match last_picked(set, n) {
        None => Some(start_of(outer, m).saturating_sub(1)),
        Some(k) if k == n => None,
        Some(k) => Some(back_to(outer, inner, m, n, k)),
    }
}

/// None where the part picks at the minute, else the first minute at which it may pick again.
fn ahead_in_part(outer: Calendar, part: &ExprPart, m: u64) -> Option<u64>
    requires low { 2880 ≤ m }
    requires high { m < END }
    requires sets { IsTrue (is_set part.now.set) }
    ensures some { IfSome result (λ r. IsPassed (picks_at outer part.now.calendar part.now.set) m
        r) }
    ensures none { IfNone result (picks_at outer part.now.calendar part.now.set m ≡ true) }
{
    ahead_in_set(outer, part.calendar, &part.set, m)
}

/// None where the part picks at the minute, else the last minute before at which it may pick.
fn behind_in_part(outer: Calendar, part: &ExprPart, m: u64) -> Option<u64>
    requires low { 2880 ≤ m }
    requires high { m < END }
    requires sets { IsTrue (is_set part.now.set) }
    ensures some { IfSome result (λ r. IsPassedBack
        (picks_at outer part.now.calendar part.now.set) m r) }
    ensures none { IfNone result (picks_at outer part.now.calendar part.now.set m ≡ true) }
{
    behind_in_set(outer, part.calendar, &part.set, m)
}

/// The minute itself where it is the first of its interval, else the first after that.
fn next_first(c: Calendar, m: u64) -> u64
    requires low { 2880 ≤ m }
    requires high { m < END }
    ensures { IsAhead (selects c []) m result }
{
    if start_of(c, m) == m { m } else { end_of(c, m) }
}

/// The first minute from m on that the further parts do not rule out, m itself where they select
/// it.
fn ahead(above: Calendar, parts: &[ExprPart], m: u64) -> u64
    requires low { 2880 ≤ m }
    requires high { m < END }
    requires sets { IsTrue (are_sets parts.now) }
    ensures { IsAhead (selects above parts.now) m result }
{
    match first_part(parts) {
        None => next_first(above, m),
        Some((part, more)) => match ahead_in_part(above, part, m) {
            Some(later) => later,
            None => ahead(part.calendar, more, m),
        },
    }
}

/// The last minute up to m that the further parts do not rule out, m itself where they select it.
fn behind(above: Calendar, parts: &[ExprPart], m: u64) -> u64
    requires low { 2880 ≤ m }
    requires high { m < END }
    requires sets { IsTrue (are_sets parts.now) }
    ensures { IsBehind (selects above parts.now) m result }
{
    match first_part(parts) {
        None => start_of(above, m),
        Some((part, more)) => match behind_in_part(above, part, m) {
            Some(earlier) => earlier,
            None => behind(part.calendar, more, m),
        },
    }
}

/// The first minute from m on at which the expression may begin, m itself where it does.
pub(crate) fn step_ahead(e: &Expr, m: u64) -> u64
    requires low { 2880 ≤ m }
    requires high { m < END }
    ensures { IsAhead (begins e.now) m result }
{
    match first_part(e.parts().as_slice()) {
        None => m + 1,
        Some((part, more)) => ahead(part.calendar, more, m),
    }
}

/// The last minute up to m at which the expression may begin, m itself where it does.
pub(crate) fn step_back(e: &Expr, m: u64) -> u64
    requires low { 2880 ≤ m }
    requires high { m < END }
    ensures { IsBehind (begins e.now) m result }
{
    match first_part(e.parts().as_slice()) {
        None => 0,
        Some((part, more)) => behind(part.calendar, more, m),
    }
}

/// How many intervals of the inner calendar an interval of the outer one has at most.
pub(crate) fn most_in(outer: Calendar, inner: Calendar) -> u64
    ensures value { result ≡ most_in outer inner }
    ensures least { 1 ≤ result }
{
    match (outer, inner) {
        (Calendar::Years, Calendar::Months) => 12,
        (Calendar::Years, Calendar::Days) => 366,
        (Calendar::Years, Calendar::Hours) => 8784,
        (Calendar::Years, Calendar::Minutes) => 527_040,
        (Calendar::Months, Calendar::Days) => 31,
        (Calendar::Months, Calendar::Hours) => 744,
        (Calendar::Months, Calendar::Minutes) => 44_640,
        (Calendar::Weeks, Calendar::Days) => 7,
        (Calendar::Weeks, Calendar::Hours) => 168,
        (Calendar::Weeks, Calendar::Minutes) => 10_080,
        (Calendar::Days, Calendar::Hours) => 24,
        (Calendar::Days, Calendar::Minutes) => 1440,
        (Calendar::Hours, Calendar::Minutes) => 60,
        _ => 1,
    }
}

/// Whether the further parts pick a number that their intervals can have; else nothing ever begins.
fn can_select(above: Calendar, parts: &[ExprPart]) -> bool
    ensures { result ≡ can_select above parts.now }
{
    match parts {
        [] => true,
        [part, more @ ..] => {
            has_upto(most_in(above, part.calendar), &part.set) && can_select(part.calendar, more)
        }
    }
}

/// Whether each set has a number that can come. Else the expression never begins.
pub(crate) fn can_begin(e: &Expr) -> bool
    ensures value { result ≡ can_begin e.now }
    ensures valid { IsTrue (is_expr e.now) }
{
    match e.parts().as_slice() {
        [] => false,
        [part, more @ ..] => can_select(part.calendar, more),
    }
}

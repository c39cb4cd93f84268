//! Where an expression begins.
ghost use Rattle.std.specs.Prelude.{◌≡◌, ◌<◌, ◌≤◌, ◌^◌, IsTrue};
ghost use Rattle.gtrbac_model.specs.Period.{begins, selects};
ghost use Rattle.gtrbac_model.specs.Valid.{is_expr, is_same};
ghost use Rattle.gtrbac_model.specs.Selects.{last_of, last_calendar};
ghost use Rattle.calendar_match.specs.Steps.{take_all, fills_by, fills, dense_last, dense_by, is_fixed, repeats_from, repeats};
ghost use Rattle.calendar_match.specs.declared.calendars.TheConstants.{END};

use crate::calendars::{first_minute, interval_of, number_within};
use crate::picks::{is_dense, picks, picks_upto};
use crate::steps::most_in;
use gtrbac_model::Calendar;
use periodic_expr::{Expr, ExprPart};

/// Whether the further parts pick their numbers at the minute, which is the first of an interval of
/// the last part.
fn selects(above: Calendar, parts: &[ExprPart], m: u64) -> bool
    requires { m < END }
    ensures { result ≡ selects above parts.now m }
{
    match parts {
        [] => first_minute(above, interval_of(above, m)) == m,
        [part, more @ ..] => {
            picks(&part.set, number_within(above, part.calendar, m))
                && selects(part.calendar, more, m)
        }
    }
}

/// Whether the expression begins at the minute.
pub(crate) fn begins(e: &Expr, m: u64) -> bool
    requires { m < END }
    ensures { result ≡ begins e.now m }
{
    match e.parts().as_slice() {
        [] => false,
        [part, more @ ..] => selects(part.calendar, more, m),
    }
}

/// The calendar of the last of these parts, or the one above where there is none.
fn last_of(above: Calendar, parts: &[ExprPart]) -> Calendar
    ensures { result ≡ last_of above parts.now }
{
    match parts {
        [] => above,
        [part, more @ ..] => last_of(part.calendar, more),
    }
}

/// The calendar of the last part.
fn last_calendar(e: &Expr) -> Calendar
    ensures { result ≡ last_calendar e.now }
{
    match e.parts().as_slice() {
        [] => Calendar::Minutes,
        [part, more @ ..] => last_of(part.calendar, more),
    }
}

/// Whether each of the further parts takes every interval, be it as `all` or number by number.
fn take_all(above: Calendar, parts: &[ExprPart]) -> bool
    ensures { result ≡ take_all above parts.now }
{
    match parts {
        [] => true,
        [part, more @ ..] => {
            picks_upto(most_in(above, part.calendar), &part.set) && take_all(part.calendar, more)
        }
    }
}

/// Whether each interval of the last calendar is a begin.
fn always_begins(e: &Expr) -> bool
    ensures { result ≡ fills_by e.now.parts }
{
    match e.parts().as_slice() {
        [] => false,
        [part, more @ ..] => take_all(part.calendar, more),
    }
}

/// Whether the further parts pick all, but for the last one, which leaves no gap of so many
/// intervals.
fn dense_last(reach: u64, above: Calendar, parts: &[ExprPart]) -> bool
    requires { reach < 2 ^ 32 }
    ensures { result ≡ dense_last reach above parts.now }
{
    match parts {
        [] => true,
        [part, more @ ..] => {
            let most = most_in(above, part.calendar);
            (picks_upto(most, &part.set) && dense_last(reach, part.calendar, more))
                || (more.is_empty() && is_dense(reach, most, &part.set))
        }
    }
}

/// Whether begins leave no gap of so many intervals of the last calendar.
fn never_pauses(e: &Expr, reach: u64) -> bool
    requires { reach < 2 ^ 32 }
    ensures { result ≡ dense_by reach e.now.parts }
{
    match e.parts().as_slice() {
        [] => false,
        [part, more @ ..] => dense_last(reach, part.calendar, more),
    }
}

/// Whether two calendars are one, case by case, as the definition has it.
fn is_same(c: Calendar, unit: Calendar) -> bool
    ensures { result ≡ is_same c unit }
{
    match (c, unit) {
        (Calendar::Years, Calendar::Years) => true,
        (Calendar::Months, Calendar::Months) => true,
        (Calendar::Weeks, Calendar::Weeks) => true,
        (Calendar::Days, Calendar::Days) => true,
        (Calendar::Hours, Calendar::Hours) => true,
        (Calendar::Minutes, Calendar::Minutes) => true,
        _ => false,
    }
}

/// Whether each begin lasts to the next one, wherever it is: each interval of the last calendar is
/// a begin, or the length is of intervals of the last calendar, and its numbers leave no gap of so
/// many.
pub(crate) fn fills(e: &Expr) -> bool
    ensures value { result ≡ fills e.now }
    ensures valid { IsTrue (is_expr e.now) }
{
    let (count, unit) = e.length();
    let last = last_calendar(e);
    let count = u64::from(count);
    (always_begins(e) && most_in(last, unit) <= count)
        || (is_same(last, unit) && never_pauses(e, count))
}

/// Whether all intervals of a calendar are of one length: of years and months they are not.
fn is_fixed(c: Calendar) -> bool
    ensures { result ≡ is_fixed c }
{
    match c {
        Calendar::Years | Calendar::Months => false,
        _ => true,
    }
}

/// Whether all is taken from here down to a calendar of fixed length, so that weeks are alike.
fn repeats_from(above: Calendar, parts: &[ExprPart]) -> bool
    ensures { result ≡ repeats_from above parts.now }
{
    match parts {
        [] => is_fixed(above),
        [part, more @ ..] => {
            is_fixed(above)
                || (picks_upto(most_in(above, part.calendar), &part.set)
                    && repeats_from(part.calendar, more))
        }
    }
}

/// Whether the begins come again each week.
pub(crate) fn repeats(e: &Expr) -> bool
    ensures value { result ≡ repeats e.now }
    ensures valid { IsTrue (is_expr e.now) }
{
    match e.parts().as_slice() {
        [] => false,
        [part, more @ ..] => repeats_from(part.calendar, more),
    }
}

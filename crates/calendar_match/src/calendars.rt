//! The intervals of the calendars, by their first minutes. Minutes count from 0000-01-01T00:00.
ghost use Rattle.std.specs.Prelude.{◌≡◌, ◌<◌, ◌≤◌, ◌+◌, ◌-◌, ◌^◌, nat_lt, nat_le};
ghost use Rattle.gtrbac_model.specs.Calendar.{is_leap, day_of_year, days_before_month, day_of_month, first_minute, interval_of, number_within};
ghost use Rattle.gtrbac_model.proofs.Guess.{mended};

use gtrbac_model::Calendar;

/// Beyond each minute that is asked for.
pub(crate) const END: u64 = 2_147_483_648;

const MINUTES_OF_DAY: u64 = 1440;

/// Whether a year, counted from the year 0, has a 29th of February.
fn is_leap(y: u64) -> bool
    ensures { result ≡ is_leap y }
{
    y % 4 == 0 && (y % 100 != 0 || y % 400 == 0)
}

/// The day on which year y begins.
fn day_of_year(y: u64) -> u64
    requires { y ≤ 2 ^ 33 }
    ensures { result ≡ day_of_year y }
{
    365 * y + ((y + 3) / 4 - (y + 99) / 100 + (y + 399) / 400)
}

/// The days of a common year before its month m, from 0.
fn days_before_month(m: u64) -> u64
    requires { m < 12 }
    ensures { result ≡ days_before_month m }
{
    match m {
        0 => 0,
        1 => 31,
        2 => 59,
        3 => 90,
        4 => 120,
        5 => 151,
        6 => 181,
        7 => 212,
        8 => 243,
        9 => 273,
        10 => 304,
        _ => 334,
    }
}

/// The day on which month k of all begins, twelve to a year.
fn day_of_month(k: u64) -> u64
    requires { k ≤ 2 ^ 33 }
    ensures { result ≡ day_of_month k }
{
    let year = k / 12;
    let month = k % 12;
    let leap_day = if is_leap(year) && month > 1 { 1 } else { 0 };
    day_of_year(year) + days_before_month(month) + leap_day
}

/// The first minute of an interval of a calendar.
pub(crate) fn first_minute(c: Calendar, k: u64) -> u64
    requires { k ≤ 2 ^ 33 }
    ensures { result ≡ first_minute c k }
{
    match c {
        Calendar::Years => MINUTES_OF_DAY * day_of_year(k),
        Calendar::Months => MINUTES_OF_DAY * day_of_month(k),
        Calendar::Weeks => MINUTES_OF_DAY * (7 * k + 2),
        Calendar::Days => MINUTES_OF_DAY * k,
        Calendar::Hours => 60 * k,
        Calendar::Minutes => k,
    }
}

/// The guess, or one less or one more, so that its interval has the minute.
fn corrected(c: Calendar, guess: u64, m: u64) -> u64
    requires { guess < 2 ^ 31 }
    ensures { result
        ≡ mended (first_minute c) guess m (nat_lt m (first_minute c guess))
        (nat_le (first_minute c (guess + 1)) m) }
{
    if m < first_minute(c, guess) {
        guess.saturating_sub(1)
    } else if first_minute(c, guess + 1) <= m {
        guess + 1
    } else {
        guess
    }
}

/// The interval of a calendar that has the minute.
pub(crate) fn interval_of(c: Calendar, m: u64) -> u64
    requires { m < END }
    ensures interval { result ≡ interval_of c m }
    ensures bound { result ≤ END }
{
    let day = m / MINUTES_OF_DAY;
    match c {
        Calendar::Years => corrected(c, day * 400 / 146_097, m),
        Calendar::Months => corrected(c, day * 4800 / 146_097, m),
        Calendar::Weeks => day.saturating_sub(2) / 7,
        Calendar::Days => day,
        Calendar::Hours => m / 60,
        Calendar::Minutes => m,
    }
}

/// The number, from 1, of the inner interval at the minute among those of the outer interval at it.
pub(crate) fn number_within(outer: Calendar, inner: Calendar, m: u64) -> u64
    requires { m < END }
    ensures { result ≡ number_within outer inner m }
{
    let from = first_minute(outer, interval_of(outer, m));
    interval_of(inner, m).saturating_sub(interval_of(inner, from)) + 1
}

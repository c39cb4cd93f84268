//! Instants by their date and time of day.
ghost use Rattle.std.specs.Prelude.{◌≡◌, ◌↔◌, ◌/◌, ◌%◌, ◌*◌, ◌+◌, ◌≤◌, ◌<◌, pos, ◌≤ℤ◌, IsErr, IfOk};
ghost use Rattle.gt_base.specs.declared.limits.TheConstants.{LAST_MINUTE};
ghost use Rattle.jiff_core.specs.Date.{epoch_day};
ghost use Rattle.gtrbac_model.specs.Calendar.{day_of};
ghost use Rattle.civil_time.specs.Minutes.{civil_at, IsMinute, StandsFor};

use gt_base::Instant;
use jiff_core::civil::Date;

/// A minute by its date and time of day, in the proleptic Gregorian calendar without time zones.
#[derive(Clone, Copy, PartialEq, Eq)]
pub struct Civil {
    /// The year, as 2026.
    pub year: u16,
    /// 1 to 12.
    pub month: u8,
    /// The day of the month, from 1.
    pub day: u8,
    /// 0 to 23.
    pub hour: u8,
    /// 0 to 59.
    pub minute: u8,
}

/// The years 2000 to 2099 have no such minute.
#[derive(Clone, Copy, PartialEq, Eq)]
pub struct NoSuchMinute;

/// How many days lie between the first date of jiff's calendar and 2000-01-01.
const FIRST_DAY: u32 = 4_382_544;

const MINUTES_OF_DAY: u32 = 1440;

/// The date that lies this many days after 2000-01-01.
fn date_of(days: u32) -> Date
    requires { days ≤ 36_524 }
    ensures day { epoch_day result ≡ pos (days + 10_957) }
    ensures year_low { pos 2000 ≤ℤ result.year }
    ensures year_high { result.year ≤ℤ pos 2099 }
{
    Date::from_days_since_min(FIRST_DAY + days)
}

/// How many days after 2000-01-01 the date lies.
fn days_of(date: Date) -> u32
    requires year_low { pos 2000 ≤ℤ date.year }
    requires year_high { date.year ≤ℤ pos 2099 }
    ensures day { epoch_day date ≡ pos (result + 10_957) }
    ensures bound { result ≤ 36_524 }
{
    date.days_since_min() - FIRST_DAY
}

/// The civil day of an instant: days since 2000-01-01.
pub fn day(t: Instant) -> u32
    ensures { result ≡ day_of t }
{
    t.minute() / MINUTES_OF_DAY
}

/// The civil minute of an instant, by jiff's dates.
fn parts_of(t: Instant) -> Civil
    ensures stands { StandsFor t result }
    ensures bound { t ≤ LAST_MINUTE }
{
    let date = date_of(day(t));
    let rest = t.minute() % MINUTES_OF_DAY;
    Civil {
        year: date.year.unsigned_abs(),
        month: date.month,
        day: date.day,
        hour: (rest / 60) as u8,
        minute: (rest % 60) as u8,
    }
}

/// The civil minute of an instant.
#[tactic(auto, using(crate::proofs::OneCivil::is_civil_at))]
pub fn civil_of(t: Instant) -> Civil
    ensures stands { StandsFor t result }
    ensures model { result ≡ civil_at t }
{
    parts_of(t)
}

/// The minute of the date and time of day.
fn minute_of(date: Date, hour: u8, minute: u8) -> Instant
    requires year_low { pos 2000 ≤ℤ date.year }
    requires year_high { date.year ≤ℤ pos 2099 }
    requires hour_in { hour < 24 }
    requires minute_in { minute < 60 }
    ensures day { epoch_day date ≡ pos (day_of result + 10_957) }
    ensures time { result % 1440 ≡ hour * 60 + minute }
    ensures bound { result ≤ LAST_MINUTE }
{
    let minutes = days_of(date) * MINUTES_OF_DAY + u32::from(hour) * 60 + u32::from(minute);
    Instant::new(minutes).unwrap()
}

/// The instant of a civil minute, by jiff's dates.
fn found(c: Civil) -> Result<Instant, NoSuchMinute>
    ensures stands { IfOk result (λ t. StandsFor t c) }
    ensures bound { IfOk result (λ t. t ≤ LAST_MINUTE) }
    ensures err { IsErr result ↔ ¬ (IsMinute c) }
{
    if c.year < 2000
        || c.year > 2099
        || c.hour > 23
        || c.minute > 59
        || c.month > 12
        || c.day > 31
    {
        return Err(NoSuchMinute);
    }
    let Ok(date) = Date::new(c.year as i16, c.month as i8, c.day as i8) else {
        return Err(NoSuchMinute);
    };
    Ok(minute_of(date, c.hour, c.minute))
}

/// The instant of a civil minute, refused exactly where the years 2000 to 2099 have no such minute.
pub fn instant(c: Civil) -> Result<Instant, NoSuchMinute>
    ensures stands { IfOk result (λ t. StandsFor t c) }
    ensures model { IfOk result (λ t. c ≡ civil_at t) }
    ensures err { IsErr result ↔ ¬ (IsMinute c) }
{
    found(c)
}

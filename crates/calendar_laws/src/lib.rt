//! What holds of the calendars and of periodic times: the laws that tie the computed definitions to
//! the relations.
#![tactic(auto)]

ghost use Rattle.calendar_laws.specs.Intervals.{IntervalsCover};
ghost use Rattle.calendar_laws.specs.Meanings.{PeriodsMean, EndsDoNotCross, BeginsAtFirsts, CalendarsRepeat, MinutesOfDays};

/// Each minute lies in just one interval of each calendar.
pub fn intervals_cover()
    ensures { IntervalsCover }
{}

/// The computed begins, starts and insides of a valid expression are those of the relations.
pub fn periods_mean()
    ensures { PeriodsMean }
{}

/// A later begin never has an earlier end.
pub fn ends_do_not_cross()
    ensures { EndsDoNotCross }
{}

/// An expression begins at first minutes of its last calendar alone.
pub fn begins_at_firsts()
    ensures { BeginsAtFirsts }
{}

/// The calendars come back after 400 years.
pub fn calendars_repeat()
    ensures { CalendarsRepeat }
{}

/// The civil day and the minute of the day of an instant.
pub fn minutes_of_days()
    ensures { MinutesOfDays }
{}

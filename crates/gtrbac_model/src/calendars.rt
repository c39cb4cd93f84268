//! The calendars of periodic expressions, from years to minutes.

/// A calendar, from the coarsest to the finest. Years hold months, months and weeks hold days, days
/// hold hours, hours hold minutes; weeks stand beside years and months.
#[derive(Clone, Copy, PartialEq, Eq)]
pub enum Calendar {
    Years,
    Months,
    Weeks,
    Days,
    Hours,
    Minutes,
}

//! The system's clock, read as the minute of an instant.
ghost use Rattle.std.specs.Prelude.{◌≡◌, ◌-◌, ◌/◌, min, None};

use gt_base::{Instant, LAST_MINUTE};
use gt_io::Clock;
use jiff::Timestamp;
use std::rt;

/// When the instants begin, in seconds since 1970.
const FIRST_SECOND: u64 = 946_684_800;

/// The minute of a second since 1970, the first one before 2000 and the last one after 2099.
pub(crate) fn minute_at(second: u64) -> Instant
    ensures { result ≡ min ((second - FIRST_SECOND) / 60) LAST_MINUTE }
{
    let minute = second.saturating_sub(FIRST_SECOND) / 60;
    Instant::new(minute.min(LAST_MINUTE as u64) as u32).unwrap()
}

/// The system's clock in UTC, cut to the years 2000 to 2099. It tells nothing. Where the system
/// can't be asked, it answers its last reading again, and the first instant before any.
#[derive(Drop)]
pub struct HostClock<'a, R> {
    rt: &'a R,
    last: Instant,
}

impl<'a, R: rt::Clock> HostClock<'a, R> {
    /// A clock that was not read yet.
    pub fn new(rt: &'a R) -> Self
        ensures { ⟦<HostClock<'a, R> as Clock>⟧.readings result ≡ None }
    {
        HostClock {
            rt,
            last: minute_at(0),
        }
    }
}

impl<'a, R: rt::Clock> Clock for HostClock<'a, R> {
    ghost readings = { λ _. None };

    fn now(&mut self) -> Instant {
        if let Ok(time) = Timestamp::now(self.rt) {
            self.last = minute_at(u64::try_from(time.as_second()).unwrap_or(0));
        }
        self.last
    }
}

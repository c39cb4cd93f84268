//! Whether a period starts or is inside at an instant.
ghost use Rattle.std.specs.Prelude.{◌≡◌, ◌<◌, ◌≤◌, ◌^◌, ◌+◌, ◌&&◌, nat_le};
ghost use Rattle.gtrbac_model.specs.Calendar.{minute_of, interval_of};
ghost use Rattle.gtrbac_model.specs.Period.{in_bounds, starts, inside, begun_within};

use crate::begins::begins;
use crate::reach::{covered_to, unit_at};
use gt_base::Instant;
use periodic_expr::{Expr, Period};

/// The minute of instant 0, counted from 0000-01-01T00:00.
pub(crate) const FIRST_MINUTE: u64 = 1_051_898_400;

/// The minute of an instant.
pub(crate) fn minute_of(t: Instant) -> u64
    ensures minute { result ≡ minute_of t }
    ensures bound { result ≤ 1_104_494_399 }
{
    FIRST_MINUTE + u64::from(t.minute())
}

/// Whether an instant lies in the bounds of a period, both included.
fn in_bounds(p: &Period, t: Instant) -> bool
    ensures { result ≡ in_bounds p.now t }
{
    p.first.minute() <= t.minute() && t.minute() <= p.last.minute()
}

/// Whether the period starts at the instant: a begin of its expression within its bounds.
pub fn starts(p: &Period, t: Instant) -> bool
    ensures { result ≡ starts p.now t }
{
    in_bounds(p, t) && begins(&p.expr, minute_of(t))
}

/// Whether one of the intervals of a begin has the minute of the instant.
fn lasts(e: &Expr, t: Instant) -> bool
    ensures { result ≡ begun_within e.now e.now.count (interval_of e.now.unit (minute_of t)) }
{
    covered_to(e, unit_at(e, minute_of(t))).is_some()
}

/// Whether the instant is inside the period: within its bounds, and within the length of a begin,
/// which may lie before the bounds.
pub fn inside(p: &Period, t: Instant) -> bool
    ensures { result ≡ inside p.now t }
{
    in_bounds(p, t) && lasts(&p.expr, t)
}

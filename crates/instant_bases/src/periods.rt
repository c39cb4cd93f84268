//! The periods of a policy, by number.
ghost use Rattle.std.specs.Prelude.{◌≡◌, ◌≤◌, ◌+◌, ◌-◌, MatchOption, None, Some, true};
ghost use Rattle.gtrbac_model.specs.Base.{period_test};
ghost use Rattle.gtrbac_model.specs.Graph.{item_at};
ghost use Rattle.gtrbac_model.specs.Period.{inside, starts};
ghost use Rattle.instant_bases.specs.Nexts.{IsNextOf};

use crate::watches::WatchedPeriod;
use gt_base::{Instant, Looks, PeriodId};
use std::sync::ledger::Ledger;

/// The period of this number, if there is one.
pub(crate) fn period_at(periods: &[WatchedPeriod], id: PeriodId) -> Option<&WatchedPeriod>
    ensures { MatchOption result (item_at periods.now id.0 ≡ None) (λ p. item_at periods.now id.0
        ≡ Some p.now) }
{
    periods.get(id.0 as usize)
}

/// Whether the period of this number is there at the instant.
pub(crate) fn is_inside(periods: &[WatchedPeriod], id: PeriodId, t: Instant) -> bool
    ensures { result ≡ period_test inside periods.now id t }
{
    match period_at(periods, id) {
        Some(p) => p.inside(t),
        None => false,
    }
}

/// Whether the period of this number starts at the instant.
pub(crate) fn is_start(periods: &[WatchedPeriod], id: PeriodId, t: Instant) -> bool
    ensures { result ≡ period_test starts periods.now id t }
{
    match period_at(periods, id) {
        Some(p) => p.starts(t),
        None => false,
    }
}

/// Whether it is known that the period of this number is there exactly where it is the minute
/// before.
pub(crate) fn keeps_on(periods: &[WatchedPeriod], id: PeriodId, t: Instant) -> bool
    ensures { result ≡ true → period_test inside periods.now id t
        ≡ period_test inside periods.now id (t - 1) }
{
    match period_at(periods, id) {
        Some(p) => p.keeps_on(t),
        None => true,
    }
}

/// The least instant after this one that is in the period of this number.
pub(crate) fn next_within<L: Ledger>(
    periods: &[WatchedPeriod],
    id: PeriodId,
    after: Instant,
    looks: &mut Looks<L>,
) -> Option<Instant>
    ensures next { IsNextOf (period_test inside periods.now id) after result }
    ensures cost { looks.new ≤ looks.old + 1 }
{
    match period_at(periods, id) {
        Some(p) => p.look_inside(after, looks),
        None => None,
    }
}

/// The least instant after this one at which the period of this number starts.
pub(crate) fn next_begin<L: Ledger>(
    periods: &[WatchedPeriod],
    id: PeriodId,
    after: Instant,
    looks: &mut Looks<L>,
) -> Option<Instant>
    ensures next { IsNextOf (period_test starts periods.now id) after result }
    ensures cost { looks.new ≤ looks.old + 1 }
{
    match period_at(periods, id) {
        Some(p) => p.look_start(after, looks),
        None => None,
    }
}

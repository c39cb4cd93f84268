//! The lesser of two instants that may be missing, and the minute after one.
ghost use Rattle.std.specs.Prelude.{◌≡◌, ℕ, ◌+◌, ◌-◌, ◌<◌, ◌≤◌, ◌||◌, ◌⊎◌, ◌↔◌, Bool, IsNone, IfSome};
ghost use Rattle.gt_base.specs.declared.limits.TheConstants.{LAST_MINUTE};
ghost use Rattle.instant_bases.specs.Nexts.{IsNextOf};

use gt_base::Instant;

/// The earlier of the two, where there is one.
pub fn earlier(a: Option<Instant>, b: Option<Instant>) -> Option<Instant>
    ensures { (f g : ℕ → Bool) (after : ℕ) → IsNextOf f after a → IsNextOf g after b
        → IsNextOf (λ t. f t || g t) after result }
{
    match (a, b) {
        (Some(t), Some(u)) => Some(lesser(t, u)),
        (Some(t), None) => Some(inside(t)),
        (None, Some(u)) => Some(inside(u)),
        (None, None) => None,
    }
}

/// The lesser of the two.
fn lesser(t: Instant, u: Instant) -> Instant
    ensures { ((t ≤ u) × (result ≡ t)) ⊎ ((u < t) × (result ≡ u)) }
{
    if t <= u { t } else { u }
}

/// The instant, which is not after the last one.
pub(crate) fn inside(t: Instant) -> Instant
    ensures same { result ≡ t }
    ensures bound { t ≤ LAST_MINUTE }
{
    t.keeps();
    t
}

/// The answer, which is not after the last instant.
pub(crate) fn known(next: Option<Instant>) -> Option<Instant>
    ensures same { result ≡ next }
    ensures bound { IfSome next (λ t. t ≤ LAST_MINUTE) }
{
    match next {
        Some(t) => Some(inside(t)),
        None => None,
    }
}

/// The minute after the instant; none exactly after 2099-12-31T23:59.
pub fn minute_after(t: Instant) -> Option<Instant>
    ensures some { IfSome result (λ u. u ≡ t + 1) }
    ensures none { IsNone result ↔ (LAST_MINUTE ≤ t) }
{
    Instant::new(t.minute() + 1)
}

/// The minute before the instant.
pub(crate) fn minute_before(t: Instant) -> Instant
    requires { 0 < t }
    ensures { result ≡ t - 1 }
{
    match Instant::new(t.minute() - 1) {
        Some(u) => u,
        None => unreachable!(),
    }
}

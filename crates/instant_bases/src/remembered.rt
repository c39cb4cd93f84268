//! Answers of a calendar that are remembered.
ghost use Rattle.std.specs.Prelude.{◌≡◌, ℕ, ◌<◌, ◌≤◌, ◌⊎◌, Bool, nat_eq, IfSome};
ghost use Rattle.instant_bases.specs.Remembered.{IsNextAsked};

use crate::least::inside as known_instant;
use gt_base::Instant;

/// The next instant after another one at which something is so, if it was asked.
#[derive(Clone, Copy)]
pub(crate) enum Remembered {
    Unasked,
    Next(Option<Instant>),
}

/// What an answer that was kept at one instant says after another.
pub(crate) fn recalled(kept: Remembered, at: Instant, after: Instant) -> Remembered
    ensures { (test : ℕ → Bool) → IsNextAsked test at kept → IsNextAsked test after result }
{
    if after < at {
        return Remembered::Unasked;
    }
    match kept {
        Remembered::Unasked => Remembered::Unasked,
        Remembered::Next(None) => kept,
        Remembered::Next(Some(t)) => until(kept, t, after),
    }
}

/// The answer, while its instant is not past.
fn until(kept: Remembered, t: Instant, now: Instant) -> Remembered
    ensures { ((result ≡ kept) × (now < t)) ⊎ (result ≡ Remembered.Unasked) }
{
    if now < t { kept } else { Remembered::Unasked }
}

/// Whether it is so at t, where an answer that was kept at an instant tells it.
pub(crate) fn so_at(kept: Remembered, at: Instant, t: Instant) -> Option<bool>
    ensures { (test : ℕ → Bool) → IsNextAsked test at kept → IfSome result (λ so. so ≡ test t) }
{
    if t <= at {
        return None;
    }
    let t = known_instant(t);
    match kept {
        Remembered::Unasked => None,
        Remembered::Next(None) => Some(false),
        Remembered::Next(Some(next)) => so_up_to(next, t),
    }
}

/// Whether t is the next instant, where it is not after it.
fn so_up_to(next: Instant, t: Instant) -> Option<bool>
    ensures { IfSome result (λ so. (t ≤ next) × (so ≡ nat_eq t next)) }
{
    if t <= next { Some(t == next) } else { None }
}

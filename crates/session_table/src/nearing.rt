//! When a cap next ends an activation, computed from begins, caps and charges.
ghost use Rattle.std.specs.Prelude.{◌≡◌, ℕ, ◌+◌, ◌-◌, ◌*◌, ◌<◌, ◌≤◌, ◌||◌, ◌↔◌, Bool, nat_le, count_by, IfSome, IsNone};
ghost use Rattle.std.specs.List.{list_any};
ghost use Rattle.gt_base.specs.declared.events.RoleId.{RoleId};
ghost use Rattle.gt_base.specs.declared.events.UserId.{UserId};
ghost use Rattle.gtrbac_model.specs.Calendar.{day_of};
ghost use Rattle.gtrbac_model.specs.Sessions.{reached, is_of};
ghost use Rattle.history_laws.specs.Tables.{minutes_of_day};
ghost use Rattle.session_table.specs.NextDrops.{IsFirstOrNone, capped_in};
ghost use Rattle.session_table.specs.Charges.{charged_in};
ghost use Rattle.gt_base.specs.declared.limits.TheConstants.{MAX_SESSIONS};

use crate::activations::Activation;
use crate::active::ActiveRow;
use crate::charged_days::{ChargedDays, charged};
use crate::checks::{caps_of, limit_minutes};
use gt_base::{Caps, Instant, LAST_MINUTE, RoleId, UserId};

/// The earlier of the two instants, if there are any.
pub(crate) fn earlier(a: Option<Instant>, b: Option<Instant>) -> Option<Instant>
    ensures { (p q : ℕ → Bool) (now : ℕ) → IsFirstOrNone p now a → IsFirstOrNone q now b
        → IsFirstOrNone (λ t. p t || q t) now result }
{
    match (a, b) {
        (Some(x), Some(y)) => {
            if x.minute() <= y.minute() {
                Some(x)
            } else {
                Some(y)
            }
        }
        (Some(x), None) => Some(x),
        (None, y) => y,
    }
}

/// The instant of this number, if it is one.
fn instant_at(t: u64) -> Option<Instant>
    ensures none { IsNone result ↔ (LAST_MINUTE < t) }
    ensures some { IfSome result (λ m. m ≡ t) }
{
    if t <= LAST_MINUTE as u64 {
        Instant::new(t as u32)
    } else {
        None
    }
}

/// The first instant after `now` at which the cap on the minutes of an activation that began then
/// is reached.
pub(crate) fn next_too_long(cap: Option<u32>, begun: Instant, now: Instant) -> Option<Instant>
    ensures { IsFirstOrNone (λ t. reached cap (t - begun)) now result }
{
    match cap {
        Some(most) => next_at_age(most, begun, now),
        None => None,
    }
}

/// The same where there is a cap.
fn next_at_age(most: u32, begun: Instant, now: Instant) -> Option<Instant>
    ensures { IsFirstOrNone (λ t. nat_le most (t - begun)) now result }
{
    let full = u64::from(begun.minute()) + u64::from(most);
    let next = u64::from(now.minute()) + 1;
    if most == 0 || full < next {
        return instant_at(next);
    }
    instant_at(full)
}

/// How many minutes, at least one, of n charges each reach x.
fn rounds(x: u64, n: u64) -> u64
    requires some { 1 ≤ n }
    requires few { n ≤ MAX_SESSIONS }
    requires bound { x < 4_294_967_296 }
    ensures some { 1 ≤ result }
    ensures bound { result < 4_294_967_297 }
    ensures enough { x ≤ result * n }
    ensures least { (k : ℕ) → 1 ≤ k → k < result → k * n < x }
{
    ((x + n - 1) / n).max(1)
}

/// The first instant after `now` at which the cap on the minutes of a civil day is reached, where
/// each minute charges n, so many are charged on the day of the next minute, and none on later
/// days.
fn next_reached(most: u32, spent: u32, n: u64, now: Instant) -> Option<Instant>
    requires some { 1 ≤ n }
    requires few { n ≤ MAX_SESSIONS }
    ensures { (charge : ℕ → ℕ) → charge (day_of (now + 1)) ≡ spent
        → ((d : ℕ) → day_of (now + 1) < d → charge d ≡ 0)
        → IsFirstOrNone
        (λ t. nat_le most (charge (day_of t) + minutes_of_day now (t - now) (day_of t) * n))
        now result }
{
    let minute = u64::from(now.minute());
    let midnight = ((minute + 1) / 1_440 + 1) * 1_440;
    let today = minute + rounds(u64::from(most.saturating_sub(spent)), n);
    if today < midnight {
        return instant_at(today);
    }
    let later = rounds(u64::from(most), n);
    if later > 1_440 {
        return None;
    }
    instant_at(midnight - 1 + later)
}

/// When a cap of its role next ends the activation, where each minute after `now` is charged to
/// each activation.
fn next_for(
    a: &Activation,
    charges: &ChargedDays,
    active: &ActiveRow,
    caps: Caps,
    now: Instant,
) -> Option<Instant>
    requires some { 1 ≤ count_by (is_of a.now.user a.now.role) active.now.items }
    requires few { count_by (is_of a.now.user a.now.role) active.now.items ≤ MAX_SESSIONS }
    requires later { (d : ℕ) → day_of (now + 1) < d
        → charged_in charges.now.charged a.now.user a.now.role d ≡ 0 }
    ensures { IsFirstOrNone
        (λ t. reached caps.length (t - a.now.begun) || reached caps.day
        (charged_in charges.now.charged a.now.user a.now.role (day_of t)
        + minutes_of_day now (t - now) (day_of t)
        * count_by (is_of a.now.user a.now.role) active.now.items))
        now result }
{
    let long = next_too_long(caps.length, a.begun, now);
    let full = next_spent(caps.day, a.user, a.role, charges, active, now);
    earlier(long, full)
}

/// The first instant after `now` at which the cap on the minutes of a civil day is reached, where
/// each minute after `now` is charged to each activation. Where there is no cap, nothing is
/// counted.
fn next_spent(
    cap: Option<u32>,
    user: UserId,
    role: RoleId,
    charges: &ChargedDays,
    active: &ActiveRow,
    now: Instant,
) -> Option<Instant>
    requires some { 1 ≤ count_by (is_of user role) active.now.items }
    requires few { count_by (is_of user role) active.now.items ≤ MAX_SESSIONS }
    requires later { (d : ℕ) → day_of (now + 1) < d
        → charged_in charges.now.charged user role d ≡ 0 }
    ensures { IsFirstOrNone
        (λ t. reached cap
        (charged_in charges.now.charged user role (day_of t) + minutes_of_day now (t - now)
        (day_of t) * count_by (is_of user role) active.now.items))
        now result }
{
    match cap {
        Some(most) => {
            let today = (now.minute() + 1) / 1_440;
            let spent = charged(charges, user, role, today);
            next_reached(most, spent, active.count_of(user, role), now)
        }
        None => None,
    }
}

/// When a cap next ends one of the activations. Where no role has a cap on minutes, none is looked
/// at.
pub(crate) fn next_capped(
    charges: &ChargedDays,
    active: &ActiveRow,
    caps: &[Caps],
    now: Instant,
) -> Option<Instant>
    requires few { (u : UserId) (r : RoleId)
        → count_by (is_of u r) active.now.items ≤ MAX_SESSIONS }
    requires later { (u : UserId) (r : RoleId) (d : ℕ) → day_of (now + 1) < d
        → charged_in charges.now.charged u r d ≡ 0 }
    ensures { IsFirstOrNone
        (λ t. list_any (capped_in caps.now charges.now.charged active.now.items now t)
        active.now.items)
        now result }
{
    if !limit_minutes(caps) {
        return None;
    }
    let mut next = None;
    let rows = active.as_slice();
    for a in rows {
        let of_role = caps_of(caps, a.role);
        let one = next_for(a, charges, active, of_role, now);
        next = earlier(next, one);
    }
    next
}

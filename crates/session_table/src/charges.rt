//! Rows of charges: how many minutes of a user's role are charged on a civil day.
ghost use Rattle.std.specs.Prelude.{◌≡◌, ◌+◌, ◌-◌, ◌*◌, ◌<◌, ◌≤◌, ◌^◌, ◌&&◌, ℕ, true, cond, count_by, filter, length, nat_eq, nat_le, IfOk};
ghost use Rattle.indexmap.specs.IndexMap.{spare};
ghost use Rattle.gt_base.specs.declared.events.RoleId.{RoleId};
ghost use Rattle.gt_base.specs.declared.events.UserId.{UserId};
ghost use Rattle.gtrbac_model.specs.Sessions.{is_of};
ghost use Rattle.history_laws.specs.Tables.{minutes_of_day};
ghost use Rattle.session_table.specs.Charges.{charged_by_rows, is_key};

use crate::activations::Activation;
use gt_base::{Instant, Memory, RoleId, UserId};
use indexmap::IndexMap;

/// What is charged together: the minutes of a user's role on a civil day, counted from 2000-01-01.
#[derive(Clone, Copy, PartialEq, Eq, Hash)]
pub(crate) struct Charge {
    pub(crate) user: UserId,
    pub(crate) role: RoleId,
    pub(crate) day: u32,
}

/// How many minutes the rows say.
pub(crate) fn charged_by_rows(
    charges: &IndexMap<Charge, u32>,
    user: UserId,
    role: RoleId,
    day: u32,
) -> u32
    ensures { result ≡ charged_by_rows charges.now.entries user role day }
{
    charges
        .get(&Charge { user, role, day })
        .copied()
        .unwrap_or(0)
}

/// Whether the two are the same.
fn is_same(a: &Charge, b: &Charge) -> bool
    ensures { result ≡ true → a.now ≡ b.now }
{
    a.user.0 == b.user.0 && a.role.0 == b.role.0 && a.day == b.day
}

/// Charges minutes into the row at the place, if it is of the key, and says whether it is.
fn add_at(charges: &mut IndexMap<Charge, u32>, place: usize, key: Charge, minutes: u32) -> bool
    requires { charged_by_rows charges.old.entries key.user key.role key.day + minutes < 2 ^ 32 }
    ensures charged { (u : UserId) (r : RoleId) (d : ℕ)
        → charged_by_rows charges.new.entries u r d
        ≡ charged_by_rows charges.old.entries u r d + cond (result && is_key key u r d)
        minutes 0 }
    ensures spare { spare charges.new ≡ spare charges.old }
{
    if place >= charges.len() {
        return false;
    }
    let (found, row) = charges.pair_mut(place);
    if !is_same(found, &key) {
        return false;
    }
    *row += minutes;
    true
}

/// Charges minutes, into room that was made before, and answers the place after that of their row.
/// The row is looked for at the place first.
fn add(charges: &mut IndexMap<Charge, u32>, place: usize, key: Charge, minutes: u32) -> usize
    requires room { 1 ≤ spare charges.old }
    requires bound { charged_by_rows charges.old.entries key.user key.role key.day + minutes
        < 2 ^ 32 }
    ensures charged { (u : UserId) (r : RoleId) (d : ℕ)
        → charged_by_rows charges.new.entries u r d
        ≡ charged_by_rows charges.old.entries u r d + cond (is_key key u r d) minutes 0 }
    ensures spare { spare charges.old ≤ spare charges.new + 1 }
{
    if add_at(charges, place, key, minutes) {
        return place.saturating_add(1);
    }
    add_elsewhere(charges, key, minutes)
}

/// Charges minutes, into room that was made before, and answers the place after that of their row,
/// which is looked for by its key.
fn add_elsewhere(charges: &mut IndexMap<Charge, u32>, key: Charge, minutes: u32) -> usize
    requires room { 1 ≤ spare charges.old }
    requires bound { charged_by_rows charges.old.entries key.user key.role key.day + minutes
        < 2 ^ 32 }
    ensures charged { (u : UserId) (r : RoleId) (d : ℕ)
        → charged_by_rows charges.new.entries u r d
        ≡ charged_by_rows charges.old.entries u r d + cond (is_key key u r d) minutes 0 }
    ensures spare { spare charges.old ≤ spare charges.new + 1 }
{
    if let Some(place) = charges.get_index_of(&key) {
        if add_at(charges, place, key, minutes) {
            return place.saturating_add(1);
        }
    }
    add_by_key(charges, key, minutes);
    charges.len()
}

/// Charges minutes, wherever their row stands, into room that was made before.
fn add_by_key(charges: &mut IndexMap<Charge, u32>, key: Charge, minutes: u32)
    requires room { 1 ≤ spare charges.old }
    requires bound { charged_by_rows charges.old.entries key.user key.role key.day + minutes
        < 2 ^ 32 }
    ensures charged { (u : UserId) (r : RoleId) (d : ℕ)
        → charged_by_rows charges.new.entries u r d
        ≡ charged_by_rows charges.old.entries u r d + cond (is_key key u r d) minutes 0 }
    ensures spare { spare charges.old ≤ spare charges.new + 1 }
{
    let before = charged_by_rows(charges, key.user, key.role, key.day);
    match charges.insert(key, before + minutes) {
        Ok(_) => {}
        Err(_) => unreachable!(),
    }
}

/// Charges so many minutes of a day to each activation. Their rows are looked for one after
/// another, as a minute before left them.
pub(crate) fn charge_day(
    charges: &mut IndexMap<Charge, u32>,
    active: &[Activation],
    day: u32,
    minutes: u32,
)
    requires room { length active.now ≤ spare charges.old }
    requires bound { (u : UserId) (r : RoleId)
        → charged_by_rows charges.old.entries u r day + minutes * count_by (is_of u r)
        active.now
        < 2 ^ 32 }
    ensures charged { (u : UserId) (r : RoleId) (d : ℕ)
        → charged_by_rows charges.new.entries u r d
        ≡ charged_by_rows charges.old.entries u r d + cond (nat_eq day d)
        (minutes * count_by (is_of u r) active.now) 0 }
    ensures spare { spare charges.old ≤ spare charges.new + length active.now }
{
    let mut place = 0;
    for a in active {
        place = charge_one(charges, place, a, day, minutes);
    }
}

/// Charges so many minutes of a day to an activation, and answers the place after that of its row,
/// which is looked for at the place first.
fn charge_one(
    charges: &mut IndexMap<Charge, u32>,
    place: usize,
    a: &Activation,
    day: u32,
    minutes: u32,
) -> usize
    requires room { 1 ≤ spare charges.old }
    requires bound { charged_by_rows charges.old.entries a.now.user a.now.role day + minutes
        < 2 ^ 32 }
    ensures charged { (u : UserId) (r : RoleId) (d : ℕ)
        → charged_by_rows charges.new.entries u r d
        ≡ charged_by_rows charges.old.entries u r d + cond (is_of u r a.now && nat_eq day d)
        minutes 0 }
    ensures spare { spare charges.old ≤ spare charges.new + 1 }
{
    let key = Charge {
        user: a.user,
        role: a.role,
        day,
    };
    add(charges, place, key, minutes)
}

/// How many of the minutes after `now`, to `to`, lie in the civil day.
pub(crate) fn minutes_on(now: Instant, to: Instant, day: u32) -> u32
    requires { day ≤ 36_524 }
    ensures { result ≡ minutes_of_day now (to - now) day }
{
    let begin = 1_440 * day;
    let first = (now.minute() + 1).max(begin);
    let past = (to.minute().max(now.minute()) + 1).min(begin + 1_440);
    past.saturating_sub(first)
}

/// The same rows. The room of the copy may differ.
pub(crate) fn copied(charges: &IndexMap<Charge, u32>) -> Result<IndexMap<Charge, u32>, Memory>
    ensures { IfOk result (λ copy. copy.entries ≡ charges.now.entries) }
{
    Ok(charges.clone()?)
}

/// Whether the first row is of an earlier day. Rows are added day after day, so else none is.
pub(crate) fn starts_before(charges: &IndexMap<Charge, u32>, day: u32) -> bool {
    match charges.first() {
        Some((key, _)) => key.day < day,
        None => false,
    }
}

/// Takes out the rows of the days before this one.
pub(crate) fn forget_rows(charges: &mut IndexMap<Charge, u32>, day: u32)
    ensures { charges.new.entries ≡ filter (λ e. nat_le day e.0.day) charges.old.entries }
{
    charges.retain(
        |key: &Charge, minutes: &mut u32| -> bool
            ensures { (result ≡ nat_le day key.now.day) × (minutes.new ≡ minutes.old) }
        { day <= key.day },
    );
}

//! What is charged: rows of single days, and stretches of whole days beside them.
ghost use Rattle.std.specs.Prelude.{◌≡◌, ◌+◌, ◌-◌, ◌*◌, ◌<◌, ◌≤◌, ◌^◌, [], ℕ, count_by, length, vec_len, vec_capacity, IfOk, OnOk};
ghost use Rattle.indexmap.specs.IndexMap.{spare};
ghost use Rattle.gt_base.specs.declared.events.RoleId.{RoleId};
ghost use Rattle.gt_base.specs.declared.events.UserId.{UserId};
ghost use Rattle.gtrbac_model.specs.Calendar.{day_of};
ghost use Rattle.gtrbac_model.specs.Sessions.{is_of};
ghost use Rattle.history_laws.specs.Tables.{minutes_of_day};
ghost use Rattle.session_table.specs.Charges.{charged_by, charged_in};
ghost use Rattle.session_table.specs.ChargedDays.{AllBefore};

use crate::activations::Activation;
use crate::charges::{
    Charge, charge_day, charged_by_rows, copied as copied_rows, forget_rows, minutes_on,
    starts_before,
};
use crate::whole::{Whole, charge_whole, covering, forget_stretches};
use civil_time::day;
use gt_base::{Instant, Memory, RoleId, UserId};
use indexmap::IndexMap;
use std::alloc::{AllocError, Global};
use std::marker::Model;

/// How many minutes are charged to a user's role on a civil day, with the number of activations for
/// which a stretch of minutes can be charged without further memory. Whole days stand beside the
/// rows of single days, all before one day.
pub(crate) struct ChargedDays {
    rows: IndexMap<Charge, u32>,
    stretches: Vec<Whole>,
    over: u32,
}

impl Model for ChargedDays {
    ghost use Rattle.std.specs.Prelude.{◌-◌, ◌/◌, min, vec_len, vec_capacity};
    ghost use Rattle.indexmap.specs.IndexMap.{spare};
    ghost use Rattle.session_table.specs.ChargedDays.{AreChargedDays, ChargedDaysView};

    ghost Value = { ChargedDaysView };

    ghost view = { λ l. record {
      charged = record { rows = l.rows.entries; stretches = l.stretches.items };
      room = min (spare l.rows / 2) (vec_capacity l.stretches - vec_len l.stretches);
    } };

    ghost invariant = { λ l. AreChargedDays l.rows.entries l.stretches.items l.over };
}

impl Drop for ChargedDays {
    fn drop(self) {
        let ChargedDays {
            rows: _,
            stretches: _,
            over: _,
        } = self;
    }
}

/// Nothing is charged. It takes no memory yet.
pub(crate) fn no_charges(alloc: Global) -> ChargedDays
    ensures { result.charged ≡ record { rows = []; stretches = [] } }
{
    ChargedDays {
        rows: IndexMap::new(alloc),
        stretches: Vec::new(alloc),
        over: 0,
    }
}

/// How many minutes are charged. Where the day is not before that of the last charges, a row tells
/// it.
pub(crate) fn charged(charges: &ChargedDays, user: UserId, role: RoleId, day: u32) -> u32
    ensures { result ≡ charged_in charges.now.charged user role day }
{
    let in_row = charged_by_rows(&charges.rows, user, role, day);
    if charges.over <= day {
        return in_row;
    }
    let days = covering(&charges.stretches, user, role, day) as u64;
    (u64::from(in_row) + 1_440 * days) as u32
}

/// The same charges. The room of the copy may differ.
pub(crate) fn copied(charges: &ChargedDays) -> Result<ChargedDays, Memory>
    ensures { IfOk result (λ copy. copy.charged ≡ charges.now.charged) }
{
    let rows = copied_rows(&charges.rows)?;
    let stretches = Vec::from_slice(*charges.stretches.allocator(), &charges.stretches)?;
    Ok(ChargedDays {
        rows,
        stretches,
        over: charges.over,
    })
}

/// Makes room for the charges of a stretch of minutes to so many activations.
pub(crate) fn reserve_charges(charges: &mut ChargedDays, active: usize) -> Result<(), Memory>
    ensures same { charges.new.charged ≡ charges.old.charged }
    ensures room { OnOk result (active ≤ charges.new.room) }
{
    let Some(rows) = active.checked_mul(2) else {
        return Err(AllocError);
    };
    charges.rows.reserve(rows)?;
    charges.stretches.reserve(active)
}

/// Charges each minute after `now`, to `to`, to each activation: those of the first and of the last
/// civil day to rows, and the whole days between as stretches.
fn charge_days(
    rows: &mut IndexMap<Charge, u32>,
    stretches: &mut Vec<Whole>,
    active: &[Activation],
    now: Instant,
    to: Instant,
)
    requires order { now < to }
    requires rows { 2 * length active.now ≤ spare rows.old }
    requires stretches { vec_len stretches.old + length active.now ≤ vec_capacity stretches.old }
    requires bound { (u : UserId) (r : RoleId) (d : ℕ)
        → charged_by rows.old.entries stretches.old.items u r d + minutes_of_day now (to - now)
        d * count_by (is_of u r) active.now
        < 2 ^ 32 }
    ensures charged { (u : UserId) (r : RoleId) (d : ℕ)
        → charged_by rows.new.entries stretches.new.items u r d
        ≡ charged_by rows.old.entries stretches.old.items u r d + minutes_of_day now
        (to - now) d * count_by (is_of u r) active.now }
    ensures before { (over : ℕ) → day_of to ≤ over → AllBefore over stretches.old.items
        → AllBefore over stretches.new.items }
{
    let first = (now.minute() + 1) / 1_440;
    let last = day(to);
    charge_day(rows, active, first, minutes_on(now, to, first));
    if first < last {
        charge_whole(stretches, active, first + 1, last);
        charge_day(rows, active, last, minutes_on(now, to, last));
    }
}

/// Charges each minute after `now`, to `to`, to each activation, into room that was made before.
pub(crate) fn charge_stretch(
    charges: &mut ChargedDays,
    active: &[Activation],
    now: Instant,
    to: Instant,
)
    requires order { now < to }
    requires room { length active.now ≤ charges.old.room }
    requires bound { (u : UserId) (r : RoleId) (d : ℕ)
        → charged_in charges.old.charged u r d + minutes_of_day now (to - now) d * count_by
        (is_of u r) active.now
        < 2 ^ 32 }
    ensures charged { (u : UserId) (r : RoleId) (d : ℕ)
        → charged_in charges.new.charged u r d
        ≡ charged_in charges.old.charged u r d + minutes_of_day now (to - now) d * count_by
        (is_of u r) active.now }
{
    charge_days(&mut charges.rows, &mut charges.stretches, active, now, to);
    charges.over = charges.over.max(day(to));
}

/// Forgets what was charged on the days before this one.
pub(crate) fn forget_days(charges: &mut ChargedDays, day: u32)
    ensures kept { (u : UserId) (r : RoleId) (d : ℕ) → day ≤ d
        → charged_in charges.new.charged u r d ≡ charged_in charges.old.charged u r d }
    ensures less { (u : UserId) (r : RoleId) (d : ℕ)
        → charged_in charges.new.charged u r d ≤ charged_in charges.old.charged u r d }
{
    if !starts_before(&charges.rows, day) {
        return;
    }
    forget_rows(&mut charges.rows, day);
    forget_stretches(&mut charges.stretches, day);
}

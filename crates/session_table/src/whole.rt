//! Stretches of whole civil days, of each of which every minute is charged.
ghost use Rattle.std.specs.Prelude.{◌≡◌, ◌+◌, ◌≤◌, ◌&&◌, ℕ, cond, nat_le, nat_lt, count_by, filter, length, vec_len, vec_capacity};
ghost use Rattle.gt_base.specs.declared.events.RoleId.{RoleId};
ghost use Rattle.gt_base.specs.declared.events.UserId.{UserId};
ghost use Rattle.gtrbac_model.specs.Sessions.{is_of};
ghost use Rattle.session_table.specs.Charges.{covering, covers};
ghost use Rattle.session_table.specs.ChargedDays.{AllBefore};

use crate::activations::Activation;
use gt_base::{RoleId, UserId};

/// Each minute of the civil days from `first` on, before `past`, is charged to the user's role.
/// Days count from 2000-01-01.
#[derive(Clone, Copy)]
pub(crate) struct Whole {
    pub(crate) user: UserId,
    pub(crate) role: RoleId,
    pub(crate) first: u32,
    pub(crate) past: u32,
}

/// Whether the stretch is of the user and the role, and has the day.
fn covers(w: &Whole, user: UserId, role: RoleId, day: u32) -> bool
    ensures { result ≡ covers user role day w.now }
{
    (w.user.0 == user.0 && w.role.0 == role.0) && (w.first <= day && day < w.past)
}

/// How many stretches of the user and the role have the day.
pub(crate) fn covering(stretches: &[Whole], user: UserId, role: RoleId, day: u32) -> usize
    ensures { result ≡ covering stretches.now user role day }
{
    stretches
        .iter()
        .filter(|w| covers(w, user, role, day))
        .count()
}

/// Adds the days of one activation, into room that was made before.
fn push(stretches: &mut Vec<Whole>, a: &Activation, first: u32, past: u32)
    requires { vec_len stretches.old + 1 ≤ vec_capacity stretches.old }
    ensures days { (u : UserId) (r : RoleId) (d : ℕ)
        → covering stretches.new.items u r d
        ≡ covering stretches.old.items u r d + cond
        (is_of u r a.now && (nat_le first d && nat_lt d past)) 1 0 }
    ensures before { (day : ℕ) → past ≤ day → AllBefore day stretches.old.items
        → AllBefore day stretches.new.items }
    ensures len { vec_len stretches.new ≡ vec_len stretches.old + 1 }
    ensures capacity { vec_capacity stretches.old ≤ vec_capacity stretches.new }
{
    let stretch = Whole {
        user: a.user,
        role: a.role,
        first,
        past,
    };
    match stretches.push(stretch) {
        Ok(()) => {}
        Err(_) => unreachable!(),
    }
}

/// Charges each minute of these days to each activation, into room that was made before.
pub(crate) fn charge_whole(stretches: &mut Vec<Whole>, active: &[Activation], first: u32, past: u32)
    requires { vec_len stretches.old + length active.now ≤ vec_capacity stretches.old }
    ensures days { (u : UserId) (r : RoleId) (d : ℕ)
        → covering stretches.new.items u r d
        ≡ covering stretches.old.items u r d + cond (nat_le first d && nat_lt d past)
        (count_by (is_of u r) active.now) 0 }
    ensures before { (day : ℕ) → past ≤ day → AllBefore day stretches.old.items
        → AllBefore day stretches.new.items }
{
    if first >= past {
        return;
    }
    for a in active {
        push(stretches, a, first, past);
    }
}

/// Takes out the stretches that end before this day.
pub(crate) fn forget_stretches(stretches: &mut Vec<Whole>, day: u32)
    ensures { stretches.new.items ≡ filter (λ w. nat_lt day w.past) stretches.old.items }
{
    stretches.retain(
        |w: &Whole| -> bool
            ensures { result ≡ nat_lt day w.now.past }
        { day < w.past },
    );
}

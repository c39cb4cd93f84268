//! How many activations of a role stand, in all and for each user: numbers that are kept as
//! activations begin and end.
ghost use Rattle.std.specs.Prelude.{◌≡◌, ◌+◌, ◌<◌, ◌≤◌, ◌^◌, [], ◌∷◌, ◌++◌, not, cond, filter, length, map, IfOk};
ghost use Rattle.std.specs.List.{remove};
ghost use Rattle.indexmap.specs.IndexMap.{spare};
ghost use Rattle.gtrbac_model.specs.Sessions.{is_active_in};
ghost use Rattle.session_table.specs.Counting.{AreCounted, all_of, counted, holder_eq, is_by, own_of};
ghost use Rattle.session_table.specs.Opened.{opened, role_in, AreNumbered};

use crate::activations::{Activation, activation_at, is_active_in};
use crate::dropping::is_listed;
use crate::opened::Open;
use gt_base::{Memory, RoleId, SessionId, UserId};
use indexmap::IndexMap;

/// Whose activations of a role are counted together: those of a user, or of all.
#[derive(Clone, Copy, PartialEq, Eq, Hash)]
pub(crate) struct Holder {
    pub(crate) user: Option<UserId>,
    pub(crate) role: RoleId,
}

/// How many activations are theirs.
pub(crate) fn counted(counts: &IndexMap<Holder, u64>, holder: Holder) -> u64
    ensures { result ≡ counted counts.now.entries holder }
{
    counts.get(&holder).copied().unwrap_or(0)
}

/// The same numbers. The room of the copy may differ.
pub(crate) fn copied(counts: &IndexMap<Holder, u64>) -> Result<IndexMap<Holder, u64>, Memory>
    ensures { IfOk result (λ copy. copy.entries ≡ counts.now.entries) }
{
    Ok(counts.clone()?)
}

/// Counts one more, into room that was made before.
fn more(counts: &mut IndexMap<Holder, u64>, holder: Holder)
    requires room { 1 ≤ spare counts.old }
    requires bound { counted counts.old.entries holder + 1 < 2 ^ 64 }
    ensures counted { (h : Holder)
        → counted counts.new.entries h
        ≡ counted counts.old.entries h + cond (holder_eq holder h) 1 0 }
    ensures spare { spare counts.old ≤ spare counts.new + 1 }
{
    let before = counted(counts, holder);
    match counts.insert(holder, before + 1) {
        Ok(_) => {}
        Err(_) => unreachable!(),
    }
}

/// Counts one less. Where none is left, there is no number either.
fn fewer(counts: &mut IndexMap<Holder, u64>, holder: Holder)
    requires { 1 ≤ counted counts.old.entries holder }
    ensures { (h : Holder)
        → counted counts.old.entries h
        ≡ counted counts.new.entries h + cond (holder_eq holder h) 1 0 }
{
    let before = counted(counts, holder);
    if before == 1 {
        counts.swap_remove(&holder);
        return;
    }
    match counts.insert(holder, before - 1) {
        Ok(_) => {}
        Err(_) => unreachable!(),
    }
}

/// Counts the activation, into room that was made before.
fn add_count(counts: &mut IndexMap<Holder, u64>, a: &Activation)
    requires room { 2 ≤ spare counts.old }
    requires own { counted counts.old.entries (own_of a.now) + 1 < 2 ^ 64 }
    requires all { counted counts.old.entries (all_of a.now) + 1 < 2 ^ 64 }
    ensures { (h : Holder)
        → counted counts.new.entries h
        ≡ counted counts.old.entries h + cond (is_by h.user h.role a.now) 1 0 }
{
    let user = Some(a.user);
    let role = a.role;
    more(counts, Holder { user, role });
    more(counts, Holder { user: None, role });
}

/// Counts the activation no longer.
fn drop_count(counts: &mut IndexMap<Holder, u64>, a: &Activation)
    requires own { 1 ≤ counted counts.old.entries (own_of a.now) }
    requires all { 1 ≤ counted counts.old.entries (all_of a.now) }
    ensures { (h : Holder)
        → counted counts.old.entries h
        ≡ counted counts.new.entries h + cond (is_by h.user h.role a.now) 1 0 }
{
    let user = Some(a.user);
    let role = a.role;
    fewer(counts, Holder { user, role });
    fewer(counts, Holder { user: None, role });
}

/// Counts the activation that is added behind these, into room that was made before.
pub(crate) fn count_one(counts: &mut IndexMap<Holder, u64>, active: &[Activation], a: &Activation)
    requires counted { AreCounted counts.old.entries active.now }
    requires room { 2 ≤ spare counts.old }
    ensures { AreCounted counts.new.entries (active.now ++ a.now ∷ []) }
{
    add_count(counts, a);
}

/// Counts the activation at the place no longer.
pub(crate) fn uncount_at(counts: &mut IndexMap<Holder, u64>, active: &[Activation], at: usize)
    requires counted { AreCounted counts.old.entries active.now }
    requires inside { at < length active.now }
    ensures { AreCounted counts.new.entries (remove active.now at) }
{
    drop_count(counts, &activation_at(active, at));
}

/// Counts the activation of the role in the session no longer.
pub(crate) fn uncount_role(
    counts: &mut IndexMap<Holder, u64>,
    active: &[Activation],
    session: SessionId,
    role: RoleId,
)
    requires { AreCounted counts.old.entries active.now }
    ensures { AreCounted counts.new.entries
        (filter (λ a. not (is_active_in session role a)) active.now) }
{
    for a in active {
        if is_active_in(a, session, role) {
            drop_count(counts, a);
        }
    }
}

/// Counts the activations no longer whose roles do not stand in their sessions.
pub(crate) fn uncount_unlisted(
    counts: &mut IndexMap<Holder, u64>,
    active: &[Activation],
    sessions: &[Open],
)
    requires counted { AreCounted counts.old.entries active.now }
    requires numbered { AreNumbered (map opened sessions.now) }
    ensures { AreCounted counts.new.entries
        (filter (λ a. role_in sessions.now a.session a.role) active.now) }
{
    for a in active {
        if !is_listed(sessions, a) {
            drop_count(counts, a);
        }
    }
}

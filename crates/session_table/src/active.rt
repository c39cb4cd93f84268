//! The row of activations, which closes up from whichever end is nearer.
ghost use Rattle.std.specs.Prelude.{◌≡◌, ◌+◌, ◌<◌, ◌≤◌, [], ◌∷◌, ◌++◌, not, count_by, drop, filter, map, length, OnOk, IfOk, vec_len, vec_capacity};
ghost use Rattle.std.specs.List.{remove};
ghost use Rattle.gtrbac_model.specs.Same.{same_role};
ghost use Rattle.gtrbac_model.specs.Sessions.{is_active_in, is_of};
ghost use Rattle.session_table.specs.Opened.{opened, role_in, AreNumbered};

use crate::activations::{Activation, end_role};
use crate::counting::{
    Holder, copied as copied_counts, count_one, counted, uncount_at, uncount_role, uncount_unlisted,
};
use crate::dropping::keep_listed;
use crate::opened::Open;
use gt_base::{Memory, RoleId, SessionId, UserId};
use indexmap::IndexMap;
use std::alloc::Global;
use std::marker::Model;

/// Activations in the order in which they were made, behind a gap at the front that those taken out
/// there left, with the number of those of each role and user. It is seen as the activations and
/// the number of further ones that it has room for.
pub(crate) struct ActiveRow {
    rows: Vec<Activation>,
    gap: usize,
    counts: IndexMap<Holder, u64>,
}

impl Model for ActiveRow {
    ghost use Rattle.std.specs.Prelude.{◌-◌, ◌/◌, drop, min, vec_capacity, vec_len};
    ghost use Rattle.indexmap.specs.IndexMap.{spare};
    ghost use Rattle.gt_base.specs.Roomy.{Roomy};
    ghost use Rattle.gtrbac_model.specs.Sessions.{Activation};
    ghost use Rattle.session_table.specs.Counting.{IsActiveRow};

    ghost Value = { Roomy Activation };

    ghost view = { λ s. record {
      items = drop s.gap s.rows.items;
      spare = min (vec_capacity s.rows - vec_len s.rows) (spare s.counts / 2);
    } };

    ghost invariant = { λ s. IsActiveRow s.rows.items s.gap s.counts.entries };
}

impl Drop for ActiveRow {
    fn drop(self) {
        let ActiveRow {
            rows: _,
            gap: _,
            counts: _,
        } = self;
    }
}

impl ActiveRow {
    /// No activation. It takes no memory yet.
    pub(crate) fn new(alloc: Global) -> ActiveRow
        ensures { result.items ≡ [] }
    {
        ActiveRow {
            rows: Vec::new(alloc),
            gap: 0,
            counts: IndexMap::new(alloc),
        }
    }

    /// Equal activations.
    pub(crate) fn copied(&self, alloc: Global) -> Result<ActiveRow, Memory>
        ensures { IfOk result (λ copy. copy.items ≡ self.now.items) }
    {
        Ok(ActiveRow {
            rows: Vec::from_slice(alloc, behind(&self.rows, self.gap))?,
            gap: 0,
            counts: copied_counts(&self.counts)?,
        })
    }

    /// How many there are.
    pub(crate) fn len(&self) -> usize
        ensures { result ≡ length self.now.items }
    {
        self.rows.len() - self.gap
    }

    /// The activations.
    pub(crate) fn as_slice(&self) -> &[Activation]
        ensures { result.now ≡ self.now.items }
    {
        behind(&self.rows, self.gap)
    }

    /// How many are of the role.
    pub(crate) fn count_role(&self, role: RoleId) -> u64
        ensures { result ≡ count_by (λ a. same_role a.role role) self.now.items }
    {
        counted(&self.counts, Holder { user: None, role })
    }

    /// How many are of the user and the role.
    pub(crate) fn count_of(&self, user: UserId, role: RoleId) -> u64
        ensures { result ≡ count_by (is_of user role) self.now.items }
    {
        let user = Some(user);
        counted(&self.counts, Holder { user, role })
    }

    /// Makes room for one more. Where the gap is more than the rest, the row is closed up first.
    pub(crate) fn reserve_one(&mut self) -> Result<(), Memory>
        ensures items { self.new.items ≡ self.old.items }
        ensures room { OnOk result (1 ≤ self.new.spare) }
    {
        if self.rows.len() / 2 < self.gap {
            drop_front(&mut self.rows, self.gap);
            self.gap = 0;
        }
        self.counts.reserve(2)?;
        self.rows.reserve(1)
    }

    /// Adds one at the end, into room that was made before.
    pub(crate) fn push(&mut self, a: Activation)
        requires { 1 ≤ self.old.spare }
        ensures { self.new.items ≡ self.old.items ++ a ∷ [] }
    {
        count_one(&mut self.counts, behind(&self.rows, self.gap), &a);
        put(&mut self.rows, a);
    }

    /// Takes out the one at the place: those on the side where there are fewer move.
    pub(crate) fn remove(&mut self, at: usize)
        requires { at < length self.old.items }
        ensures items { self.new.items ≡ remove self.old.items at }
    {
        uncount_at(&mut self.counts, behind(&self.rows, self.gap), at);
        if at < (self.rows.len() - self.gap) / 2 {
            move_up(&mut self.rows, self.gap, at);
            self.gap += 1;
        } else {
            self.rows.remove(self.gap + at);
        }
    }

    /// Takes out the activation of the role in the session.
    pub(crate) fn end_role(&mut self, session: SessionId, role: RoleId)
        ensures { self.new.items ≡ filter (λ a. not (is_active_in session role a)) self.old.items }
    {
        drop_front(&mut self.rows, self.gap);
        self.gap = 0;
        uncount_role(&mut self.counts, &self.rows, session, role);
        end_role(&mut self.rows, session, role);
    }

    /// Keeps the activations whose roles stand in their sessions.
    pub(crate) fn keep_listed(&mut self, sessions: &[Open])
        requires { AreNumbered (map opened sessions.now) }
        ensures { self.new.items
            ≡ filter (λ a. role_in sessions.now a.session a.role) self.old.items }
    {
        drop_front(&mut self.rows, self.gap);
        self.gap = 0;
        uncount_unlisted(&mut self.counts, &self.rows, sessions);
        keep_listed(&mut self.rows, sessions);
    }
}

/// What stands behind a gap of so many rows.
pub(crate) fn behind(rows: &[Activation], gap: usize) -> &[Activation]
    requires { gap ≤ length rows.now }
    ensures { result.now ≡ drop gap rows.now }
{
    let (_, rest) = rows.split_at(gap);
    rest
}

/// Adds an activation, into room that was made before.
fn put(rows: &mut Vec<Activation>, a: Activation)
    requires { vec_len rows.old < vec_capacity rows.old }
    ensures { rows.new.items ≡ rows.old.items ++ a ∷ [] }
{
    match rows.push(a) {
        Ok(()) => {}
        Err(_) => unreachable!(),
    }
}

/// Moves so many rows behind a gap up by one, over the next row.
fn move_up(rows: &mut Vec<Activation>, gap: usize, count: usize)
    requires { gap + count < length rows.old.items }
    ensures len { length rows.new.items ≡ length rows.old.items }
    ensures rest { drop (gap + 1) rows.new.items ≡ remove (drop gap rows.old.items) count }
{
    rows.copy_within(gap..gap + count, gap + 1);
}

/// Takes out so many rows at the front.
fn drop_front(rows: &mut Vec<Activation>, count: usize)
    requires { count ≤ length rows.old.items }
    ensures { rows.new.items ≡ drop count rows.old.items }
{
    let left = rows.len() - count;
    rows.copy_within(count..count + left, 0);
    rows.truncate(left);
}

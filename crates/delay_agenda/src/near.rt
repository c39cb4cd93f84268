//! The pairs that are due soon, in order.
ghost use Rattle.std.specs.Prelude.{◌≡◌, ◌≤◌, ◌+◌, ◌^◌, ◌||◌, not, length, ◌↔◌, ◌<◌, ◌⊎◌, OnOk, OnErr, IfOk, IsNone, IfSome};
ghost use Rattle.gt_base.specs.declared.events.Prioritised.{Prioritised};
ghost use Rattle.gt_base.specs.Sets.{has, members, none, those, with_member};
ghost use Rattle.delay_agenda.specs.Due.{pending_at, is_due_at, count_due, IsLeastDue};

use crate::pairs::Pending;
use crate::{rows, trees};
use gt_base::{Happened, Instant, Memory, Prioritised};
use std::alloc::Global;
use std::collections::BTreeSet;
use std::marker::Model;

/// A set of events with their due instants, seen as the set of the pairs and the number of further
/// pairs that it has room for. The pairs stand in a tree, and those that were put since room was
/// last made in a row beside it; a pair may stand in both. A question about an instant looks at the
/// pairs that are due then, at few others on the way to them, and at the row.
pub(crate) struct Near {
    tree: BTreeSet<Pending>,
    row: Vec<Pending>,
}

impl Model for Near {
    ghost use Rattle.std.specs.Prelude.{◌-◌, vec_capacity, vec_len};
    ghost use Rattle.gt_base.specs.Happening.{Roomier, roomier_code};
    ghost use Rattle.delay_agenda.specs.Due.{Pendings, pendings_code};
    ghost use Rattle.delay_agenda.specs.Rows.{BothRise, pairs_of};

    ghost Value = { Roomier Pendings };

    ghost coded = { roomier_code pendings_code };

    ghost view = { λ a. record {
      set = pairs_of a.tree.keys a.row.items;
      spare = vec_capacity a.row - vec_len a.row;
    } };

    ghost invariant = { λ a. BothRise a.tree.keys a.row.items };
}

impl Drop for Near {
    fn drop(self) {
        let Near { tree: _, row: _ } = self;
    }
}

impl Near {
    /// No pairs, without room, which takes no memory yet.
    pub(crate) fn new(alloc: Global) -> Near
        ensures set { result.set ≡ none }
        ensures spare { result.spare ≡ 0 }
    {
        Near {
            tree: BTreeSet::new(alloc),
            row: Vec::new(alloc),
        }
    }

    /// Makes room for n more pairs; those of the row move to the tree. For want of memory it may
    /// refuse; the set is then as it was, and the room no less.
    pub(crate) fn reserve(&mut self, n: usize) -> Result<(), Memory>
        ensures set { self.new.set ≡ self.old.set }
        ensures spare { self.old.spare ≤ self.new.spare }
        ensures room { OnOk result (n ≤ self.new.spare) }
    {
        trees::move_all(&mut self.tree, &mut self.row)?;
        self.row.reserve(n)
    }

    /// The same pairs. For want of memory it may refuse.
    pub(crate) fn copied(&self) -> Result<Near, Memory>
        ensures { IfOk result (λ copy. copy.set ≡ self.now.set) }
    {
        Ok(Near {
            tree: self.tree.clone()?,
            row: Vec::from_slice(*self.row.allocator(), &self.row)?,
        })
    }

    /// How many pairs it has; an event at two instants or at two priorities counts twice.
    pub(crate) fn len(&self) -> usize
        ensures count { result ≡ length (members self.now.set) }
        ensures fits { result < 2 ^ 63 + 2 ^ 62 }
    {
        self.tree.len() + rows::count_new(&self.row, &self.tree)
    }

    /// Whether it has the pair.
    pub(crate) fn has(&self, p: &Pending) -> bool
        ensures { result ≡ has self.now.set p.now }
    {
        if rows::is_new(&self.tree, p) {
            rows::is_in(&self.row, p)
        } else {
            true
        }
    }

    /// Adds a pair, without the room. For want of memory it may refuse; nothing is changed then.
    pub(crate) fn insert(&mut self, p: Pending) -> Result<(), Memory>
        ensures ok { OnOk result (self.new.set ≡ with_member self.old.set p) }
        ensures err { OnErr result (self.new.set ≡ self.old.set) }
        ensures spare { self.new.spare ≡ self.old.spare }
    {
        self.tree.insert(p)?;
        Ok(())
    }

    /// Adds an event that is due at the instant, into room that was made before. At most one of the
    /// room is used.
    pub(crate) fn put(&mut self, due: Instant, p: Prioritised)
        requires { 1 ≤ self.old.spare }
        ensures set { self.new.set ≡ with_member self.old.set (pending_at due p) }
        ensures spare { self.old.spare ≤ self.new.spare + 1 }
    {
        rows::put(&mut self.row, Pending { due, event: p });
    }

    /// The least instant at which something is due; none exactly where nothing is.
    pub(crate) fn next_due(&self) -> Option<Instant>
        ensures none { IsNone result ↔ (self.now.set ≡ none) }
        ensures some { IfSome result (IsLeastDue self.now.set) }
    {
        match (self.tree.last(), self.row.last()) {
            (Some(p), Some(q)) => Some(lesser(p.due, q.due)),
            (Some(p), None) => Some(p.due),
            (None, Some(q)) => Some(q.due),
            (None, None) => None,
        }
    }

    /// How many pairs are due at the instant, so for how many `take` wants room.
    pub(crate) fn due_count(&self, t: Instant) -> usize
        ensures count { result ≡ count_due self.now.set t }
        ensures fits { result < 2 ^ 63 + 2 ^ 62 }
    {
        trees::count_due(&self.tree, t) + rows::count_due(&self.row, &self.tree, t)
    }

    /// Adds the events that are due at the instant to a set of an instant, where room was made
    /// before. They stay.
    pub(crate) fn tell(&self, t: Instant, into: &mut Happened)
        requires { count_due self.now.set t ≤ into.old.spare }
        ensures events { (e : Prioritised)
            → has into.new.set.events e
            ≡ (has into.old.set.events e || has self.now.set (pending_at t e)) }
        ensures signals { into.new.set.signals ≡ into.old.set.signals }
        ensures spare { into.old.spare ≤ into.new.spare + count_due self.now.set t }
    {
        trees::tell_due(&self.tree, t, into);
        rows::tell_due(&self.row, &self.tree, t, into);
    }

    /// Takes out the pairs that are due at the instant, and keeps the others.
    pub(crate) fn forget(&mut self, t: Instant)
        ensures set { self.new.set ≡ those self.old.set (λ p. not (is_due_at t p)) }
        ensures spare { self.old.spare ≤ self.new.spare }
    {
        trees::forget_due(&mut self.tree, t);
        rows::forget_due(&mut self.row, t);
    }
}

/// The lesser of the two.
pub(crate) fn lesser(t: Instant, u: Instant) -> Instant
    ensures { ((t ≤ u) × (result ≡ t)) ⊎ ((u < t) × (result ≡ u)) }
{
    if t <= u { t } else { u }
}

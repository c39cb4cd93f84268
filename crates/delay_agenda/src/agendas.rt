//! The agenda of a server: the events that are due at later instants.
ghost use Rattle.std.specs.Prelude.{◌≡◌, ◌≤◌, ◌+◌, ◌||◌, not, length, ◌↔◌, OnOk, IfOk, IsNone, IfSome};
ghost use Rattle.gt_base.specs.declared.events.Prioritised.{Prioritised};
ghost use Rattle.gt_base.specs.Sets.{has, members, none, those, with_member};
ghost use Rattle.delay_agenda.specs.Due.{pending_at, is_due_at, count_due, IsLeastDue};

use crate::far;
use crate::near::Near;
use crate::pairs::Pending;
use gt_base::{Happened, Instant, Memory, Prioritised};
use std::alloc::Global;
use std::marker::Model;

/// A set of events with their due instants, seen as the set of the pairs and the number of further
/// pairs that it has room for. Those that are due up to a horizon stand in order; the others, which
/// may be many and due far ahead, in none, and a pair may stand there twice.
pub struct Agenda {
    near: Near,
    far: Vec<Pending>,
    horizon: u32,
}

impl Model for Agenda {
    ghost use Rattle.std.specs.Prelude.{◌-◌, min, vec_capacity, vec_len};
    ghost use Rattle.gt_base.specs.Happening.{Roomier, roomier_code};
    ghost use Rattle.delay_agenda.specs.Due.{Pendings, pendings_code};
    ghost use Rattle.delay_agenda.specs.Far.{AreBehind, all_over};

    ghost Value = { Roomier Pendings };

    ghost coded = { roomier_code pendings_code };

    ghost view = { λ a. record {
      set = all_over a.near.set a.far.items;
      spare = min a.near.spare (vec_capacity a.far - vec_len a.far);
    } };

    ghost invariant = { λ a. AreBehind a.horizon a.far.items };
}

impl Drop for Agenda {
    fn drop(self) {
        let Agenda {
            near: _,
            far: _,
            horizon: _,
        } = self;
    }
}

impl Agenda {
    /// The empty agenda, without room, which takes no memory yet.
    pub fn new(alloc: Global) -> Agenda
        ensures set { result.set ≡ none }
        ensures spare { result.spare ≡ 0 }
    {
        Agenda {
            near: Near::new(alloc),
            far: Vec::new(alloc),
            horizon: 0,
        }
    }

    /// Makes room for n more pairs; where few stand in order, further ones are put there. For want
    /// of memory it may refuse; the set is then as it was, and the room no less.
    pub fn reserve(&mut self, n: usize) -> Result<(), Memory>
        ensures set { self.new.set ≡ self.old.set }
        ensures spare { self.old.spare ≤ self.new.spare }
        ensures room { OnOk result (n ≤ self.new.spare) }
    {
        self.near.reserve(n)?;
        self.far.reserve(n)?;
        if self.near.len() < self.far.len() / 8 {
            let to = far::further(&self.far);
            far::bring(&mut self.near, &mut self.far, &mut self.horizon, to)?;
        }
        Ok(())
    }

    /// Puts the pairs that are due up to the instant in order, and some that are due later. For
    /// want of memory it may refuse. The set stays as it was, and the room is no less.
    pub fn look_ahead(&mut self, to: Instant) -> Result<(), Memory>
        ensures set { self.new.set ≡ self.old.set }
        ensures spare { self.old.spare ≤ self.new.spare }
    {
        if to.minute() > self.horizon {
            let further = far::further(&self.far).max(to.minute());
            far::bring(&mut self.near, &mut self.far, &mut self.horizon, further)?;
        }
        Ok(())
    }

    /// An agenda with the same pairs. For want of memory it may refuse.
    pub fn copied(&self) -> Result<Agenda, Memory>
        ensures { IfOk result (λ copy. copy.set ≡ self.now.set) }
    {
        Ok(Agenda {
            near: self.near.copied()?,
            far: Vec::from_slice(*self.far.allocator(), &self.far)?,
            horizon: self.horizon,
        })
    }

    /// How many pairs it has; an event at two instants or at two priorities counts twice.
    pub fn len(&self) -> usize
        ensures { result ≡ length (members self.now.set) }
    {
        self.near.len() + far::count(&self.far, &self.near)
    }

    /// Adds an event that is due at the instant, into room that was made before. At most one of the
    /// room is used.
    pub fn put(&mut self, due: Instant, p: Prioritised)
        requires { 1 ≤ self.old.spare }
        ensures set { self.new.set ≡ with_member self.old.set (pending_at due p) }
        ensures spare { self.old.spare ≤ self.new.spare + 1 }
    {
        if due.minute() > self.horizon {
            match self.far.push(Pending { due, event: p }) {
                Ok(()) => {}
                Err(_) => unreachable!(),
            }
        } else {
            self.near.put(due, p);
        }
    }

    /// The least instant at which something is due; none exactly where nothing is.
    pub fn next_due(&self) -> Option<Instant>
        ensures none { IsNone result ↔ (self.now.set ≡ none) }
        ensures some { IfSome result (IsLeastDue self.now.set) }
    {
        far::next_due(self.near.next_due(), &self.far, self.horizon)
    }

    /// How many pairs are due at the instant, so for how many `take` wants room.
    pub fn due_count(&self, t: Instant) -> usize
        ensures { result ≡ count_due self.now.set t }
    {
        self.near.due_count(t) + far::count_due(&self.far, &self.near, t, self.horizon)
    }

    /// Adds the events that are due at the instant to a set of an instant, where room was made
    /// before. The agenda keeps them.
    pub fn tell(&self, t: Instant, into: &mut Happened)
        requires { count_due self.now.set t ≤ into.old.spare }
        ensures events { (e : Prioritised)
            → has into.new.set.events e
            ≡ (has into.old.set.events e || has self.now.set (pending_at t e)) }
        ensures signals { into.new.set.signals ≡ into.old.set.signals }
        ensures spare { into.old.spare ≤ into.new.spare + count_due self.now.set t }
    {
        far::tell(&self.far, &self.near, t, self.horizon, into);
        self.near.tell(t, into);
    }

    /// Takes out the pairs that are due at the instant, and keeps the others.
    pub fn forget(&mut self, t: Instant)
        ensures set { self.new.set ≡ those self.old.set (λ p. not (is_due_at t p)) }
        ensures spare { self.old.spare ≤ self.new.spare }
    {
        self.near.forget(t);
        far::forget(&mut self.far, t, self.horizon);
    }

    /// Moves the events that are due at the instant into a set of an instant, where room was made
    /// before. The agenda keeps the other pairs.
    pub fn take(&mut self, t: Instant, into: &mut Happened)
        requires { count_due self.old.set t ≤ into.old.spare }
        ensures events { (e : Prioritised)
            → has into.new.set.events e
            ≡ (has into.old.set.events e || has self.old.set (pending_at t e)) }
        ensures signals { into.new.set.signals ≡ into.old.set.signals }
        ensures spare { into.old.spare ≤ into.new.spare + count_due self.old.set t }
        ensures set { self.new.set ≡ those self.old.set (λ p. not (is_due_at t p)) }
        ensures room { self.old.spare ≤ self.new.spare }
    {
        self.tell(t, into);
        self.forget(t);
    }
}

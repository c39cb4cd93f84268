//! The signals of the next minute.
ghost use Rattle.std.specs.Prelude.{◌≡◌, ◌≤◌, ◌+◌, OnOk, IfOk};
ghost use Rattle.gt_base.specs.Orders.{signal_cmp};
ghost use Rattle.gt_base.specs.Sets.{none, set_of, with_member};

use gt_base::{Memory, Signal};
use std::alloc::Global;
use std::marker::Model;

/// A set of signals, seen as the set and the number of further signals that it has room for.
/// Cleared, it has as much room as before.
pub(crate) struct Waiting {
    signals: Vec<Signal>,
    spare: usize,
}

impl Model for Waiting {
    ghost use Rattle.std.specs.Prelude.{◌≤◌, ◌+◌, vec_capacity, vec_len};
    ghost use Rattle.gt_base.specs.Happening.{Roomier, roomier_code};
    ghost use Rattle.gt_base.specs.Sets.{set_of, set_code};
    ghost use Rattle.gt_base.specs.contracts.events.Signal as signal;
    ghost use Rattle.instant_bases.specs.Timelines.{Signals};

    ghost Value = { Roomier Signals };

    ghost coded = { roomier_code (set_code signal.the_row.coded) };

    ghost view = { λ w. record { set = set_of w.signals.items; spare = w.spare } };

    ghost invariant = { λ w. vec_len w.signals + w.spare ≤ vec_capacity w.signals };
}

impl Drop for Waiting {
    fn drop(self) {
        let Waiting {
            signals: _,
            spare: _,
        } = self;
    }
}

impl Waiting {
    /// The empty set, which takes no memory yet.
    pub(crate) fn new(alloc: Global) -> Waiting
        ensures { result.set ≡ none }
    {
        Waiting {
            signals: Vec::new(alloc),
            spare: 0,
        }
    }

    /// Makes room for n more signals.
    pub(crate) fn reserve(&mut self, n: usize) -> Result<(), Memory>
        ensures set { self.new.set ≡ self.old.set }
        ensures spare { self.old.spare ≤ self.new.spare }
        ensures room { OnOk result (n ≤ self.new.spare) }
    {
        if self.spare < n {
            self.signals.reserve(n)?;
            self.spare = n;
        }
        Ok(())
    }

    /// An equal set.
    pub(crate) fn copied(&self) -> Result<Waiting, Memory>
        ensures { IfOk result (λ copy. copy.set ≡ self.now.set) }
    {
        Ok(Waiting {
            signals: Vec::from_slice(*self.signals.allocator(), &self.signals)?,
            spare: 0,
        })
    }

    /// The signals; one that was added twice stands there twice.
    pub(crate) fn as_slice(&self) -> &[Signal]
        ensures { set_of {R = signal_cmp} result.now ≡ self.now.set }
    {
        &self.signals
    }

    /// Adds a signal, into room that was made before.
    pub(crate) fn add(&mut self, s: Signal)
        requires { 1 ≤ self.old.spare }
        ensures set { self.new.set ≡ with_member self.old.set s }
        ensures spare { self.old.spare ≤ self.new.spare + 1 }
    {
        match self.signals.push(s) {
            Ok(()) => {}
            Err(_) => unreachable!(),
        }
        self.spare -= 1;
    }

    /// Takes all out, and leaves the room as it was.
    pub(crate) fn clear(&mut self)
        ensures set { self.new.set ≡ none }
        ensures spare { self.new.spare ≡ self.old.spare }
    {
        self.signals.clear();
    }
}

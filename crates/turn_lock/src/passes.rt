//! The passes of a lock, as a list.
ghost use Rattle.std.specs.Prelude.{◌≡◌, ◌≤◌, ◌+◌, ◌++◌, ◌∷◌, [], MatchOption};

use crate::pass::Pass;
use std::marker::Model;

/// A list of passes. It is seen as its items and the number of further passes that it has room for.
pub struct Passes<M> {
    pub(crate) all: Vec<Pass<M>>,
}

impl<M> Model for Passes<M> {
    ghost use Rattle.gt_base.specs.Roomy.{Roomy};
    ghost use Rattle.turn_lock.specs.Holders.{Holder};

    ghost Value = { Roomy (Holder M) };

    ghost use Rattle.std.specs.Prelude.{◌-◌, vec_capacity, vec_len};

    ghost view = { λ p. record {
      items = p.all.items;
      spare = vec_capacity p.all - vec_len p.all;
    } };
}

impl<M> Passes<M> {
    /// Takes the last pass out and leaves its room. None where there is no pass, and then nothing
    /// has changed.
    pub fn take(&mut self) -> Option<Pass<M>>
        ensures last { MatchOption result ((self.old.items ≡ []) × (self.new ≡ self.old))
            (λ pass. self.old.items ≡ self.new.items ++ pass ∷ []) }
        ensures spare { MatchOption result (self.new.spare ≡ self.old.spare)
            (λ _. self.new.spare ≡ self.old.spare + 1) }
    {
        self.all.pop()
    }

    /// Puts a pass at the end, into room that is there.
    pub fn put(&mut self, pass: Pass<M>)
        requires { 1 ≤ self.old.spare }
        ensures items { self.new.items ≡ self.old.items ++ pass ∷ [] }
        ensures spare { self.new.spare + 1 ≡ self.old.spare }
    {
        self.all.push_reserved(pass);
    }
}

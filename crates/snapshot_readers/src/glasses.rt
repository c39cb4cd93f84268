//! The glasses of a board, as a list.
ghost use Rattle.std.specs.Prelude.{◌≡◌, ◌≤◌, ◌+◌, ◌++◌, ◌∷◌, [], replicate, OnOk, IfOk, MatchOption};
ghost use Rattle.snapshot_readers.specs.Glazed.{fresh_glass};

use crate::book_copy::BookCopy;
use crate::glass::Glass;
use gt_base::{Instant, Memory};
use policy_book::Policy;
use published_copies::Copies;
use std::alloc::Global;
use std::marker::Model;

/// A list of glasses. It is seen as its items and the number of further glasses that it has room
/// for.
pub struct Glasses {
    all: Vec<Glass>,
}

impl Model for Glasses {
    ghost use Rattle.gt_base.specs.Roomy.{Roomy};
    ghost use Rattle.snapshot_readers.specs.Glazed.{Glazed};

    ghost Value = { Roomy Glazed };

    ghost use Rattle.std.specs.Prelude.{◌-◌, vec_capacity, vec_len};

    ghost view = { λ g.
        record { items = g.all.items; spare = vec_capacity g.all - vec_len g.all } };
}

impl Drop for Glasses {
    fn drop(self) {
        let Glasses { all: _ } = self;
    }
}

impl Glasses {
    /// A glass for each viewer, over copies on which nothing was played. The policy is that of the
    /// copies. For want of memory or of a place for a reader there is none.
    pub fn over(
        alloc: Global,
        copies: &mut Copies<BookCopy>,
        viewers: u32,
        policy: &Policy,
        birth: Instant,
    ) -> Result<Glasses, Memory>
        requires { copies.old ≡ record { root = (policy.now, birth); shown = []; waiting = [] } }
        ensures copies { copies.new ≡ copies.old }
        ensures glasses { IfOk result
            (λ g. g.items ≡ replicate viewers (fresh_glass policy.now birth)) }
    {
        let mut glasses = Glasses {
            all: Vec::with_capacity(alloc, viewers as usize)?,
        };
        deal(copies, &mut glasses, viewers, policy, birth)?;
        Ok(glasses)
    }

    /// Takes the last glass out and leaves its room. None where there is no glass, and then nothing
    /// has changed.
    pub fn take(&mut self) -> Option<Glass>
        ensures last { MatchOption result ((self.old.items ≡ []) × (self.new ≡ self.old))
            (λ glass. self.old.items ≡ self.new.items ++ glass ∷ []) }
        ensures spare { MatchOption result (self.new.spare ≡ self.old.spare)
            (λ _. self.new.spare ≡ self.old.spare + 1) }
    {
        self.all.pop()
    }

    /// Puts a glass at the end, into room that is there.
    pub fn put(&mut self, glass: Glass)
        requires { 1 ≤ self.old.spare }
        ensures items { self.new.items ≡ self.old.items ++ glass ∷ [] }
        ensures spare { self.new.spare + 1 ≡ self.old.spare }
    {
        self.all.push_reserved(glass);
    }
}

/// Makes a glass for each viewer.
fn deal(
    copies: &mut Copies<BookCopy>,
    glasses: &mut Glasses,
    viewers: u32,
    policy: &Policy,
    birth: Instant,
) -> Result<(), Memory>
    requires room { (glasses.old.items ≡ []) × (viewers ≤ glasses.old.spare) }
    requires copies { copies.old ≡ record { root = (policy.now, birth); shown = []; waiting = [] } }
    ensures copies { copies.new ≡ copies.old }
    ensures glasses { OnOk result
        (glasses.new.items ≡ replicate viewers (fresh_glass policy.now birth)) }
{
    for _ in 0..viewers {
        glasses.put(Glass::over(copies.reader()?, policy, birth));
    }
    Ok(())
}

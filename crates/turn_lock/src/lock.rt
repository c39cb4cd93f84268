//! The lock, and what a pass does with it.
ghost use Rattle.std.specs.Prelude.{◌≡◌, ◌+◌, ◌^◌, ◌<◌, ◌≤◌, ◌++◌, [], ◌∷◌, length, drop, false, IfOk, IfErr, Some, None};
ghost use mathlib.Core.List.{IsPrefix};
ghost use Rattle.gt_base.specs.declared.requests.Entry.{Entry};
ghost use Rattle.turn_lock.specs.Turns.{part};
ghost use Rattle.turn_lock.specs.Holders.{site_of, rested};

use crate::front::Front;
use crate::pass::{MAX_DRAWS, Pass};
use crate::rule::TurnTable;
use crate::steps::{append, draw, give_back, release, resume, stay, take};
use gt_base::Keeps;
use std::marker::Model;
use std::sync::Wait;

/// A value that is lent to one pass at a time, in the order in which the passes drew their turns.
/// It is seen as its table, the value that it began with (its root) and the number of its passes.
pub struct TurnLock<M: Keeps> {
    pub(crate) table: TurnTable<M>,
}

impl<M: Keeps> Model for TurnLock<M> {
    ghost use Rattle.turn_lock.specs.Holders.{Lock};

    ghost Value = { Lock M };

    ghost use Rattle.std.specs.Prelude.{◌≤◌};
    ghost use Rattle.turn_lock.specs.Seats.{IsSized};

    ghost view = { λ l. record {
      table = l.table.shared.table_id;
      root = l.table.shared.key.value.value;
      passes = l.table.shared.key.passes;
    } };

    ghost invariant = { λ l. IsSized l.table.shared.table_id × (1 ≤ l.table.shared.key.passes) };
}

/// How many turns in a row a pass keeps.
const MAX_KEPT: u32 = 64;

/// The pass has drawn as many turns as a pass may, which is 2^40.
#[derive(Clone, Copy, PartialEq, Eq)]
pub struct Worn {
    pub draws: u64,
}

impl<M: Keeps> TurnLock<M> {
    /// Draws a turn, waits for it and hands the value out. `Worn` comes just where the pass has
    /// drawn 2^40 turns; then nothing has changed.
    pub fn turn<R: Wait>(&self, rt: &R, pass: &mut Pass<M>) -> Result<M, Worn>
        requires pass { (pass.old.site ≡ site_of self.now) × (pass.old.turn ≡ None) }
        ensures ok { IfOk result
            (λ value. (pass.old.draws < 2 ^ 40)
            × (pass.new
            ≡ record pass.old {
              draws = pass.old.draws + 1;
              turn = Some (M.list value);
              keeps = false;
            })) }
        ensures seen { IfOk result (λ value. IsPrefix pass.old.seen (M.list value)) }
        ensures root { IfOk result (λ value. M.same_root self.now.root value) }
        ensures worn { IfErr result
            (λ worn. (worn.draws ≡ 2 ^ 40) × (pass.old.draws ≡ 2 ^ 40)
            × (pass.new ≡ pass.old)) }
    {
        if pass.draws >= MAX_DRAWS {
            return Err(Worn { draws: pass.draws });
        }
        pass.draws += 1;
        if pass.kept {
            pass.kept = false;
            return Ok(resume(&self.table.shared, &mut pass.seat));
        }
        let ticket = draw(&self.table.shared, &mut pass.seat);
        Ok(take(rt, &self.table.shared, &mut pass.seat, ticket))
    }

    /// Records the one entry by which the value that is out grew. The worker of the entry is the
    /// number of the pass.
    pub fn step(&self, pass: &mut Pass<M>, value: &M)
        requires pass { pass.old.site ≡ site_of self.now }
        requires grown { (known : _) × (e : Entry) × (pass.old.turn ≡ Some known)
            × (M.list value.now ≡ known ++ e ∷ []) × (e.who.worker ≡ pass.old.number) }
        ensures { (known : _) (e : Entry) → pass.old.turn ≡ Some known
            → M.list value.now ≡ known ++ e ∷ []
            → pass.new
            ≡ record pass.old {
              seen = M.list value.now;
              own = pass.old.own ++ e ∷ [];
              turn = Some (M.list value.now);
            } }
    {
        append(&self.table.shared, &mut pass.seat, value);
    }

    /// Gives the value and the turn back; a pass that stays keeps the turn, and gives it on when it
    /// rests. The pass has then seen the list of the value, and all entries of its number after the
    /// first front are its own.
    pub fn leave(&self, pass: &mut Pass<M>, value: M) -> Front<M>
        requires pass { (pass.old.site ≡ site_of self.now) × (pass.old.turn ≡ Some (M.list value)) }
        requires root { M.same_root self.now.root value }
        ensures front { result ≡ M.list value }
        ensures pass { pass.new
            ≡ record pass.old { seen = M.list value; turn = None; keeps = pass.new.keeps } }
        ensures kept { pass.old.stays ≡ false → pass.new.keeps ≡ false }
        ensures first { IsPrefix (M.list self.now.root) (M.list value) }
        ensures own { pass.new.own
            ≡ part pass.new.number (drop (length (M.list self.now.root)) (M.list value)) }
    {
        let front = Front::of(&value);
        if pass.stays && pass.run < MAX_KEPT {
            pass.run += 1;
            pass.kept = true;
            stay(&self.table.shared, &mut pass.seat, value);
        } else {
            pass.run = 0;
            give_back(&self.table.shared, &mut pass.seat, value);
        }
        front
    }

    /// Gives the turn on where the pass has kept it, and has it keep none from now on.
    pub fn rest(&self, pass: &mut Pass<M>)
        requires pass { (pass.old.site ≡ site_of self.now) × (pass.old.turn ≡ None) }
        ensures { pass.new ≡ rested pass.old }
    {
        pass.stays = false;
        pass.run = 0;
        if pass.kept {
            pass.kept = false;
            release(&self.table.shared, &mut pass.seat);
        }
    }
}

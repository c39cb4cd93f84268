//! A pass of the lock, as its holder sees it.
ghost use Rattle.std.specs.Prelude.{◌≡◌, true, [], ◌∷◌};
ghost use Rattle.turn_lock.specs.Turns.{undrawn};
ghost use Rattle.turn_lock.specs.Holders.{account_of, turn_of, HandFits, is_kept};
ghost use Rattle.turn_lock.specs.Seats.{mine};

use crate::rule::Place;
use std::marker::Model;

/// How many turns a pass may draw.
pub const MAX_DRAWS: u64 = 1 << 40;

/// What a thread takes turns with. One that is dropped keeps its lock from being closed, and others
/// from their turns where it has kept its own.
pub struct Pass<M> {
    pub(crate) seat: Place<M>,
    pub(crate) number: u32,
    pub(crate) draws: u64,
    /// Whether it is to keep its turn when it gives the value back.
    pub(crate) stays: bool,
    /// Whether it has kept its turn.
    pub(crate) kept: bool,
    /// How many turns in a row it has kept.
    pub(crate) run: u32,
}

impl<M> Model for Pass<M> {
    ghost use Rattle.turn_lock.specs.Holders.{Holder};

    ghost Value = { Holder M };

    ghost use Rattle.std.specs.Prelude.{◌≡◌, ◌≤◌, ◌^◌, [], ◌∷◌};
    ghost use Rattle.turn_lock.specs.Holders.{turn_of, HandFits, is_kept};
    ghost use Rattle.turn_lock.specs.Seats.{mine};

    ghost view = { λ p. record {
      site = record { table = p.seat.table_id; root = p.seat.me.0.root };
      number = p.number;
      draws = p.draws;
      seen = (mine p.seat).seen;
      own = (mine p.seat).own;
      turn = turn_of p.seat.me.0.stage;
      stays = p.stays;
      keeps = p.kept;
    } };

    ghost invariant = { λ p. (p.seat.me.0.accounts
        ≡ record {
          number = p.number;
          draws = (mine p.seat).draws;
          seen = (mine p.seat).seen;
          own = (mine p.seat).own;
        } ∷ [])
        × HandFits p.seat.me.0.stage p.seat.me.1
        × (p.kept ≡ is_kept p.seat.me.0.stage)
        × ((mine p.seat).draws ≤ p.draws) × (p.draws ≤ 2 ^ 40) };
}

impl<M> Pass<M> {
    /// The number that the lock gave it, from 0.
    pub fn number(&self) -> u32
        ensures { result ≡ self.now.number }
    {
        self.number
    }

    /// From now on it keeps its turn when it gives the value back, up to 64 turns in a row, until
    /// it rests. Others wait meanwhile, so whoever says so has it rest before waiting for anything
    /// else.
    pub fn stay(&mut self)
        ensures { self.new ≡ record self.old { stays = true } }
    {
        self.stays = true;
    }

    /// Its seat, and whether it has kept its turn.
    pub(crate) fn into_parts(self) -> (Place<M>, bool)
        ensures site { (result.0.table_id ≡ self.site.table)
            × (result.0.me.0.root ≡ self.site.root) }
        ensures stage { (turn_of result.0.me.0.stage ≡ self.turn)
            × HandFits result.0.me.0.stage result.0.me.1
            × (result.1 ≡ is_kept result.0.me.0.stage) }
        ensures account { (result.0.me.0.accounts ≡ mine result.0 ∷ [])
            × (undrawn (mine result.0) ≡ account_of self) }
    {
        let Self {
            seat,
            number: _,
            draws: _,
            stays: _,
            kept,
            run: _,
        } = self;
        (seat, kept)
    }
}

impl<M> Drop for Pass<M> {
    fn drop(self) {
        let Self {
            seat: _,
            number: _,
            draws: _,
            stays: _,
            kept: _,
            run: _,
        } = self;
    }
}

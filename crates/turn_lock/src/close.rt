//! The end of a lock: all passes are back, and the value is handed out.
ghost use Rattle.std.specs.Prelude.{◌≡◌, ◌<◌, ◌≤◌, ◌++◌, [], ◌∷◌, ℕ, None, Some, map, length, drop};
ghost use mathlib.Core.List.{IsPrefix};
ghost use Rattle.turn_lock.specs.Turns.{Each, Has, EndsPasses, part, undrawn};
ghost use Rattle.turn_lock.specs.Seats.{IsSized, IsSameSeat, IsMany};
ghost use Rattle.turn_lock.specs.Holders.{Lock, site_of, AreIdle, HasNumber, IsToldBy, account_of};

use crate::lock::TurnLock;
use crate::pass::Pass;
use crate::passes::Passes;
use crate::plays::Glue;
use crate::rule::{Place, TurnTable};
use crate::steps::{Tabletop, release};
use crate::view::Spot;
use gt_base::Keeps;

/// The seat of a pass, which gives its turn on where it has kept it.
fn seat_of<M: Keeps>(top: &Tabletop<M>, pass: Pass<M>) -> Place<M>
    requires fits { (pass.site
        ≡ record { table = top.now.table_id; root = Some top.now.key.value.value })
        × IsSized top.now.table_id }
    requires idle { pass.turn ≡ None }
    ensures seat { (result.table_id ≡ top.now.table_id)
        × IsMany top.now.key.value.value result.me.0.accounts result }
    ensures account { map undrawn result.me.0.accounts ≡ account_of pass ∷ [] }
{
    let (mut seat, kept) = pass.into_parts();
    if kept {
        release(top, &mut seat);
    }
    seat
}

/// Joins all passes to the seat.
fn gather<M: Keeps>(top: &Tabletop<M>, seat: &mut Place<M>, mut all: Vec<Pass<M>>)
    requires fits { (seat.old.table_id ≡ top.now.table_id) × IsSized top.now.table_id }
    requires seat { IsMany top.now.key.value.value seat.old.me.0.accounts seat.old }
    requires idle { AreIdle
        (record { table = top.now.table_id; root = Some top.now.key.value.value })
        all.items }
    ensures seat { (seat.new.table_id ≡ seat.old.table_id)
        × IsMany top.now.key.value.value seat.new.me.0.accounts seat.new }
    ensures accounts { map undrawn seat.new.me.0.accounts
        ≡ map account_of all.items ++ map undrawn seat.old.me.0.accounts }
{
    while let Some(pass) = all.pop() {
        let other = seat_of(top, pass);
        top.join_seat::<Glue>(seat, other);
    }
    all.destroy_empty();
}

/// Takes the value out.
fn finish<M: Keeps>(table: TurnTable<M>, seat: Place<M>) -> M
    requires fits { (seat.table_id ≡ table.shared.table_id) × IsSized table.shared.table_id }
    requires seat { IsMany table.shared.key.value.value seat.me.0.accounts seat }
    requires all { (n : ℕ) → n < table.shared.key.passes → Has n seat.me.0.accounts }
    ensures { EndsPasses M.list M.same_root table.shared.key.value.value table.shared.key.passes
        seat.me.0.accounts result }
{
    let mut closed = table.close_with(seat);
    let spot = closed.take(0);
    closed.free();
    let Spot::Home(value) = spot else {
        unreachable!()
    };
    value
}

impl<M: Keeps> TurnLock<M> {
    /// Ends the lock and answers the value, once every pass is back.
    pub fn close(self, passes: Passes<M>) -> M
        requires idle { AreIdle (site_of self) passes.items }
        requires all { (n : ℕ) → n < self.passes → HasNumber n passes.items }
        ensures root { M.same_root self.root result }
        ensures first { IsPrefix (M.list self.root) (M.list result) }
        ensures each { Each (IsToldBy (M.list self.root) (M.list result)) passes.items }
        ensures others { (n : ℕ) → self.passes ≤ n
            → part n (drop (length (M.list self.root)) (M.list result)) ≡ [] }
    {
        let TurnLock { table } = self;
        let Passes { mut all } = passes;
        let last = all.pop();
        let Some(pass) = last else { unreachable!() };
        let mut seat = seat_of(&table.shared, pass);
        gather(&table.shared, &mut seat, all);
        finish(table, seat)
    }
}

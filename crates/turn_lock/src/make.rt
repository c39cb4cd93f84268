//! A new lock over a value, with its passes.
ghost use Rattle.std.specs.Prelude.{◌≡◌, ◌+◌, ◌-◌, ◌<◌, ◌≤◌, [], ◌∷◌, vec_len, vec_capacity, IfOk, IfErr};
ghost use Rattle.turn_lock.specs.declared.view.Stage.TheVariants.{Idle};
ghost use Rattle.turn_lock.specs.Turns.{plain, account};
ghost use Rattle.turn_lock.specs.Seats.{IsSized, IsAt, IsSameSeat, mine};
ghost use Rattle.turn_lock.specs.Holders.{newcomer, newcomers};

use crate::lock::TurnLock;
use crate::pass::Pass;
use crate::passes::Passes;
use crate::plays::Cut;
use crate::rule::{Place, TurnTable};
use crate::steps::Tabletop;
use crate::view::{Origin, Spot};
use atomic_table::{Refused, Table};
use gt_base::Keeps;
use std::alloc::Global;
use std::snapshot::Snapshot;

/// There was no memory for a lock. The value comes back.
#[derive(Drop)]
pub struct NewFault<M> {
    pub value: M,
}

/// The value in the one slot.
fn only<M>(mut slots: Vec<Spot<M>>) -> M
    requires { (x : M) × (slots.items ≡ Spot.Home x ∷ []) }
    ensures { slots.items ≡ Spot.Home result ∷ [] }
{
    let last = slots.pop();
    let Some(spot) = last else { unreachable!() };
    slots.destroy_empty();
    let Spot::Home(value) = spot else {
        unreachable!()
    };
    value
}

/// The table, with the value home, and the seat of the first pass.
fn open<M: Keeps>(
    alloc: Global,
    value: M,
    passes: u64,
) -> Result<(TurnTable<M>, Place<M>), NewFault<M>>
    requires { (1 ≤ passes) × (passes ≤ 8) }
    ensures ok { IfOk result
        (λ t. IsSized t.0.shared.table_id × (t.0.shared.key.value.value ≡ value)
        × (t.0.shared.key.passes ≡ passes) × (t.1.table_id ≡ t.0.shared.table_id)
        × (t.1.me ≡ (plain value (account 0 (M.list value)) 1 Idle, []))) }
    ensures err { IfErr result (λ e. e.value ≡ value) }
{
    let origin = Origin {
        value: Snapshot::of(&value),
        passes,
    };
    let len = value.kept();
    let Ok(mut slots) = Vec::with_capacity(alloc, 1) else {
        return Err(NewFault { value });
    };
    slots.push_reserved(Spot::Home(value));
    match Table::new(alloc, &[len, 0, 0], slots, &origin) {
        Ok(made) => Ok(made),
        Err(Refused { slots }) => Err(NewFault { value: only(slots) }),
    }
}

/// The seat of the next pass.
fn cut<M: Keeps>(top: &Tabletop<M>, seat: &mut Place<M>) -> Place<M>
    requires fits { (seat.old.table_id ≡ top.now.table_id) × IsSized top.now.table_id }
    requires idle { IsAt top.now.key.value.value (mine seat.old) Idle [] seat.old }
    requires room { (0 < seat.old.me.0.next) × (seat.old.me.0.next < top.now.key.passes) }
    ensures seat { IsSameSeat seat.old seat.new
        × (seat.new.me
        ≡ (
          plain top.now.key.value.value (mine seat.old) (seat.old.me.0.next + 1) Idle,
          [],
        )) }
    ensures other { (result.table_id ≡ seat.old.table_id)
        × (result.me
        ≡ (
          plain top.now.key.value.value (account seat.old.me.0.next (mine seat.old).seen) 0
              Idle,
          [],
        )) }
{
    top.split_seat::<Cut>(seat)
}

/// Makes the passes of the numbers from 1 on, and puts that of number 0 before them.
fn deal<M: Keeps>(top: &Tabletop<M>, mut seat: Place<M>, passes: u32, all: &mut Vec<Pass<M>>)
    requires fits { (seat.table_id ≡ top.now.table_id) × IsSized top.now.table_id
        × (passes ≡ top.now.key.passes) × (1 ≤ passes) }
    requires start { seat.me
        ≡ (
          plain top.now.key.value.value (account 0 (M.list top.now.key.value.value)) 1 Idle,
          [],
        ) }
    requires room { (all.old.items ≡ []) × (passes ≤ vec_capacity all.old) }
    ensures { all.new.items
        ≡ newcomers
        (record {
          table = top.now.table_id;
          root = top.now.key.value.value;
          passes = passes;
        })
        (M.list top.now.key.value.value) 0 passes }
{
    for number in 1..passes {
        let other = cut(top, &mut seat);
        all.push_reserved(Pass {
            seat: other,
            number,
            draws: 0,
            stays: false,
            kept: false,
            run: 0,
        });
    }
    let first = Pass {
        seat,
        number: 0,
        draws: 0,
        stays: false,
        kept: false,
        run: 0,
    };
    if all.insert(0, first).is_err() {
        unreachable!()
    }
}

impl<M: Keeps> TurnLock<M> {
    /// A lock over the value, with 1 to 8 passes: pass w has number w, has drawn no turn and has
    /// seen the first front, which is the list that the value keeps now. An error is want of memory
    /// alone, and hands the value back.
    pub fn new(
        alloc: Global,
        value: M,
        passes: u32,
    ) -> Result<(TurnLock<M>, Passes<M>), NewFault<M>>
        requires { (1 ≤ passes) × (passes ≤ 8) }
        ensures lock { IfOk result (λ t. (t.0.root ≡ value) × (t.0.passes ≡ passes)) }
        ensures passes { IfOk result (λ t. t.1.items ≡ newcomers t.0 (M.list value) 0 passes) }
        ensures err { IfErr result (λ e. e.value ≡ value) }
    {
        let Ok(mut all) = Vec::with_capacity(alloc, passes as usize) else {
            return Err(NewFault { value });
        };
        match open(alloc, value, passes as u64) {
            Ok((table, seat)) => {
                deal(&table.shared, seat, passes, &mut all);
                Ok((TurnLock { table }, Passes { all }))
            }
            Err(fault) => {
                all.destroy_empty();
                Err(fault)
            }
        }
    }
}

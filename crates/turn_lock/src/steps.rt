//! The steps of one seat.
ghost use Rattle.std.specs.Prelude.{◌≡◌, ◌+◌, ◌^◌, ◌<◌, ◌++◌, [], ◌∷◌, length, drop};
ghost use mathlib.Core.List.{IsPrefix};
ghost use Rattle.gt_base.specs.declared.requests.Entry.{Entry};
ghost use Rattle.turn_lock.specs.declared.view.Stage.TheVariants.{Idle, Waits, Keeps, Holds};
ghost use Rattle.turn_lock.specs.declared.view.Spot.TheVariants.{Away};
ghost use Rattle.turn_lock.specs.Turns.{known_in, ticket_in, part};
ghost use Rattle.turn_lock.specs.Seats.{IsSized, IsAt, IsSameSeat, mine};

use crate::plays::{Add, Count, Draw, Look, PassOn, Release, Resume, Stay};
use crate::rule::{Place, Turns};
use crate::view::{Origin, SeatView, Spot};
use atomic_table::Shared;
use gt_base::Keeps;
use std::hint;
use std::snapshot::Snapshot;
use std::sync::Wait;

/// What all seats share of the table.
pub type Tabletop<M> = Shared<Spot<M>, SeatView<M>, Origin<M>, Turns<M>>;

/// Draws a ticket.
pub fn draw<M: Keeps>(top: &Tabletop<M>, seat: &mut Place<M>) -> u64
    requires fits { (seat.old.table_id ≡ top.now.table_id) × IsSized top.now.table_id }
    requires idle { IsAt top.now.key.value.value (mine seat.old) Idle [] seat.old }
    requires left { (mine seat.old).draws < 2 ^ 40 }
    ensures seat { IsSameSeat seat.old seat.new }
    ensures ticket { IsAt top.now.key.value.value
        (record (mine seat.old) { draws = (mine seat.old).draws + 1 })
        (Waits result) [] seat.new }
{
    top.fetch_add::<Draw>(seat, 1, 1)
}

/// How often a seat looks whether its ticket is served before it sleeps.
const LOOKS: u32 = 100;

/// Waits a little, or sleeps where it has looked often, until `serving` moves on. It never yields
/// the processor: on a busy machine a yield gives a whole slice of time away, also that of the next
/// ticket.
fn pause<M: Keeps, R: Wait>(rt: &R, top: &Tabletop<M>, serving: u64, looks: u32)
    requires { top.now.table_id.words ≡ 3 }
{
    if looks < LOOKS {
        hint::spin_loop();
    } else {
        top.park(rt, 2, (serving & 0xffff_ffff) as u32);
    }
}

/// Waits until the ticket is served, and takes the value out.
pub fn take<M: Keeps, R: Wait>(rt: &R, top: &Tabletop<M>, seat: &mut Place<M>, ticket: u64) -> M
    requires fits { (seat.old.table_id ≡ top.now.table_id) × IsSized top.now.table_id }
    requires waits { IsAt top.now.key.value.value (mine seat.old) (Waits ticket) [] seat.old }
    ensures seat { IsSameSeat seat.old seat.new }
    ensures turn { IsAt top.now.key.value.value (mine seat.old) (Holds ticket (M.list result))
        ((0, Away) ∷ []) seat.new }
    ensures seen { IsPrefix (mine seat.old).seen (M.list result) }
    ensures root { M.same_root top.now.key.value.value result }
{
    let mut looks = 0u32;
    for _ in rt.forever() {
        let serving = top.load::<Look>(seat, 2);
        if serving == ticket {
            let found = top.exchange(seat, 0, Spot::Away);
            let Spot::Home(value) = found else {
                unreachable!()
            };
            return value;
        }
        pause(rt, top, serving, looks);
        looks = looks.saturating_add(1);
    }
    unreachable!()
}

/// Records the one entry by which the value grew.
pub fn append<M: Keeps>(top: &Tabletop<M>, seat: &mut Place<M>, value: &M)
    requires fits { (seat.old.table_id ≡ top.now.table_id) × IsSized top.now.table_id }
    requires turn { IsAt top.now.key.value.value (mine seat.old)
        (Holds (ticket_in seat.old.me.0.stage) (known_in seat.old.me.0.stage)) ((0, Away) ∷ [])
        seat.old }
    requires grown { (e : Entry) × (M.list value.now ≡ known_in seat.old.me.0.stage ++ e ∷ [])
        × (e.who.worker ≡ (mine seat.old).number) }
    ensures seat { IsSameSeat seat.old seat.new }
    ensures turn { (e : Entry) → M.list value.now ≡ known_in seat.old.me.0.stage ++ e ∷ []
        → IsAt top.now.key.value.value
        (record (mine seat.old) {
          seen = M.list value.now;
          own = (mine seat.old).own ++ e ∷ [];
        })
        (Holds (ticket_in seat.old.me.0.stage) (M.list value.now)) ((0, Away) ∷ [])
        seat.new }
{
    // The length of the list fits a word.
    let _ = value.kept();
    let away = top.exchange(seat, 0, Spot::Told(Snapshot::of(value)));
    let Spot::Away = away else { unreachable!() };
    top.fetch_add::<Add>(seat, 0, 1);
    let told = top.exchange(seat, 0, Spot::Away);
    let Spot::Told(_) = told else { unreachable!() };
}

/// Gives the value and the turn back.
pub fn give_back<M: Keeps>(top: &Tabletop<M>, seat: &mut Place<M>, value: M)
    requires fits { (seat.old.table_id ≡ top.now.table_id) × IsSized top.now.table_id }
    requires turn { IsAt top.now.key.value.value (mine seat.old)
        (Holds (ticket_in seat.old.me.0.stage) (M.list value)) ((0, Away) ∷ []) seat.old }
    requires root { M.same_root top.now.key.value.value value }
    ensures seat { IsSameSeat seat.old seat.new }
    ensures idle { IsAt top.now.key.value.value (record (mine seat.old) { seen = M.list value })
        Idle [] seat.new }
    ensures first { IsPrefix (M.list top.now.key.value.value) (M.list value) }
    ensures own { (mine seat.old).own
        ≡ part (mine seat.old).number
        (drop (length (M.list top.now.key.value.value)) (M.list value)) }
{
    let away = top.exchange(seat, 0, Spot::Home(value));
    let Spot::Away = away else { unreachable!() };
    let served = top.fetch_add::<PassOn>(seat, 2, 1);
    wake(top, seat, served);
}

/// Wakes those who sleep, where a ticket was drawn behind the one that was served.
fn wake<M: Keeps>(top: &Tabletop<M>, seat: &mut Place<M>, served: u64)
    requires fits { (seat.old.table_id ≡ top.now.table_id) × IsSized top.now.table_id }
    requires hand { seat.old.me.1 ≡ [] }
    ensures { IsSameSeat seat.old seat.new × (seat.new.me ≡ seat.old.me) }
{
    let drawn = top.load::<Count>(seat, 1);
    // Who draws a ticket behind this load finds it served, and does not sleep.
    if drawn != served.wrapping_add(1) {
        top.wake_all(2);
    }
}

/// Gives the value back, and keeps the turn.
pub fn stay<M: Keeps>(top: &Tabletop<M>, seat: &mut Place<M>, value: M)
    requires fits { (seat.old.table_id ≡ top.now.table_id) × IsSized top.now.table_id }
    requires turn { IsAt top.now.key.value.value (mine seat.old)
        (Holds (ticket_in seat.old.me.0.stage) (M.list value)) ((0, Away) ∷ []) seat.old }
    requires root { M.same_root top.now.key.value.value value }
    ensures seat { IsSameSeat seat.old seat.new }
    ensures kept { IsAt top.now.key.value.value (record (mine seat.old) { seen = M.list value })
        (Keeps (ticket_in seat.old.me.0.stage)) [] seat.new }
    ensures first { IsPrefix (M.list top.now.key.value.value) (M.list value) }
    ensures own { (mine seat.old).own
        ≡ part (mine seat.old).number
        (drop (length (M.list top.now.key.value.value)) (M.list value)) }
{
    let away = top.exchange(seat, 0, Spot::Home(value));
    let Spot::Away = away else { unreachable!() };
    top.load::<Stay>(seat, 0);
}

/// Takes the value out in a turn that was kept.
pub fn resume<M: Keeps>(top: &Tabletop<M>, seat: &mut Place<M>) -> M
    requires fits { (seat.old.table_id ≡ top.now.table_id) × IsSized top.now.table_id }
    requires kept { IsAt top.now.key.value.value (mine seat.old)
        (Keeps (ticket_in seat.old.me.0.stage)) [] seat.old }
    ensures seat { IsSameSeat seat.old seat.new }
    ensures turn { IsAt top.now.key.value.value (mine seat.old)
        (Holds (ticket_in seat.old.me.0.stage) (M.list result)) ((0, Away) ∷ []) seat.new }
    ensures seen { IsPrefix (mine seat.old).seen (M.list result) }
    ensures root { M.same_root top.now.key.value.value result }
{
    top.load::<Resume>(seat, 0);
    let found = top.exchange(seat, 0, Spot::Away);
    let Spot::Home(value) = found else {
        unreachable!()
    };
    value
}

/// Gives a turn on that was kept.
pub fn release<M: Keeps>(top: &Tabletop<M>, seat: &mut Place<M>)
    requires fits { (seat.old.table_id ≡ top.now.table_id) × IsSized top.now.table_id }
    requires kept { IsAt top.now.key.value.value (mine seat.old)
        (Keeps (ticket_in seat.old.me.0.stage)) [] seat.old }
    ensures seat { IsSameSeat seat.old seat.new }
    ensures idle { IsAt top.now.key.value.value (mine seat.old) Idle [] seat.new }
{
    let served = top.fetch_add::<Release>(seat, 2, 1);
    wake(top, seat, served);
}

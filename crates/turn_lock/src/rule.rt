//! The rule of the table. Its words are the number of entries, the number of tickets and the ticket
//! that is served.
use crate::view::{Origin, SeatView, Spot};
use atomic_table::{Seat, Table, TableRule};
use gt_base::Keeps;
use std::alloc::Global;
use std::marker::PhantomData;

/// What holds of the table between any two steps.
pub struct Turns<M> {
    of: PhantomData<M>,
}

impl<M: Keeps> TableRule<Spot<M>, SeatView<M>, Origin<M>> for Turns<M> {
    ghost use Rattle.turn_lock.specs.Turns.{KeptRule, first_view};

    ghost holds = { KeptRule M.list M.same_root };

    ghost first = { first_view M.list };
}

/// The table of a lock.
pub type TurnTable<M> = Table<Spot<M>, SeatView<M>, Origin<M>, Turns<M>, Global>;

/// The seat of a pass.
pub type Place<M> = Seat<Spot<M>, SeatView<M>>;

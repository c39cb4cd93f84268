//! What each step on the table tells.
ghost use Rattle.turn_lock.specs.Turns.{drawn, looked, counted, added, passed, stayed, resumed, released, joined, spent_view, split_left, split_right};

use crate::view::{SeatView, Spot};
use atomic_table::{Join, Play, Split};
use gt_base::Keeps;

/// Draws a ticket.
pub struct Draw;

impl<M> Play<Spot<M>, SeatView<M>> for Draw {
    ghost then = { drawn };
}

/// Looks whether the ticket is served.
pub struct Look;

impl<M: Keeps> Play<Spot<M>, SeatView<M>> for Look {
    ghost then = { looked M.list M.same_root };
}

/// Reads how many tickets were drawn.
pub struct Count;

impl<M> Play<Spot<M>, SeatView<M>> for Count {
    ghost then = { counted };
}

/// Counts the entry by which the value grew.
pub struct Add;

impl<M: Keeps> Play<Spot<M>, SeatView<M>> for Add {
    ghost then = { added M.list };
}

/// Serves the next ticket.
pub struct PassOn;

impl<M: Keeps> Play<Spot<M>, SeatView<M>> for PassOn {
    ghost then = { passed M.list };
}

/// Puts the slot home, and keeps the ticket served.
pub struct Stay;

impl<M: Keeps> Play<Spot<M>, SeatView<M>> for Stay {
    ghost then = { stayed M.list };
}

/// Takes the slot again, whose ticket was kept served.
pub struct Resume;

impl<M: Keeps> Play<Spot<M>, SeatView<M>> for Resume {
    ghost then = { resumed M.list M.same_root };
}

/// Serves the next ticket after one that was kept served.
pub struct Release;

impl<M> Play<Spot<M>, SeatView<M>> for Release {
    ghost then = { released };
}

/// Gives the next number to a new seat.
pub struct Cut;

impl<M> Split<SeatView<M>> for Cut {
    ghost left = { split_left };

    ghost right = { split_right };
}

/// Puts the accounts of another seat beside its own.
pub struct Glue;

impl<M> Join<SeatView<M>> for Glue {
    ghost both = { joined };

    ghost spent = { spent_view };
}

//! The table of links: one seat for each that was opened.
ghost use Rattle.std.specs.Prelude.{◌≡◌, IfOk, OnOk, OnErr};
ghost use Rattle.poll_front.specs.Tables.{IsFreshState, TakesState};

use crate::ends::Polled;
use crate::states::LinkState;
use gt_base::{List, Memory};
use std::alloc::Global;

/// The place of a link, by its number.
#[derive(Drop)]
pub enum LinkRow {
    /// It is open, and has not been ready yet.
    New,
    /// It is open.
    Open(Box<LinkState>),
    /// It has ended.
    Over(Polled),
}

/// What is kept of a further link: in the place of one that has ended, where there is one.
fn take_state(alloc: Global, spares: &mut Vec<Box<LinkState>>) -> Result<Box<LinkState>, Memory>
    ensures { IfOk result (λ b. IsFreshState b.value) }
{
    match spares.pop() {
        Some(mut state) => {
            state.renew(alloc);
            Ok(state)
        }
        None => Ok(Box::new(alloc, LinkState::new(List::new(alloc)))?),
    }
}

/// Makes a place ready to be served.
pub(crate) fn fill_seat(
    alloc: Global,
    spares: &mut Vec<Box<LinkState>>,
    seat: &mut LinkRow,
) -> Result<(), Memory>
    ensures taken { OnOk result (TakesState seat.old seat.new) }
    ensures same { OnErr result (seat.new ≡ seat.old) }
{
    if let LinkRow::New = seat {
        *seat = LinkRow::Open(take_state(alloc, spares)?);
    }
    Ok(())
}

//! A `Board` is a ledger whose entries are published on two copies, and a `Glass` looks at the copy
//! that was published last, without the lock. A `Viewer` serves links by glances, and seats let
//! viewers run in threads of their own.
#![tactic(auto)]

mod board;
mod book_copy;
mod ends;
mod glass;
mod glasses;
mod guide;
mod machine_board;
mod named;
mod seats;
mod serve;
mod server;
mod viewers;

pub use board::{Board, BoardFault};
pub use book_copy::BookCopy;
pub use ends::{ViewEnd, Viewed, ViewerEnd};
pub use glass::{Glanced, Glass};
pub use glasses::Glasses;
pub use seats::{ViewerSeat, all_told, leave_seats, run_seats, settle_all, take_seats};
pub use serve::view_link;
pub use server::ViewServer;
pub use viewers::{Viewer, view};

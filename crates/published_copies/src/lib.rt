//! Two copies of a value that entries are played on: readers look at one with no lock, while the
//! other is brought up.
#![tactic(auto)]

mod batch;
mod copies;
mod looking;
mod notes;
mod replica;
mod views;

pub use batch::Batch;
pub use copies::Copies;
pub use looking::{Looking, Sight};
pub use replica::Replica;
pub use views::ReaderView;

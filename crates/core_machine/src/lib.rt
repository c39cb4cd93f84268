//! The book: one thread's history of a policy, each entry of it legal, with the execution model
//! that makes it so.
#![tactic(auto)]

mod asking;
mod books;
mod entering;
mod ledgers;
mod looking;
mod machine_book;
mod machine_ledger;
mod prepared;
mod sessions;
mod states;
mod ticking;

pub use books::{Book, BookMemory};
pub use ledgers::Ledger;
pub use looking::only_looks;
pub use policy_safety::{AdmitFault, CycleEdge, Safe};
pub use time_engine::{Closed, Trace};

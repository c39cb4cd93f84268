//! What lies ahead of a book, if no request comes any more.
#![tactic(auto)]

mod changes;
mod laws;
mod raised;
mod walking;

pub use changes::{Change, first_change};
pub use laws::ahead_is_one;

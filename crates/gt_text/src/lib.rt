//! Lines, words and numbers of a text, read without memory.
#![tactic(auto)]

mod lines;
mod numbers;
mod words;

pub use lines::{Lines, without_return};
pub use numbers::{push_number, read_between, read_number};
pub use words::{Words, begins, is_blank};

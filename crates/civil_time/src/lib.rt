//! Civil minutes of the years 2000 to 2099 and their texts.
#![tactic(auto)]

mod civil;
mod laws;
mod text;

pub use civil::{Civil, NoSuchMinute, civil_of, day, instant};
pub use laws::{minutes_match, texts_are_read};
pub use text::{read_civil, write_civil};

//! What holds of the texts of policies: what their lines say one after the other, where the
//! expression of a period line stands, and how long the lines are that are written.
#![tactic(auto)]

mod laws;

pub use laws::{lines_stay_short, policies_are_made, rests_are_cut, texts_are_read};

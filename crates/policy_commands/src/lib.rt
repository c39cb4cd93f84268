//! What the commands over a policy answer: its canonical text, whether it is safe, or the text of
//! what is wrong with it; and the edge of a program: the policy that it finds, and what it prints.
#![tactic(auto)]

mod cycle_text;
mod ends;
mod finding;
mod judging;
mod laws;
mod laying;
mod printing;

pub use ends::{End, end_with};
pub use finding::{FoundText, MAX_POLICY, find_text, is_dashed};
pub use judging::{Admitted, admit, check};
pub use laws::{check_means, fmt_means};
pub use laying::lay_out;
pub use printing::print;

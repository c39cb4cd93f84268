//! What the lines of a policy say, by names: types, the words that spell them, what the lines stand
//! for together, and the canonical text.
#![tactic(auto)]

mod cap_kinds;
mod claims;
mod faults;
mod parts;
mod sayings;
mod sorts;
mod versions;

pub use cap_kinds::uncapped;
pub use claims::Claim;
pub use faults::TextKind;
pub use parts::{Item, NamedCond, NamedEvent, NamedFluent, NamedHead, NamedSignal, Sort};
pub use sayings::{CapKind, EdgeKind, Kind, Said};
pub use versions::TextVersion;

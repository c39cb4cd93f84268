//! What a connection is told: its acted lines, its part of the history and its text; and the laws
//! by which a server adds one line behind another.
#![tactic(auto)]

mod acts;
mod ahead;
mod answerer;
mod asks;
mod clerk;
mod ends;
mod laws;
mod server;
mod service;
mod talk;

pub use acts::{count, reply_of, take_back};
pub use answerer::{Answerer, act_by};
pub use clerk::Clerk;
pub use ends::{LinkEnd, Report};
pub use laws::connections_are_told;
pub use server::Server;
pub use service::{Hearing, attend};
pub use talk::{LineAnswer, Talk};

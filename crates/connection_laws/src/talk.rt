//! What a connection has come to, and what a line is told.
use gt_base::{Actor, List};
use request_text::LineFault;

/// The actor of the lines that follow, how many entries of requests there are, how many request
/// lines got none, and how many request lines the worker had.
#[derive(Clone, Copy)]
pub struct Talk {
    pub actor: Actor,
    pub asked: u64,
    pub denied: u64,
    pub calls: u64,
}

/// What a line is told.
#[derive(Drop)]
pub enum LineAnswer {
    Silence,
    Agreed,
    Bad(LineFault),
    /// The text of its reply, in the buffer of the connection.
    Reply(List<u8>),
    NoMemory,
    NoSteps,
    ViewOnly,
    /// Nothing, since the pass is worn.
    Worn { draws: u64 },
}

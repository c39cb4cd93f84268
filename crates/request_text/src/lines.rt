//! What a line of a script or of a connection says.
use gt_base::{Actor, Instant, Request};

/// What a line says: nothing, the minute that time is to reach, the actor of the lines that follow,
/// or a request.
#[derive(Clone, Copy, PartialEq, Eq)]
pub enum Line {
    Silent,
    At(Instant),
    Be(Actor),
    Ask(Request),
}

/// Why a line says nothing that can be done: it has more than 512 bytes, its words have no form, or
/// a name is unknown to the policy. Where several hold, the earlier one of these is told.
#[derive(Clone, Copy, PartialEq, Eq)]
pub enum LineFault {
    Long,
    Syntax,
    Name,
}

//! What a line says, by names.
use gt_base::{Instant, Name, SessionId};
use policy_words::{NamedCond, NamedEvent, NamedHead};

/// A request by names. A delay is in minutes, 0 to 52,595,999.
#[derive(Clone, Copy)]
pub enum NamedRequest {
    Now,
    Status(NamedCond),
    Seen(NamedEvent),
    Raise { head: NamedHead, delay: u32 },
    OpenSession,
    CloseSession(SessionId),
    Activate(SessionId, Name),
    Deactivate(SessionId, Name),
    Active(SessionId, Name),
    Check(SessionId, Name),
}

/// What a line says that is not silent: a minute, an actor, where no name is the opening actor, or
/// a request.
#[derive(Clone, Copy)]
pub enum Phrase {
    At(Instant),
    Be(Option<Name>),
    Ask(NamedRequest),
}

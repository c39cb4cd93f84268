//! Requests, replies and the entries of a history.
ghost use Rattle.std.specs.Prelude.{◌≡◌, IfOk};

use crate::events::{Cond, Event, PermId, Prioritised, RoleId, SessionId, UserId};
use crate::instants::{Instant, Prio};
use crate::lists::Memory;
use crate::policies::Walk;

/// Who asks: the operator of a script, a user, or nobody, who opens a connection.
#[derive(Clone, Copy, PartialEq, Eq)]
pub enum Actor {
    Operator,
    User(UserId),
    Nobody,
}

/// The worker, from 0, and its connection, from 1.
#[derive(Clone, Copy, PartialEq, Eq)]
pub struct Who {
    pub worker: u32,
    pub conn: u32,
}

/// What is asked. A delay is in minutes, 0 to 52,595,999.
#[derive(Clone, Copy, PartialEq, Eq)]
pub enum Request {
    Now,
    Status(Cond),
    Seen(Event),
    Raise { head: Prioritised, delay: u32 },
    OpenSession,
    CloseSession(SessionId),
    Activate(SessionId, RoleId),
    Deactivate(SessionId, RoleId),
    Active(SessionId, RoleId),
    Check(SessionId, PermId),
}

/// What an event was at the instant now, with its greatest priority.
#[derive(Clone, Copy, PartialEq, Eq)]
pub enum Seen {
    Unblocked(Prio),
    Blocked(Prio),
    Absent,
}

/// The answer to a check: a permit with the least walk that leads to the permission, or why there
/// is none.
pub enum Decision {
    Permit { walk: Walk },
    NoActive,
    NoGrant,
    Shut { edge: u32 },
}

impl Drop for Decision {
    fn drop(self) {
        match self {
            Decision::Permit { walk: _ } => {}
            Decision::NoActive => {}
            Decision::NoGrant => {}
            Decision::Shut { edge: _ } => {}
        }
    }
}

/// Why a request was refused.
#[derive(Clone, Copy, PartialEq, Eq)]
pub enum Refusal {
    NoUser,
    NotAdmin,
    Beyond { due: u32 },
    SessionsFull,
    NoSession,
    NotYours,
    NotActive,
    Already,
    Disabled,
    NotAssigned,
    RoleFull { n: u32 },
    UserFull { n: u32 },
    DaySpent { minutes: u32 },
}

/// What a request was answered.
pub enum Reply {
    Now(Instant),
    Truth(bool),
    Event(Seen),
    Queued(Instant),
    Session(SessionId),
    Done,
    Active(Walk),
    Decided(Decision),
    Refused(Refusal),
}

impl Drop for Reply {
    fn drop(self) {
        match self {
            Reply::Now(_) => {}
            Reply::Truth(_) => {}
            Reply::Event(_) => {}
            Reply::Queued(_) => {}
            Reply::Session(_) => {}
            Reply::Done => {}
            Reply::Active(_) => {}
            Reply::Decided(_) => {}
            Reply::Refused(_) => {}
        }
    }
}

/// A tick with its bound and where it stopped, or a request with its reply.
pub enum Step {
    Tick {
        upto: Instant,
        to: Instant,
    },
    Ask {
        actor: Actor,
        request: Request,
        reply: Reply,
    },
}

impl Drop for Step {
    fn drop(self) {
        match self {
            Step::Tick { upto: _, to: _ } => {}
            Step::Ask {
                actor: _,
                request: _,
                reply: _,
            } => {}
        }
    }
}

/// An entry of a history.
pub struct Entry {
    pub who: Who,
    pub what: Step,
}

impl Drop for Entry {
    fn drop(self) {
        let Entry { who: _, what: _ } = self;
    }
}

impl Decision {
    /// An equal decision.
    pub fn copied(&self) -> Result<Decision, Memory>
        ensures { IfOk result (λ copy. copy ≡ self.now) }
    {
        match self {
            Decision::Permit { walk } => Ok(Decision::Permit {
                walk: walk.copied()?,
            }),
            Decision::NoActive => Ok(Decision::NoActive),
            Decision::NoGrant => Ok(Decision::NoGrant),
            Decision::Shut { edge } => Ok(Decision::Shut { edge: *edge }),
        }
    }
}

impl Reply {
    /// An equal reply.
    pub fn copied(&self) -> Result<Reply, Memory>
        ensures { IfOk result (λ copy. copy ≡ self.now) }
    {
        match self {
            Reply::Now(t) => Ok(Reply::Now(*t)),
            Reply::Truth(b) => Ok(Reply::Truth(*b)),
            Reply::Event(seen) => Ok(Reply::Event(*seen)),
            Reply::Queued(due) => Ok(Reply::Queued(*due)),
            Reply::Session(s) => Ok(Reply::Session(*s)),
            Reply::Done => Ok(Reply::Done),
            Reply::Active(walk) => Ok(Reply::Active(walk.copied()?)),
            Reply::Decided(decision) => Ok(Reply::Decided(decision.copied()?)),
            Reply::Refused(refusal) => Ok(Reply::Refused(*refusal)),
        }
    }
}

//! Fluents, events, conditions and signals.
ghost use Rattle.std.specs.Prelude.{◌≡◌};
ghost use Rattle.gt_base.specs.Events.{converse};

use crate::instants::Prio;

/// The number of a role, from 0 in the order in which the policy declares them.
#[derive(Clone, Copy, PartialEq, Eq, PartialOrd, Ord, Hash)]
pub struct RoleId(pub u32);

/// The number of a user, from 0.
#[derive(Clone, Copy, PartialEq, Eq, PartialOrd, Ord, Hash)]
pub struct UserId(pub u32);

/// The number of a permission, from 0.
#[derive(Clone, Copy, PartialEq, Eq, PartialOrd, Ord, Hash)]
pub struct PermId(pub u32);

/// The number of a period, from 0.
#[derive(Clone, Copy, PartialEq, Eq, PartialOrd, Ord, Hash)]
pub struct PeriodId(pub u32);

/// The number of a duration limit, from 0.
#[derive(Clone, Copy, PartialEq, Eq, PartialOrd, Ord, Hash)]
pub struct LimitId(pub u32);

/// The number of a session, from 1; none is used again.
#[derive(Clone, Copy, PartialEq, Eq, PartialOrd, Ord, Hash)]
pub struct SessionId(pub u32);

/// What is on or off at an instant.
#[derive(Clone, Copy, PartialEq, Eq, PartialOrd, Ord, Hash)]
pub enum Fluent {
    /// The role is enabled.
    Enabled(RoleId),
    /// The user is assigned to the role.
    Assigned(UserId, RoleId),
    /// The permission is granted to the role.
    Granted(PermId, RoleId),
    /// The duration limit is armed.
    Limit(LimitId),
    /// The edge of the role hierarchy with this number is linked.
    Edge(u32),
}

/// It sets one fluent on or off.
#[derive(Clone, Copy, PartialEq, Eq, PartialOrd, Ord, Hash)]
pub struct Event {
    pub on: bool,
    pub fluent: Fluent,
}

impl Event {
    /// The event that sets the same fluent the other way.
    pub fn converse(self) -> Event
        ensures value { result ≡ converse self }
        ensures involution { converse result ≡ self }
    {
        Event {
            on: !self.on,
            fluent: self.fluent,
        }
    }
}

/// A condition: the fluent is on, or it is off.
#[derive(Clone, Copy, PartialEq, Eq)]
pub struct Cond {
    pub on: bool,
    pub fluent: Fluent,
}

/// The start or the end of an activation of a role by a user.
#[derive(Clone, Copy, PartialEq, Eq, PartialOrd, Ord, Hash)]
pub struct Signal {
    pub start: bool,
    pub user: UserId,
    pub role: RoleId,
}

/// An event with its priority.
#[derive(Clone, Copy, PartialEq, Eq, PartialOrd, Ord)]
pub struct Prioritised {
    pub prio: Prio,
    pub event: Event,
}

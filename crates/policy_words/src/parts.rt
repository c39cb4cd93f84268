//! Fluents, events, conditions and signals by names.
use gt_base::{Name, Prio};

/// What is on or off, by names.
#[derive(Clone, Copy, PartialEq, Eq)]
pub enum NamedFluent {
    /// The role is enabled.
    Enabled(Name),
    /// The user is assigned to the role.
    Assigned(Name, Name),
    /// The permission is granted to the role.
    Granted(Name, Name),
    /// The duration limit is armed.
    Limit(Name),
    /// The edge from the senior role, which stands first, to the junior role is linked.
    Edge(Name, Name),
}

/// The sorts of fluents.
#[derive(Clone, Copy, PartialEq, Eq)]
pub enum Sort {
    Enabling,
    Assigning,
    Granting,
    Arming,
    Linking,
}

/// It sets one fluent on or off.
#[derive(Clone, Copy, PartialEq, Eq)]
pub struct NamedEvent {
    pub on: bool,
    pub fluent: NamedFluent,
}

/// A condition: the fluent is on, or it is off.
#[derive(Clone, Copy, PartialEq, Eq)]
pub struct NamedCond {
    pub on: bool,
    pub fluent: NamedFluent,
}

/// The start or the end of an activation of a role by a user.
#[derive(Clone, Copy, PartialEq, Eq)]
pub struct NamedSignal {
    pub start: bool,
    pub user: Name,
    pub role: Name,
}

/// An event with its priority, 0 to 99.
#[derive(Clone, Copy, PartialEq, Eq)]
pub struct NamedHead {
    pub prio: Prio,
    pub event: NamedEvent,
}

/// An item of a trigger's body.
#[derive(Clone, Copy, PartialEq, Eq)]
pub enum Item {
    Event(NamedEvent),
    Signal(NamedSignal),
    /// A condition on the status before the instant.
    Cond(NamedCond),
    /// A condition on the status after the instant.
    Settled(NamedCond),
}

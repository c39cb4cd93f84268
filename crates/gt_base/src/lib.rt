//! The plain types that all crates of the server speak of: instants, events, rules, requests,
//! replies and entries of a history, lists and sets whose room is taken ahead, counts of looks, and
//! the traits of a value that keeps a history.
#![tactic(auto)]

mod events;
mod flags;
mod instants;
mod known;
mod laws;
mod limits;
mod lists;
mod looks;
mod machines;
mod names;
mod policies;
mod requests;
mod rows;
mod sets;
mod words;

pub use events::{
    Cond, Event, Fluent, LimitId, PeriodId, PermId, Prioritised, RoleId, SessionId, Signal, UserId,
};
pub use instants::{Instant, Prio};
pub use laws::sets_are_sets;
pub use limits::{
    LAST_MINUTE, LONGEST_LINE, LONGEST_NAME, LONGEST_POLICY_LINE, LONGEST_WALK, MAX_ASSIGNED,
    MAX_BYTES, MAX_COUNT, MAX_EDGES, MAX_ENTRIES, MAX_GRANTED, MAX_ITEMS, MAX_LENGTH, MAX_LIMITS,
    MAX_LINKS, MAX_NUMBER, MAX_PERIODS, MAX_PERMS, MAX_POLICY_PRIO, MAX_PRIO, MAX_ROLES,
    MAX_SESSIONS, MAX_STEPS, MAX_TRIGGERS, MAX_USERS,
};
pub use lists::{List, Memory};
pub use looks::Looks;
pub use machines::{Keeps, Machine, StepFault};
pub use names::Name;
pub use policies::{Caps, Form, HierEdge, LimitRule, PeriodicEntry, Trigger, Walk};
pub use requests::{Actor, Decision, Entry, Refusal, Reply, Request, Seen, Step, Who};
pub use sets::{EventSet, Happened, Status};

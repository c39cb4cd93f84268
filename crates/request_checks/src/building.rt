//! Makes the policies, instants, events and walks of the tests.
use gt_base::{Event, Fluent, Instant, List, Memory, Prio, Prioritised, RoleId, Walk};
use policy_book::Policy;
use policy_text::{PolicyText, policy_of};
use std::alloc::{AllocError, Global};

const SMALL: &[u8] = b"policy 2
role a
role b
role c
user u
user v
perm p
perm q
edge ia weak a b
edge i weak b c
limit top 1 enabled a max 5
";

/// The policy that a text of at most 1,000,000 bytes stands for; anything else counts as want of
/// memory.
pub(crate) fn policy_by(alloc: Global, text: &[u8]) -> Result<Policy, Memory> {
    if text.len() > 1_000_000 {
        return Err(AllocError);
    }
    match policy_of(alloc, text)? {
        PolicyText::Policy(policy) => Ok(policy),
        PolicyText::Fault(_) => Err(AllocError),
    }
}

/// Three roles in a row, two users, two permissions and a limit.
pub(crate) fn small(alloc: Global) -> Result<Policy, Memory> {
    policy_by(alloc, SMALL)
}

/// 2026-01-05T08:00, and so many minutes later.
pub(crate) fn after_eight(minutes: u32) -> Result<Instant, Memory> {
    match Instant::new(13_681_920u32.saturating_add(minutes)) {
        Some(t) => Ok(t),
        None => Err(AllocError),
    }
}

/// The priority of this level; one above 100 fails as memory does.
pub(crate) fn prio(level: u8) -> Result<Prio, Memory> {
    match Prio::new(level) {
        Some(p) => Ok(p),
        None => Err(AllocError),
    }
}

/// An event without a priority.
pub(crate) fn event(on: bool, fluent: Fluent) -> Event {
    Event { on, fluent }
}

/// A prioritised event.
pub(crate) fn head(level: u8, event: Event) -> Result<Prioritised, Memory> {
    Ok(Prioritised {
        prio: prio(level)?,
        event,
    })
}

/// The walk from a role over these edges.
pub(crate) fn walk(alloc: Global, start: u32, edges: &[u32]) -> Result<Walk, Memory> {
    Ok(Walk {
        start: RoleId(start),
        edges: List::from(Vec::from_slice(alloc, edges)?),
    })
}

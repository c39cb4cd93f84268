//! From what the lines make to the policy.
ghost use Rattle.std.specs.Prelude.{◌≡◌, ◌≤◌, ◌++◌, filter, length, IfOk};
ghost use Rattle.gt_base.specs.Sets.{set_of};
ghost use Rattle.gtrbac_model.specs.Same.{lists, same_user};
ghost use Rattle.policy_words.specs.Making.{users_from, edges_from, linked_at_first};
ghost use Rattle.policy_words.specs.Valid.{IsWellFormed};
ghost use Rattle.policy_book.specs.Seen.{seen_names};
ghost use Rattle.policy_book.specs.Drafts.{seen_draft, made_policy};

use crate::books::Policy;
use crate::drafts::Draft;
use crate::names::NameTables;
use gt_base::{Fluent, HierEdge, Memory, Status, UserId};
use indexmap::IndexSet;
use std::alloc::Global;

/// Whether the user is one of these.
fn has(users: &IndexSet<UserId>, user: UserId) -> bool
    ensures { result ≡ lists same_user users.now.keys user }
{
    users.contains(&user)
}

/// The administrators among so many users, ascending.
fn admins_of(alloc: Global, users: u32, admins: &IndexSet<UserId>) -> Result<Vec<UserId>, Memory>
    ensures { IfOk result (λ found. found.items ≡ filter (lists same_user admins.now.keys)
        (users_from 0 users)) }
{
    let mut found = Vec::new(alloc);
    for n in 0..users {
        if has(admins, UserId(n)) {
            found.push(UserId(n))?;
        }
    }
    Ok(found)
}

/// The status in which these fluents and the first so many edges are on.
fn status_of(alloc: Global, fluents: &[Fluent], linked: u32) -> Result<Status, Memory>
    ensures { IfOk result (λ status. status.set ≡ set_of (edges_from 0 linked ++ fluents.now)) }
{
    let mut status = Status::new(alloc);
    status.reserve(fluents.len() + linked as usize)?;
    for fluent in fluents {
        status.set(*fluent, true);
    }
    for edge in 0..linked {
        status.set(Fluent::Edge(edge), true);
    }
    Ok(status)
}

/// By what fluents are sorted so that a status takes each at its end: their sort, their role where
/// they have another name beside it, and their first name.
fn place(fluent: Fluent) -> (u8, u32, u32) {
    match fluent {
        Fluent::Enabled(role) => (0, 0, role.0),
        Fluent::Assigned(user, role) => (1, role.0, user.0),
        Fluent::Granted(perm, role) => (2, role.0, perm.0),
        Fluent::Limit(limit) => (3, 0, limit.0),
        Fluent::Edge(edge) => (4, 0, edge),
    }
}

/// The status in which these fluents and the first so many edges are on, in time n log n. It sorts
/// the fluents.
fn opening_of(alloc: Global, fluents: &mut IndexSet<Fluent>, linked: u32) -> Result<Status, Memory>
    ensures { IfOk result (λ status. status.set ≡ set_of
        (edges_from 0 linked ++ fluents.old.keys)) }
{
    fluents.sort_by_key(|fluent| place(*fluent))?;
    let status = status_of(alloc, fluents.as_slice(), linked)?;
    Ok(status)
}

/// How many edges are linked at first, from number 0 on: in version 1 all, and in version 2 none
/// but by lines.
fn linked_count(second: bool, edges: &[HierEdge]) -> u32
    requires { length edges.now ≤ u32.MAX }
    ensures { edges_from 0 result ≡ linked_at_first second edges.now }
{
    if second { 0 } else { edges.len() as u32 }
}

/// The policy of a draft in version 2, or else 1, with its names.
pub(crate) fn finished(
    alloc: Global,
    names: NameTables,
    second: bool,
    mut draft: Draft,
) -> Result<Policy, Memory>
    requires { IsWellFormed (made_policy (seen_names names) second (seen_draft draft)) }
    ensures { IfOk result (λ policy. policy ≡ made_policy (seen_names names) second
        (seen_draft draft)) }
{
    let admins = admins_of(alloc, names.users.len(), &draft.admins)?;
    let linked = linked_count(second, &draft.edges);
    let opening = opening_of(alloc, &mut draft.on_at_first, linked)?;
    Ok(draft.with(alloc, names, admins, opening))
}

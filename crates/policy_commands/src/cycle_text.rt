//! Edges of a cycle by names.
ghost use Rattle.std.specs.Prelude.{◌≡◌, ◌++◌, ◌+◌, if◌then◌else◌, [], ◌∷◌, codes, decimal, flat_map, OnOk};
ghost use Rattle.gt_text.specs.Words.{spaced};
ghost use Rattle.policy_words.specs.Wording.{event_verb};
ghost use Rattle.policy_words.specs.Sorts.{fluent_sort};
ghost use Rattle.policy_words.specs.Naming.{role_name, user_name, perm_name, limit_name, pair_at};
ghost use Rattle.policy_words.specs.PolicyRead.{event_text, conflict_word, edge_text};
ghost use Rattle.policy_safety.specs.Cycles.{seen_edge};

use gt_base::{Event, Fluent, LimitId, Memory, PermId, RoleId, UserId};
use gt_text::push_number;
use policy_book::Policy;
use policy_safety::CycleEdge;
use policy_words::Sort;

/// Adds a role's name; nothing for a number that is none.
fn push_role(text: &mut Vec<u8>, p: &Policy, r: RoleId) -> Result<(), Memory>
    ensures { OnOk result (text.new.items ≡ text.old.items ++ role_name p.now.names r) }
{
    if r.0 < p.role_count() {
        text.extend_from_slice(p.role_name(r).bytes())?;
    }
    Ok(())
}

/// Adds a user's name; nothing for a number that is none.
fn push_user(text: &mut Vec<u8>, p: &Policy, u: UserId) -> Result<(), Memory>
    ensures { OnOk result (text.new.items ≡ text.old.items ++ user_name p.now.names u) }
{
    if u.0 < p.user_count() {
        text.extend_from_slice(p.user_name(u).bytes())?;
    }
    Ok(())
}

/// Adds a permission's name; nothing for a number that is none.
fn push_perm(text: &mut Vec<u8>, p: &Policy, q: PermId) -> Result<(), Memory>
    ensures { OnOk result (text.new.items ≡ text.old.items ++ perm_name p.now.names q) }
{
    if q.0 < p.perm_count() {
        text.extend_from_slice(p.perm_name(q).bytes())?;
    }
    Ok(())
}

/// Adds a limit's name; nothing for a number that is none.
fn push_limit(text: &mut Vec<u8>, p: &Policy, l: LimitId) -> Result<(), Memory>
    ensures { OnOk result (text.new.items ≡ text.old.items ++ limit_name p.now.names l) }
{
    if l.0 < p.limit_count() {
        text.extend_from_slice(p.limit_name(l).bytes())?;
    }
    Ok(())
}

/// Adds the name of an edge's senior role, or of its junior role.
fn push_end(text: &mut Vec<u8>, p: &Policy, n: u32, senior: bool) -> Result<(), Memory>
    ensures { OnOk result (text.new.items ≡ text.old.items
        ++ (if senior then (pair_at p.now.names n).0 else (pair_at p.now.names n).1)) }
{
    p.keeps();
    if let Some(edge) = p.edges().get(n as usize) {
        push_role(text, p, if senior { edge.senior } else { edge.junior })?;
    }
    Ok(())
}

/// The verb of an event.
fn verb(e: Event) -> &'static [u8]
    ensures { result.now ≡ event_verb e.on (fluent_sort e.fluent) }
{
    policy_lines::event_text(e.on, Sort::of(e.fluent))
}

/// Writes the verb of an event of roles and, behind a space, the name of its role.
fn push_of_role(text: &mut Vec<u8>, p: &Policy, verb: &[u8], r: RoleId) -> Result<(), Memory>
    ensures { OnOk result (text.new.items ≡ text.old.items
        ++ spaced (verb.now ∷ role_name p.now.names r ∷ [])) }
{
    text.extend_from_slice(verb)?;
    text.extend_from_slice(b" ")?;
    push_role(text, p, r)
}

/// A verb with a limit.
fn push_of_limit(text: &mut Vec<u8>, p: &Policy, verb: &[u8], l: LimitId) -> Result<(), Memory>
    ensures { OnOk result (text.new.items ≡ text.old.items
        ++ spaced (verb.now ∷ limit_name p.now.names l ∷ [])) }
{
    text.extend_from_slice(verb)?;
    text.extend_from_slice(b" ")?;
    push_limit(text, p, l)
}

/// A verb with a user and a role.
fn push_of_user(
    text: &mut Vec<u8>,
    p: &Policy,
    verb: &[u8],
    u: UserId,
    r: RoleId,
) -> Result<(), Memory>
    ensures { OnOk result (text.new.items ≡ text.old.items
        ++ spaced (verb.now ∷ user_name p.now.names u ∷ role_name p.now.names r ∷ [])) }
{
    text.extend_from_slice(verb)?;
    text.extend_from_slice(b" ")?;
    push_user(text, p, u)?;
    text.extend_from_slice(b" ")?;
    push_role(text, p, r)
}

/// A verb with a permission and a role.
fn push_of_perm(
    text: &mut Vec<u8>,
    p: &Policy,
    verb: &[u8],
    q: PermId,
    r: RoleId,
) -> Result<(), Memory>
    ensures { OnOk result (text.new.items ≡ text.old.items
        ++ spaced (verb.now ∷ perm_name p.now.names q ∷ role_name p.now.names r ∷ [])) }
{
    text.extend_from_slice(verb)?;
    text.extend_from_slice(b" ")?;
    push_perm(text, p, q)?;
    text.extend_from_slice(b" ")?;
    push_role(text, p, r)
}

/// A verb with the roles of an edge.
fn push_of_edge(text: &mut Vec<u8>, p: &Policy, verb: &[u8], n: u32) -> Result<(), Memory>
    ensures { OnOk result (text.new.items ≡ text.old.items
        ++ spaced (verb.now ∷ (pair_at p.now.names n).0 ∷ (pair_at p.now.names n).1 ∷ [])) }
{
    text.extend_from_slice(verb)?;
    text.extend_from_slice(b" ")?;
    push_end(text, p, n, true)?;
    text.extend_from_slice(b" ")?;
    push_end(text, p, n, false)
}

/// Adds an event by its names.
fn push_event(text: &mut Vec<u8>, p: &Policy, e: Event) -> Result<(), Memory>
    ensures { OnOk result (text.new.items ≡ text.old.items ++ event_text p.now.names e) }
{
    let verb = verb(e);
    match e.fluent {
        Fluent::Enabled(r) => push_of_role(text, p, verb, r),
        Fluent::Assigned(u, r) => push_of_user(text, p, verb, u, r),
        Fluent::Granted(q, r) => push_of_perm(text, p, verb, q, r),
        Fluent::Limit(l) => push_of_limit(text, p, verb, l),
        Fluent::Edge(n) => push_of_edge(text, p, verb, n),
    }
}

/// `TRIGGER.PLACE`, both from 1.
fn push_place(text: &mut Vec<u8>, trigger: u32, place: u32) -> Result<(), Memory>
    ensures { OnOk result (text.new.items ≡ text.old.items
        ++ (decimal (trigger + 1) ++ codes "." ++ decimal (place + 1))) }
{
    push_number(text, u64::from(trigger) + 1)?;
    text.extend_from_slice(b".")?;
    push_number(text, u64::from(place) + 1)
}

/// The word of an edge's kind, with a space behind it.
fn kind(conflict: bool) -> &'static [u8]
    ensures { result.now ≡ conflict_word conflict }
{
    if conflict { b"conflict " } else { b"plain " }
}

/// Adds the line of an edge.
fn push_edge(text: &mut Vec<u8>, p: &Policy, edge: CycleEdge) -> Result<(), Memory>
    ensures { OnOk result (text.new.items ≡ text.old.items
        ++ edge_text p.now.names (seen_edge edge)) }
{
    text.extend_from_slice(kind(edge.conflict))?;
    push_place(text, edge.trigger, edge.place)?;
    text.extend_from_slice(b" ")?;
    push_event(text, p, edge.source)?;
    text.extend_from_slice(b" > ")?;
    push_event(text, p, edge.target)?;
    text.extend_from_slice(b"\n")
}

/// Adds the lines of a cycle's edges, in the order of the cycle.
fn push_edges(text: &mut Vec<u8>, p: &Policy, edges: &[CycleEdge]) -> Result<(), Memory>
    ensures { OnOk result (text.new.items ≡ text.old.items
        ++ flat_map (λ e. edge_text p.now.names (seen_edge e)) edges.now) }
{
    for edge in edges {
        push_edge(text, p, *edge)?;
    }
    Ok(())
}

/// Adds `unsafe` and a line for each edge of the cycle: whether it is a conflict or plain, its
/// trigger and the place of the body event, both from 1, and the events that it leads from and to.
pub fn push_unsafe(text: &mut Vec<u8>, p: &Policy, edges: &[CycleEdge]) -> Result<(), Memory>
    ensures { OnOk result (text.new.items ≡ text.old.items
        ++ (codes "unsafe\n" ++ flat_map (λ e. edge_text p.now.names (seen_edge e)) edges.now)) }
{
    text.extend_from_slice(b"unsafe\n")?;
    push_edges(text, p, edges)
}

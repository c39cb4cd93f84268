//! Replies, written into room that was taken before.
ghost use Rattle.std.specs.Prelude.{◌≡◌, ◌≤◌, ◌<◌, ◌+◌, ◌++◌, length, codes, decimal, flat_map, slice_get, IsTrue, Some};
ghost use Rattle.std.specs.List.{list_all};
ghost use Rattle.civil_time.specs.Text.{civil_text};
ghost use Rattle.policy_words.specs.Naming.{role_name};
ghost use Rattle.request_text.specs.Replies.{yes_or_no, seen_text, refusal_text, junior_text, edge_text, walk_text, decision_text, reply_text, reply_line};
ghost use Rattle.request_text.specs.Rooms.{Puts};
ghost use Rattle.request_text.specs.Named.{has_edge, has_walk, has_decision, has_reply};
ghost use Rattle.request_text.specs.Walks.{step_name, with_number};

use crate::rooms::Room;
use civil_time::write_civil;
use gt_base::{Decision, HierEdge, Instant, List, Name, Refusal, Reply, RoleId, Seen, Walk};
use itoa::Buffer;
use policy_book::Policy;

/// Adds a piece and a number.
pub(crate) fn put_number<R: Room>(into: &mut R, piece: &[u8], n: u32)
    requires { length (piece.now ++ decimal n) ≤ (R.room into.old).spare }
    ensures { Puts (R.room into.old) (R.room into.new) (piece.now ++ decimal n) }
{
    let mut buffer = Buffer::new();
    into.put(piece);
    into.put(buffer.format(n).as_bytes());
}

/// Adds a piece and an instant.
pub(crate) fn put_instant<R: Room>(into: &mut R, piece: &[u8], t: Instant)
    requires { length (piece.now ++ civil_text t) ≤ (R.room into.old).spare }
    ensures { Puts (R.room into.old) (R.room into.new) (piece.now ++ civil_text t) }
{
    into.put(piece);
    into.put(&write_civil(t));
}

/// Adds the answer to `event`, with its priority where the event was there.
fn put_seen<R: Room>(into: &mut R, seen: Seen)
    requires { length (seen_text seen) ≤ (R.room into.old).spare }
    ensures { Puts (R.room into.old) (R.room into.new) (seen_text seen) }
{
    match seen {
        Seen::Unblocked(prio) => put_number(into, b"yes ", u32::from(prio.get())),
        Seen::Blocked(prio) => put_number(into, b"blocked ", u32::from(prio.get())),
        Seen::Absent => into.put(b"no"),
    }
}

/// The words of a refusal, and the number behind them.
fn refusal_parts(refusal: Refusal) -> (&'static [u8], Option<u32>)
    ensures { with_number result.0.now result.1 ≡ refusal_text refusal }
{
    match refusal {
        Refusal::NoUser => (b"no-user", None),
        Refusal::NotAdmin => (b"not-admin", None),
        Refusal::Beyond { due } => (b"beyond ", Some(due)),
        Refusal::SessionsFull => (b"sessions-full", None),
        Refusal::NoSession => (b"no-session", None),
        Refusal::NotYours => (b"not-yours", None),
        Refusal::NotActive => (b"not-active", None),
        Refusal::Already => (b"already", None),
        Refusal::Disabled => (b"disabled", None),
        Refusal::NotAssigned => (b"not-assigned", None),
        Refusal::RoleFull { n } => (b"role-full ", Some(n)),
        Refusal::UserFull { n } => (b"user-full ", Some(n)),
        Refusal::DaySpent { minutes } => (b"day-spent ", Some(minutes)),
    }
}

/// Adds the word of a refusal, with its number where it has one.
fn put_refusal<R: Room>(into: &mut R, refusal: Refusal)
    requires { length (refusal_text refusal) ≤ (R.room into.old).spare }
    ensures { Puts (R.room into.old) (R.room into.new) (refusal_text refusal) }
{
    let (piece, number) = refusal_parts(refusal);
    match number {
        Some(n) => put_number(into, piece, n),
        None => into.put(piece),
    }
}

/// The edge of a number.
fn edge(p: &Policy, n: u32) -> HierEdge
    requires { IsTrue (has_edge p.now.policy n) }
    ensures edge { slice_get p.now.policy.edges n ≡ Some result }
    ensures senior { result.senior.0 < length p.now.names.roles }
    ensures junior { result.junior.0 < length p.now.names.roles }
{
    p.keeps();
    p.edges().as_slice()[n as usize]
}

/// The name of the junior of an edge.
fn junior_of(p: &Policy, n: u32) -> Name
    requires { IsTrue (has_edge p.now.policy n) }
    ensures { result ≡ junior_text p.now n }
{
    p.role_name(edge(p, n).junior)
}

/// Adds the sign between two roles and the junior of an edge.
fn put_junior<R: Room>(into: &mut R, p: &Policy, n: u32)
    requires edge { IsTrue (has_edge p.now.policy n) }
    requires room { length (step_name p.now n) ≤ (R.room into.old).spare }
    ensures { Puts (R.room into.old) (R.room into.new) (step_name p.now n) }
{
    into.put(b">");
    into.put(junior_of(p, n).bytes());
}

/// Adds a piece and the role where a walk begins.
fn put_start<R: Room>(into: &mut R, p: &Policy, piece: &[u8], start: RoleId)
    requires role { start.0 < length p.now.names.roles }
    requires room { length (piece.now ++ role_name p.now.names start) ≤ (R.room into.old).spare }
    ensures { Puts (R.room into.old) (R.room into.new) (piece.now ++ role_name p.now.names start) }
{
    into.put(piece);
    into.put(p.role_name(start).bytes());
}

/// Adds the juniors of a walk's edges, each with `>` before it.
fn put_juniors<R: Room>(into: &mut R, p: &Policy, edges: &[u32])
    requires edges { IsTrue (list_all (has_edge p.now.policy) edges.now) }
    requires room { length (flat_map (step_name p.now) edges.now) ≤ (R.room into.old).spare }
    ensures { Puts (R.room into.old) (R.room into.new) (flat_map (step_name p.now) edges.now) }
{
    for n in edges {
        put_junior(into, p, *n);
    }
}

/// Adds a piece and the names of a walk's roles.
fn put_walk<R: Room>(into: &mut R, p: &Policy, piece: &[u8], walk: &Walk)
    requires walk { IsTrue (has_walk p.now.policy walk.now) }
    requires room { length (piece.now ++ walk_text p.now walk.now) ≤ (R.room into.old).spare }
    ensures { Puts (R.room into.old) (R.room into.new) (piece.now ++ walk_text p.now walk.now) }
{
    p.keeps();
    put_start(into, p, piece, walk.start);
    put_juniors(into, p, walk.edges.as_slice());
}

/// Adds `deny shut` and the edge with this number, the first that is not usable.
fn put_shut<R: Room>(into: &mut R, p: &Policy, n: u32)
    requires edge { IsTrue (has_edge p.now.policy n) }
    requires room { length (codes "deny shut " ++ edge_text p.now n) ≤ (R.room into.old).spare }
    ensures { Puts (R.room into.old) (R.room into.new) (codes "deny shut " ++ edge_text p.now n) }
{
    put_start(into, p, b"deny shut ", edge(p, n).senior);
    put_junior(into, p, n);
}

/// Adds the answer to `check`.
fn put_decision<R: Room>(into: &mut R, p: &Policy, decision: &Decision)
    requires named { IsTrue (has_decision p.now.policy decision.now) }
    requires room { length (decision_text p.now decision.now) ≤ (R.room into.old).spare }
    ensures { Puts (R.room into.old) (R.room into.new) (decision_text p.now decision.now) }
{
    match decision {
        Decision::Permit { walk } => put_walk(into, p, b"permit by ", walk),
        Decision::NoActive => into.put(b"deny no-active"),
        Decision::NoGrant => into.put(b"deny no-grant"),
        Decision::Shut { edge } => put_shut(into, p, *edge),
    }
}

/// Adds the answer to a question of yes or no.
fn put_truth<R: Room>(into: &mut R, truth: bool)
    requires { length (yes_or_no truth) ≤ (R.room into.old).spare }
    ensures { Puts (R.room into.old) (R.room into.new) (yes_or_no truth) }
{
    if truth {
        into.put(b"yes");
    } else {
        into.put(b"no");
    }
}

/// Adds `refused` and the refusal.
fn put_refused<R: Room>(into: &mut R, refusal: Refusal)
    requires { length (codes "refused " ++ refusal_text refusal) ≤ (R.room into.old).spare }
    ensures { Puts (R.room into.old) (R.room into.new) (codes "refused " ++ refusal_text refusal) }
{
    into.put(b"refused ");
    put_refusal(into, refusal);
}

/// Adds the text of a reply, without a line feed.
pub(crate) fn put_text<R: Room>(into: &mut R, p: &Policy, reply: &Reply)
    requires named { IsTrue (has_reply p.now.policy reply.now) }
    requires room { length (reply_text p.now reply.now) ≤ (R.room into.old).spare }
    ensures { Puts (R.room into.old) (R.room into.new) (reply_text p.now reply.now) }
{
    match reply {
        Reply::Now(t) => put_instant(into, b"now ", *t),
        Reply::Truth(truth) => put_truth(into, *truth),
        Reply::Event(seen) => put_seen(into, *seen),
        Reply::Queued(t) => put_instant(into, b"queued ", *t),
        Reply::Session(session) => put_number(into, b"session ", session.0),
        Reply::Done => into.put(b"ok"),
        Reply::Active(walk) => put_walk(into, p, b"ok by ", walk),
        Reply::Decided(decision) => put_decision(into, p, decision),
        Reply::Refused(refusal) => put_refused(into, *refusal),
    }
}

/// Adds the line of a reply, with its line feed, into room that was taken before: at most
/// `LONGEST_REPLY` bytes where a walk has no more than 999 edges. It takes no memory.
pub fn put_reply(p: &Policy, r: &Reply, into: &mut List<u8>)
    requires named { IsTrue (has_reply p.now.policy r.now) }
    requires room { length (reply_line p.now r.now) ≤ into.old.spare }
    ensures items { into.new.items ≡ into.old.items ++ reply_line p.now r.now }
    ensures spare { into.old.spare ≤ into.new.spare + length (reply_line p.now r.now) }
{
    put_text(into, p, r);
    into.extend_from_slice(b"\n");
}

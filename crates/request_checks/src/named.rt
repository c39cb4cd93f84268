//! Whether the numbers of a reply or an entry are the policy's.
ghost use Rattle.std.specs.Prelude.{◌≡◌};
ghost use Rattle.std.specs.List.{list_all};
ghost use Rattle.gtrbac_model.specs.WholePolicy.{is_fluent};
ghost use Rattle.request_text.specs.Named.{has_edge, has_walk, has_decision, has_reply, has_request, has_actor, has_entry};

use gt_base::{Actor, Decision, Entry, Fluent, Reply, Request, Step, Walk};
use policy_book::Policy;

/// Whether the policy has edges of these numbers, as the contracts of texts ask.
fn has_edges(p: &Policy, mut edges: &[u32]) -> bool
    ensures { result ≡ list_all (has_edge p.now.policy) edges.now }
{
    while let [n, rest @ ..] = edges {
        if *n as usize >= p.edges().len() {
            return false;
        }
        edges = rest;
    }
    true
}

/// Whether the policy has the start and the edges of a walk.
fn has_walk(p: &Policy, walk: &Walk) -> bool
    ensures { result ≡ has_walk p.now.policy walk.now }
{
    walk.start.0 < p.role_count() && has_edges(p, walk.edges.as_slice())
}

/// Whether the policy has what a decision names.
fn has_decision(p: &Policy, decision: &Decision) -> bool
    ensures { result ≡ has_decision p.now.policy decision.now }
{
    match decision {
        Decision::Permit { walk } => has_walk(p, walk),
        Decision::Shut { edge } => (*edge as usize) < p.edges().len(),
        Decision::NoActive | Decision::NoGrant => true,
    }
}

/// Whether a reply can be written.
pub(crate) fn has_reply(p: &Policy, reply: &Reply) -> bool
    ensures { result ≡ has_reply p.now.policy reply.now }
{
    match reply {
        Reply::Active(walk) => has_walk(p, walk),
        Reply::Decided(decision) => has_decision(p, decision),
        Reply::Now(_)
        | Reply::Truth(_)
        | Reply::Event(_)
        | Reply::Queued(_)
        | Reply::Session(_)
        | Reply::Done
        | Reply::Refused(_) => true,
    }
}

/// Whether the policy has what a fluent names.
fn has_fluent(p: &Policy, f: Fluent) -> bool
    ensures { result ≡ is_fluent p.now.policy f }
{
    match f {
        Fluent::Enabled(r) => r.0 < p.role_count(),
        Fluent::Assigned(u, r) => u.0 < p.user_count() && r.0 < p.role_count(),
        Fluent::Granted(q, r) => q.0 < p.perm_count() && r.0 < p.role_count(),
        Fluent::Limit(l) => (l.0 as usize) < p.limits().len(),
        Fluent::Edge(n) => (n as usize) < p.edges().len(),
    }
}

/// Whether the policy has what a request names.
fn has_request(p: &Policy, request: Request) -> bool
    ensures { result ≡ has_request p.now.policy request }
{
    match request {
        Request::Status(c) => has_fluent(p, c.fluent),
        Request::Seen(e) => has_fluent(p, e.fluent),
        Request::Raise { head, .. } => has_fluent(p, head.event.fluent),
        Request::Activate(_, r) | Request::Deactivate(_, r) | Request::Active(_, r) => {
            r.0 < p.role_count()
        }
        Request::Check(_, q) => q.0 < p.perm_count(),
        Request::Now | Request::OpenSession | Request::CloseSession(_) => true,
    }
}

/// Whether the policy has the user who acts; the operator and nobody need none.
fn has_actor(p: &Policy, actor: Actor) -> bool
    ensures { result ≡ has_actor p.now.policy actor }
{
    match actor {
        Actor::User(u) => u.0 < p.user_count(),
        Actor::Operator | Actor::Nobody => true,
    }
}

/// Whether an entry can be written.
pub(crate) fn has_entry(p: &Policy, entry: &Entry) -> bool
    ensures { result ≡ has_entry p.now.policy entry.now }
{
    match &entry.what {
        Step::Tick { .. } => true,
        Step::Ask {
            actor,
            request,
            reply,
        } => has_actor(p, *actor) && has_request(p, *request) && has_reply(p, reply),
    }
}

/// Whether each of the entries can be written.
pub(crate) fn has_entries(p: &Policy, mut entries: &[Entry]) -> bool
    ensures { result ≡ list_all (has_entry p.now.policy) entries.now }
{
    while let [e, rest @ ..] = entries {
        if !has_entry(p, e) {
            return false;
        }
        entries = rest;
    }
    true
}

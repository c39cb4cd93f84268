//! Whether a request is named for a policy.
ghost use Rattle.std.specs.Prelude.{◌≡◌, ◌<◌, ◌^◌, ◌↔◌, true};
ghost use Rattle.gt_base.specs.declared.requests.Actor.TheVariants.{Operator};
ghost use Rattle.gt_base.specs.declared.requests.Request.TheVariants.{Now, Status};
ghost use Rattle.gtrbac_model.specs.History.{IsNamedWish, ask};

use gt_base::{Actor, Fluent, LAST_MINUTE, MAX_PRIO, Request, SessionId};
use policy_book::Policy;

/// Whether the policy has the user who acts; the operator and nobody need none.
fn names_actor(policy: &Policy, actor: Actor) -> bool
    ensures { result ≡ true ↔ IsNamedWish policy.now.policy (ask actor Now) }
{
    match actor {
        Actor::User(user) => user.0 < policy.user_count(),
        Actor::Operator => true,
        Actor::Nobody => true,
    }
}

/// Whether the policy has what a fluent names.
fn names_fluent(policy: &Policy, fluent: Fluent) -> bool
    ensures { result ≡ true
        ↔ IsNamedWish policy.now.policy
        (ask Operator (Status (record { on = true; fluent = fluent }))) }
{
    let roles = policy.role_count();
    match fluent {
        Fluent::Enabled(r) => r.0 < roles,
        Fluent::Assigned(u, r) => u.0 < policy.user_count() && r.0 < roles,
        Fluent::Granted(q, r) => q.0 < policy.perm_count() && r.0 < roles,
        Fluent::Limit(l) => l.0 < policy.limit_count(),
        Fluent::Edge(n) => (n as usize) < policy.edges().len(),
    }
}

/// Whether the number of a session is in range.
fn is_session(session: SessionId) -> bool
    ensures { result ≡ true ↔ session.0 < 2 ^ 32 }
{
    session.0 <= u32::MAX
}

/// Whether the policy has what a request names, and its numbers are in range.
fn names_request(policy: &Policy, request: &Request) -> bool
    ensures { result ≡ true ↔ IsNamedWish policy.now.policy (ask Operator request.now) }
{
    let roles = policy.role_count();
    match request {
        Request::Now => true,
        Request::Status(cond) => names_fluent(policy, cond.fluent),
        Request::Seen(event) => names_fluent(policy, event.fluent),
        Request::Raise { head, delay } => {
            names_fluent(policy, head.event.fluent)
                && head.prio.get() <= MAX_PRIO
                && *delay <= LAST_MINUTE
        }
        Request::OpenSession => true,
        Request::CloseSession(session) => is_session(*session),
        Request::Activate(session, role) => is_session(*session) && role.0 < roles,
        Request::Deactivate(session, role) => is_session(*session) && role.0 < roles,
        Request::Active(session, role) => is_session(*session) && role.0 < roles,
        Request::Check(session, perm) => is_session(*session) && perm.0 < policy.perm_count(),
    }
}

/// Whether actor and request are of the policy.
pub(crate) fn names(policy: &Policy, actor: Actor, request: &Request) -> bool
    ensures { result ≡ true ↔ IsNamedWish policy.now.policy (ask actor request.now) }
{
    names_actor(policy, actor) && names_request(policy, request)
}

//! Numbers of a policy as names.
ghost use Rattle.std.specs.Prelude.{◌≡◌, ◌<◌, IsTrue, IfOk, length};
ghost use Rattle.gtrbac_model.specs.WholePolicy.{is_fluent, is_signal};
ghost use Rattle.policy_words.specs.Naming.{fluent_named, event_named, cond_named, signal_named, head_named};

use crate::books::Policy;
use gt_base::{Cond, Event, Fluent, Prioritised, Signal};
use policy_words::{NamedCond, NamedEvent, NamedFluent, NamedHead, NamedSignal};

/// The edge of this number by the names of its roles.
fn named_edge(p: &Policy, n: u32) -> NamedFluent
    requires { IsTrue (is_fluent p.now.policy (Fluent.Edge n)) }
    ensures { result ≡ fluent_named p.now.names (Fluent.Edge n) }
{
    p.keeps();
    let edges = p.edges().as_slice();
    let edge = edges[n as usize];
    NamedFluent::Edge(p.role_name(edge.senior), p.role_name(edge.junior))
}

/// A fluent by names.
pub fn named_fluent(p: &Policy, f: Fluent) -> NamedFluent
    requires { IsTrue (is_fluent p.now.policy f) }
    ensures { result ≡ fluent_named p.now.names f }
{
    p.keeps();
    match f {
        Fluent::Enabled(r) => NamedFluent::Enabled(p.role_name(r)),
        Fluent::Assigned(u, r) => NamedFluent::Assigned(p.user_name(u), p.role_name(r)),
        Fluent::Granted(q, r) => NamedFluent::Granted(p.perm_name(q), p.role_name(r)),
        Fluent::Limit(l) => NamedFluent::Limit(p.limit_name(l)),
        Fluent::Edge(n) => named_edge(p, n),
    }
}

/// An event by names.
pub fn named_event(p: &Policy, e: Event) -> NamedEvent
    requires { IsTrue (is_fluent p.now.policy e.fluent) }
    ensures { result ≡ event_named p.now.names e }
{
    NamedEvent {
        on: e.on,
        fluent: named_fluent(p, e.fluent),
    }
}

/// A condition by names.
pub fn named_cond(p: &Policy, c: Cond) -> NamedCond
    requires { IsTrue (is_fluent p.now.policy c.fluent) }
    ensures { result ≡ cond_named p.now.names c }
{
    NamedCond {
        on: c.on,
        fluent: named_fluent(p, c.fluent),
    }
}

/// A signal by names.
pub fn named_signal(p: &Policy, s: Signal) -> NamedSignal
    requires { IsTrue (is_signal p.now.policy s) }
    ensures { result ≡ signal_named p.now.names s }
{
    p.keeps();
    NamedSignal {
        start: s.start,
        user: p.user_name(s.user),
        role: p.role_name(s.role),
    }
}

/// A prioritised event by names.
pub fn named_head(p: &Policy, h: Prioritised) -> NamedHead
    requires { IsTrue (is_fluent p.now.policy h.event.fluent) }
    ensures { result ≡ head_named p.now.names h }
{
    NamedHead {
        prio: h.prio,
        event: named_event(p, h.event),
    }
}

//! Whether two entries are the same.
ghost use Rattle.std.specs.Prelude.{◌≡◌, ◌↔◌, IsTrue};

use gt_base::{Actor, Decision, Entry, Reply, Request, Step, Walk};

/// Whether two walks are one: the start, and the edges in their order.
fn same_walk(a: &Walk, b: &Walk) -> bool
    ensures { IsTrue result ↔ (a.now ≡ b.now) }
{
    a.start == b.start && same_edges(a.edges.as_slice(), b.edges.as_slice())
}

/// Whether two walks have the same edges. Most walks have none.
fn same_edges(a: &[u32], b: &[u32]) -> bool
    ensures { IsTrue result ↔ (a.now ≡ b.now) }
{
    if a.is_empty() { b.is_empty() } else { a == b }
}

/// Whether two decisions are one, with their walk or edge.
fn same_decision(a: &Decision, b: &Decision) -> bool
    ensures { IsTrue result ↔ (a.now ≡ b.now) }
{
    match a {
        Decision::Permit { walk: v } => match b {
            Decision::Permit { walk: w } => same_walk(v, w),
            _ => false,
        },
        Decision::NoActive => matches!(b, Decision::NoActive),
        Decision::NoGrant => matches!(b, Decision::NoGrant),
        Decision::Shut { edge: m } => match b {
            Decision::Shut { edge: n } => m == n,
            _ => false,
        },
    }
}

/// Whether the replies are the same.
pub fn same_reply(a: &Reply, b: &Reply) -> bool
    ensures { IsTrue result ↔ (a.now ≡ b.now) }
{
    match a {
        Reply::Now(s) => match b {
            Reply::Now(t) => s == t,
            _ => false,
        },
        Reply::Truth(x) => match b {
            Reply::Truth(y) => x == y,
            _ => false,
        },
        Reply::Event(x) => match b {
            Reply::Event(y) => x == y,
            _ => false,
        },
        Reply::Queued(s) => match b {
            Reply::Queued(t) => s == t,
            _ => false,
        },
        Reply::Session(m) => match b {
            Reply::Session(n) => m == n,
            _ => false,
        },
        Reply::Done => matches!(b, Reply::Done),
        Reply::Active(v) => match b {
            Reply::Active(w) => same_walk(v, w),
            _ => false,
        },
        Reply::Decided(x) => match b {
            Reply::Decided(y) => same_decision(x, y),
            _ => false,
        },
        Reply::Refused(x) => match b {
            Reply::Refused(y) => x == y,
            _ => false,
        },
    }
}

/// Whether the same is asked by the same.
fn same_question(x: Actor, y: Actor, q: Request, r: Request) -> bool
    ensures { IsTrue result ↔ ((x ≡ y) × (q ≡ r)) }
{
    x == y && q == r
}

/// Whether two steps are one: ticks by bound and stop, asks by actor, request and reply.
fn same_step(a: &Step, b: &Step) -> bool
    ensures { IsTrue result ↔ (a.now ≡ b.now) }
{
    match a {
        Step::Tick { upto: s, to: t } => match b {
            Step::Tick { upto: u, to: v } => s == u && t == v,
            Step::Ask { .. } => false,
        },
        Step::Ask {
            actor: x,
            request: q,
            reply: m,
        } => match b {
            Step::Ask {
                actor: y,
                request: r,
                reply: n,
            } => same_question(*x, *y, *q, *r) && same_reply(m, n),
            Step::Tick { .. } => false,
        },
    }
}

/// Whether the entries are the same.
pub fn same_entry(a: &Entry, b: &Entry) -> bool
    ensures { IsTrue result ↔ (a.now ≡ b.now) }
{
    a.who == b.who && same_step(&a.what, &b.what)
}

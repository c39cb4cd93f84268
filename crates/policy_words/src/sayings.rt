//! What a line of a policy says.
use crate::parts::{Item, NamedCond, NamedFluent, NamedHead};
use gt_base::{Form, Instant, List, Name, Prio};
use periodic_expr::Expr;

/// What an edge of the hierarchy gives: permissions to the senior (I), the junior's activation (A),
/// or both.
#[derive(Clone, Copy, PartialEq, Eq)]
pub enum EdgeKind {
    I,
    A,
    Ia,
}

/// What a cap counts: activations at once over all sessions or of one user, the minutes of one
/// activation, or the charged minutes of a user in a civil day.
#[derive(Clone, Copy, PartialEq, Eq, Hash)]
pub enum CapKind {
    Total,
    User,
    Length,
    Day,
}

/// What a policy may have too many of.
#[derive(Clone, Copy, PartialEq, Eq)]
pub enum Kind {
    Roles,
    Users,
    Perms,
    Periods,
    Limits,
    Edges,
    Entries,
    Triggers,
    Assigned,
    Granted,
}

/// What a line that is not silent says, by names.
#[derive(Drop)]
pub enum Said {
    /// The version, 1 or 2.
    Version(u32),
    Role(Name),
    User(Name),
    Perm(Name),
    /// The instants of an expression from the first to the last, both included.
    Period {
        name: Name,
        first: Instant,
        last: Instant,
        expr: Expr,
    },
    /// A duration limit: the condition may hold for `most` minutes, 1 to 1,000,000, within the
    /// period if it has one.
    Limit {
        name: Name,
        prio: Prio,
        cond: NamedCond,
        most: u32,
        period: Option<Name>,
    },
    Edge {
        kind: EdgeKind,
        strong: bool,
        senior: Name,
        junior: Name,
    },
    /// A cap of a role, 1 to 1,000,000.
    Cap {
        kind: CapKind,
        role: Name,
        n: u32,
    },
    /// An administrator.
    Admin(Name),
    /// What is on at first.
    Opening(NamedFluent),
    /// A periodic entry.
    Entry {
        form: Form,
        period: Name,
        head: NamedHead,
    },
    /// A trigger, its items in the order of the line, and its delay in minutes.
    When {
        items: List<Item>,
        head: NamedHead,
        delay: u32,
    },
}

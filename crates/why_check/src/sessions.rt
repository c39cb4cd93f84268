//! The table of sessions after an answered request.
ghost use Rattle.std.specs.Prelude.{◌≡◌, ◌<◌, ◌≤◌, ◌+◌, ◌-◌, ◌^◌, [], ◌∷◌, OnOk, IfOk};
ghost use Rattle.gt_base.specs.Held.{RoleWalk};
ghost use Rattle.gt_base.specs.declared.requests.Actor.TheVariants.{User};
ghost use Rattle.gt_base.specs.declared.requests.Reply.TheVariants.{Active, Session};
ghost use Rattle.gt_base.specs.declared.requests.Request.TheVariants.{OpenSession, CloseSession, Activate as IsActivate, Deactivate as IsDeactivate};
ghost use Rattle.gtrbac_model.specs.Sessions.{applied};
ghost use Rattle.hybrid_hierarchy.specs.Nets.{IsHierarchy};
ghost use Rattle.gt_base.specs.Sets.{has};
ghost use Rattle.session_table.specs.Tables.{table_of};
ghost use Rattle.why_check.specs.Kept.{IsTableReply, IsAnsweredAt};

use gt_base::{
    Actor, Caps, HierEdge, Instant, List, Memory, Reply, Request, RoleId, SessionId, Signal,
    Status, UserId,
};
use session_table::{SessionFault, Sessions};
use std::alloc::AllocError;

/// By what a request was answered beside the table: the hierarchy, the caps, the status and the
/// instant.
#[derive(Clone, Copy)]
pub(crate) struct Answering<'a> {
    pub(crate) edges: &'a List<HierEdge>,
    pub(crate) caps: &'a List<Caps>,
    pub(crate) status: &'a Status,
    pub(crate) instant: Instant,
    ghost hierarchy: { IsHierarchy edges.now.items },
}

/// Does to the table what the answered request did, and adds the signals that it left.
pub(crate) fn apply(
    table: &mut Sessions,
    waiting: &mut Vec<Signal>,
    by: &Answering,
    actor: Actor,
    request: Request,
    reply: &Reply,
) -> Result<(), Memory>
    requires answered { IsAnsweredAt by.now.edges.now.items by.now.caps.now.items
        (has by.now.status.now.set) by.now.instant (table_of table.old) actor request reply.now }
    requires few { table.old.begun < 2 ^ 32 - 1 }
    ensures table { OnOk result (record (table_of table.new) { signals = waiting.new.items }
        ≡ applied by.now.instant actor request reply.now
        (record (table_of table.old) { signals = waiting.old.items })) }
    ensures charged_to { OnOk result (table.new.charged_to ≡ table.old.charged_to) }
    ensures begun { OnOk result (table.new.begun ≤ table.old.begun + 1) }
{
    let now = by.instant;
    match request {
        Request::OpenSession => open(table, waiting, now, actor, reply),
        Request::CloseSession(n) => close(table, waiting, now, actor, n, reply),
        Request::Activate(n, r) => activate(table, waiting, by, actor, n, r, reply),
        Request::Deactivate(n, r) => deactivate(table, waiting, now, actor, n, r, reply),
        Request::Now
        | Request::Status(_)
        | Request::Seen(_)
        | Request::Raise { .. }
        | Request::Active(_, _)
        | Request::Check(_, _) => Ok(()),
    }
}

/// Opens the session that was opened.
fn open(
    table: &mut Sessions,
    waiting: &mut Vec<Signal>,
    now: Instant,
    actor: Actor,
    reply: &Reply,
) -> Result<(), Memory>
    requires answered { IsTableReply (table_of table.old) actor OpenSession reply.now }
    requires few { table.old.begun < 2 ^ 32 - 1 }
    ensures table { OnOk result (record (table_of table.new) { signals = waiting.new.items }
        ≡ applied now actor OpenSession reply.now
        (record (table_of table.old) { signals = waiting.old.items })) }
    ensures charged_to { OnOk result (table.new.charged_to ≡ table.old.charged_to) }
    ensures begun { OnOk result (table.new.begun ≤ table.old.begun + 1) }
{
    let Reply::Session(number) = reply else {
        return Ok(());
    };
    match actor {
        Actor::User(user) => begin(table, user, *number),
        Actor::Operator | Actor::Nobody => Ok(()),
    }
}

/// Begins the session of this number.
fn begin(table: &mut Sessions, user: UserId, number: SessionId) -> Result<(), Memory>
    requires answered { IsTableReply (table_of table.old) (User user) OpenSession (Session number) }
    requires few { table.old.begun < 2 ^ 32 - 1 }
    ensures table { OnOk result (table_of table.new
        ≡ applied 0 (User user) OpenSession (Session number) (table_of table.old)) }
    ensures charged_to { OnOk result (table.new.charged_to ≡ table.old.charged_to) }
{
    match table.begin(user) {
        Ok(_) => Ok(()),
        Err(SessionFault::Memory) => Err(AllocError),
        Err(SessionFault::Refused(_)) => unreachable!(),
    }
}

/// Closes the session that was closed.
fn close(
    table: &mut Sessions,
    waiting: &mut Vec<Signal>,
    now: Instant,
    actor: Actor,
    session: SessionId,
    reply: &Reply,
) -> Result<(), Memory>
    requires { IsTableReply (table_of table.old) actor (CloseSession session) reply.now }
    ensures table { OnOk result (record (table_of table.new) { signals = waiting.new.items }
        ≡ applied now actor (CloseSession session) reply.now
        (record (table_of table.old) { signals = waiting.old.items })) }
    ensures charged_to { OnOk result (table.new.charged_to ≡ table.old.charged_to) }
    ensures begun { OnOk result (table.new.begun ≤ table.old.begun + 1) }
{
    let Reply::Done = reply else {
        return Ok(());
    };
    match table.finish(actor, session) {
        Ok(signals) => waiting.extend_from_slice(signals.as_slice()),
        Err(SessionFault::Memory) => Err(AllocError),
        Err(SessionFault::Refused(_)) => unreachable!(),
    }
}

/// Activates the role that was activated.
fn activate(
    table: &mut Sessions,
    waiting: &mut Vec<Signal>,
    by: &Answering,
    actor: Actor,
    session: SessionId,
    role: RoleId,
    reply: &Reply,
) -> Result<(), Memory>
    requires { IsAnsweredAt by.now.edges.now.items by.now.caps.now.items
        (has by.now.status.now.set) by.now.instant (table_of table.old) actor
        (IsActivate session role) reply.now }
    ensures table { OnOk result (record (table_of table.new) { signals = waiting.new.items }
        ≡ applied by.now.instant actor (IsActivate session role) reply.now
        (record (table_of table.old) { signals = waiting.old.items })) }
    ensures charged_to { OnOk result (table.new.charged_to ≡ table.old.charged_to) }
    ensures begun { OnOk result (table.new.begun ≤ table.old.begun + 1) }
{
    let Reply::Active(_) = reply else {
        return Ok(());
    };
    let signal = start(table, by, actor, session, role)?;
    waiting.push(signal)?;
    Ok(())
}

/// Activates the role, and answers the start signal.
fn start(
    table: &mut Sessions,
    by: &Answering,
    actor: Actor,
    session: SessionId,
    role: RoleId,
) -> Result<Signal, Memory>
    requires { (w : RoleWalk)
        × IsAnsweredAt by.now.edges.now.items by.now.caps.now.items
        (has by.now.status.now.set) by.now.instant (table_of table.old) actor
        (IsActivate session role) (Active w) }
    ensures table { IfOk result (λ x. (w : RoleWalk)
        → applied by.now.instant actor (IsActivate session role) (Active w) (table_of table.old)
        ≡ record (table_of table.new) { signals = x ∷ [] }) }
    ensures charged_to { OnOk result (table.new.charged_to ≡ table.old.charged_to) }
{
    match table.activate(
        by.edges, by.caps, by.status, by.instant, actor, session, role,
    ) {
        Ok(started) => Ok(started.1),
        Err(SessionFault::Memory) => Err(AllocError),
        Err(SessionFault::Refused(_)) => unreachable!(),
    }
}

/// Ends the activation that was ended.
fn deactivate(
    table: &mut Sessions,
    waiting: &mut Vec<Signal>,
    now: Instant,
    actor: Actor,
    session: SessionId,
    role: RoleId,
    reply: &Reply,
) -> Result<(), Memory>
    requires { IsTableReply (table_of table.old) actor (IsDeactivate session role) reply.now }
    ensures table { OnOk result (record (table_of table.new) { signals = waiting.new.items }
        ≡ applied now actor (IsDeactivate session role) reply.now
        (record (table_of table.old) { signals = waiting.old.items })) }
    ensures charged_to { OnOk result (table.new.charged_to ≡ table.old.charged_to) }
    ensures begun { OnOk result (table.new.begun ≤ table.old.begun + 1) }
{
    let Reply::Done = reply else {
        return Ok(());
    };
    match table.deactivate(actor, session, role) {
        Ok(signal) => {
            waiting.push(signal)?;
            Ok(())
        }
        Err(SessionFault::Memory) => Err(AllocError),
        Err(SessionFault::Refused(_)) => unreachable!(),
    }
}

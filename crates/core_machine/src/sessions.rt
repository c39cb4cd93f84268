//! Requests that open, close or change sessions.
ghost use Rattle.std.specs.Prelude.{◌≡◌, ◌<◌, ◌≤◌, ◌∷◌, [], length, count_by, IfOk, IfErr, OnErr};
ghost use Rattle.gt_base.specs.declared.requests.Actor.TheVariants.{User};
ghost use Rattle.gt_base.specs.declared.requests.Request.TheVariants.{OpenSession, CloseSession, Activate, Deactivate};
ghost use Rattle.gt_base.specs.declared.requests.Reply.TheVariants.{Active};
ghost use Rattle.gtrbac_model.specs.Reply.{answer};
ghost use Rattle.gtrbac_model.specs.Sessions.{applied};
ghost use Rattle.session_table.specs.Opened.{in_session};
ghost use Rattle.session_table.specs.Replies.{OrRefused};
ghost use Rattle.session_table.specs.Tables.{table_of};
ghost use Rattle.core_machine.specs.Coherent.{point_of};
ghost use Rattle.core_machine.specs.Steps.{IsStep, MayAsk};

use crate::entering::{add_entry, add_signals, make_room, tell};
use crate::prepared::Prepared;
use crate::states::State;
use gt_base::{
    Actor, List, Memory, Refusal, Reply, Request, RoleId, SessionId, Signal, UserId, Walk, Who,
};
use session_table::{SessionFault, Sessions};
use std::alloc::AllocError;
use time_engine::Timeline;

/// Opens a session for the user.
pub(crate) fn open_session(s: &mut State, who: Who, actor: Actor) -> Result<Reply, Memory>
    requires { MayAsk s.old actor OpenSession }
    ensures { IsStep s.old s.new who actor OpenSession result }
{
    match actor {
        Actor::User(user) => {
            make_room(s, 0)?;
            begin(s, who, user)
        }
        _ => {
            let reply = Reply::Refused(Refusal::NoUser);
            tell(s, who, actor, Request::OpenSession, reply)
        }
    }
}

/// Opens a session for the user, with room for the entry made before.
fn begin(s: &mut State, who: Who, user: UserId) -> Result<Reply, Memory>
    requires asks { MayAsk s.old (User user) OpenSession }
    requires room { 1 ≤ s.old.entries.spare }
    ensures { IsStep s.old s.new who (User user) OpenSession result }
{
    s.line.keeps();
    let actor = Actor::User(user);
    let request = Request::OpenSession;
    match s.table.begin(user) {
        Ok(session) => {
            add_entry(&mut s.entries, who, actor, request, Reply::Session(session));
            Ok(Reply::Session(session))
        }
        Err(SessionFault::Refused(refusal)) => {
            tell(s, who, actor, request, Reply::Refused(refusal))
        }
        Err(SessionFault::Memory) => Err(AllocError),
    }
}

/// Closes the session, and signals the end of its activations.
pub(crate) fn close_session(
    s: &mut State,
    who: Who,
    actor: Actor,
    session: SessionId,
) -> Result<Reply, Memory>
    requires { MayAsk s.old actor (CloseSession session) }
    ensures { IsStep s.old s.new who actor (CloseSession session) result }
{
    let ending = s.table.most_in(session);
    make_room(s, ending)?;
    finish(s, who, actor, session)
}

/// Closes the session, with room for the signals and the entry made before.
fn finish(s: &mut State, who: Who, actor: Actor, session: SessionId) -> Result<Reply, Memory>
    requires asks { MayAsk s.old actor (CloseSession session) }
    requires room { 1 ≤ s.old.entries.spare }
    requires spare { count_by (in_session session) s.old.table.active ≤ s.old.line.spare }
    ensures { IsStep s.old s.new who actor (CloseSession session) result }
{
    s.line.keeps();
    let request = Request::CloseSession(session);
    match s.table.finish(actor, session) {
        Ok(signals) => {
            add_signals(&mut s.line, signals.as_slice());
            add_entry(&mut s.entries, who, actor, request, Reply::Done);
            Ok(Reply::Done)
        }
        Err(SessionFault::Refused(refusal)) => {
            tell(s, who, actor, request, Reply::Refused(refusal))
        }
        Err(SessionFault::Memory) => Err(AllocError),
    }
}

/// Activates the role in the session, and signals its start.
pub(crate) fn activate(
    s: &mut State,
    who: Who,
    actor: Actor,
    session: SessionId,
    role: RoleId,
) -> Result<Reply, Memory>
    requires { MayAsk s.old actor (Activate session role) }
    ensures { IsStep s.old s.new who actor (Activate session role) result }
{
    let mut edges = List::new(s.alloc);
    edges.reserve(s.ground.policy().edges().len())?;
    make_room(s, 1)?;
    begin_role(s, who, actor, session, role, edges)
}

/// Activates the role, with room for the signal, the entry and a second copy of the walk made
/// before.
fn begin_role(
    s: &mut State,
    who: Who,
    actor: Actor,
    session: SessionId,
    role: RoleId,
    edges: List<u32>,
) -> Result<Reply, Memory>
    requires asks { MayAsk s.old actor (Activate session role) }
    requires room { 1 ≤ s.old.entries.spare }
    requires spare { 1 ≤ s.old.line.spare }
    requires edges { (edges.items ≡ []) × (length s.old.ground.policy.edges ≤ edges.spare) }
    ensures { IsStep s.old s.new who actor (Activate session role) result }
{
    s.line.keeps();
    let request = Request::Activate(session, role);
    match start(&mut s.table, &s.ground, &s.line, actor, session, role) {
        Ok((walk, signal)) => {
            let answer = copy_into(edges, &walk);
            add_signals(&mut s.line, &[signal]);
            add_entry(&mut s.entries, who, actor, request, Reply::Active(walk));
            Ok(Reply::Active(answer))
        }
        Err(SessionFault::Refused(refusal)) => {
            tell(s, who, actor, request, Reply::Refused(refusal))
        }
        Err(SessionFault::Memory) => Err(AllocError),
    }
}

/// Activates the role under the policy, in the status of now.
fn start(
    table: &mut Sessions,
    ground: &Prepared,
    line: &Timeline,
    actor: Actor,
    session: SessionId,
    role: RoleId,
) -> Result<(Walk, Signal), SessionFault>
    ensures answer { IfOk result
        (λ r. answer ground.now.policy (point_of line.now.line (table_of table.old)) actor
        (Activate session role)
        ≡ Active r.0) }
    ensures table { IfOk result
        (λ r. applied line.now.line.now actor (Activate session role) (Active r.0)
        (table_of table.old)
        ≡ record (table_of table.new) { signals = r.1 ∷ [] }) }
    ensures charged_to { table.new.charged_to ≡ table.old.charged_to }
    ensures refused { IfErr result
        (λ fault. OrRefused fault
        (λ reply. answer ground.now.policy (point_of line.now.line (table_of table.old))
        actor (Activate session role)
        ≡ reply)) }
    ensures same { OnErr result (table_of table.new ≡ table_of table.old) }
{
    let policy = ground.policy();
    let status = line.status();
    let now = line.now();
    table.activate_over(
        ground.hierarchy(),
        policy.caps(),
        status,
        now,
        actor,
        session,
        role,
    )
}

/// The walk again, into room that was made before.
fn copy_into(mut edges: List<u32>, walk: &Walk) -> Walk
    requires empty { edges.items ≡ [] }
    requires room { length walk.now.edges ≤ edges.spare }
    ensures { result ≡ walk.now }
{
    edges.extend_from_slice(walk.edges.as_slice());
    Walk {
        start: walk.start,
        edges,
    }
}

/// Ends the activation of the role in the session, and signals its end.
pub(crate) fn deactivate(
    s: &mut State,
    who: Who,
    actor: Actor,
    session: SessionId,
    role: RoleId,
) -> Result<Reply, Memory>
    requires { MayAsk s.old actor (Deactivate session role) }
    ensures { IsStep s.old s.new who actor (Deactivate session role) result }
{
    make_room(s, 1)?;
    end_role(s, who, actor, session, role)
}

/// Ends the activation, with room for the signal and the entry made before.
fn end_role(
    s: &mut State,
    who: Who,
    actor: Actor,
    session: SessionId,
    role: RoleId,
) -> Result<Reply, Memory>
    requires asks { MayAsk s.old actor (Deactivate session role) }
    requires room { 1 ≤ s.old.entries.spare }
    requires spare { 1 ≤ s.old.line.spare }
    ensures { IsStep s.old s.new who actor (Deactivate session role) result }
{
    s.line.keeps();
    let request = Request::Deactivate(session, role);
    match s.table.deactivate(actor, session, role) {
        Ok(signal) => {
            add_signals(&mut s.line, &[signal]);
            add_entry(&mut s.entries, who, actor, request, Reply::Done);
            Ok(Reply::Done)
        }
        Err(SessionFault::Refused(refusal)) => {
            tell(s, who, actor, request, Reply::Refused(refusal))
        }
        Err(SessionFault::Memory) => unreachable!(),
    }
}

//! Requests that only look: the instant, a condition, an event of now, an active role, a
//! permission.
ghost use Rattle.std.specs.Prelude.{◌≡◌, true, IfOk};
ghost use Rattle.gt_base.specs.Sets.{has};
ghost use Rattle.gt_base.specs.declared.requests.Request.TheVariants.{Active as AskActive, Check};
ghost use Rattle.gtrbac_model.specs.Same.{same_role, lists};
ghost use Rattle.gtrbac_model.specs.Trigger.{holds};
ghost use Rattle.session_table.specs.Replies.{Answers};
ghost use Rattle.session_table.specs.Tables.{table_of};
ghost use Rattle.core_machine.specs.Books.{reply_in};
ghost use Rattle.core_machine.specs.Coherent.{IsAnswer, IsCoherent, view_of};
ghost use Rattle.history_laws.specs.Looks.{is_look};

use crate::asking::is_nobody;
use crate::states::State;
use decision_reason::decide_over;
use gt_base::{Actor, Cond, Memory, PermId, Refusal, Reply, Request, RoleId, SessionId, Status};
use priority_conflict::seen;
use session_table::Sessions;

/// Whether a request only looks.
pub fn only_looks(request: &Request) -> bool
    ensures { result ≡ is_look request.now }
{
    match request {
        Request::Now | Request::Status(_) | Request::Seen(_) => true,
        Request::Active(_, _) | Request::Check(_, _) => true,
        _ => false,
    }
}

/// The reply to a request that only looks. For want of memory it may refuse.
pub(crate) fn look(s: &State, actor: Actor, request: &Request) -> Result<Reply, Memory>
    requires kept { IsCoherent s.now }
    requires looks { is_look request.now ≡ true }
    ensures { IfOk result (λ reply. reply ≡ reply_in (view_of s.now) actor request.now) }
{
    if is_nobody(actor) {
        return Ok(Reply::Refused(Refusal::NoUser));
    }
    s.line.keeps();
    told(s, actor, request)
}

/// What the timeline and the table answer.
fn told(s: &State, actor: Actor, request: &Request) -> Result<Reply, Memory>
    requires { is_look request.now ≡ true }
    ensures { IfOk result (λ reply. IsAnswer s.now actor request.now reply) }
{
    match request {
        Request::Now => Ok(Reply::Now(s.line.now())),
        Request::Status(cond) => Ok(Reply::Truth(holds(s.line.status(), *cond))),
        Request::Seen(event) => Ok(Reply::Event(seen(s.line.happened(), *event))),
        Request::Active(session, role) => Ok(is_active(&s.table, actor, *session, *role)),
        Request::Check(session, perm) => decision(s, actor, *session, *perm),
        _ => unreachable!(),
    }
}

/// Whether the condition holds in the status.
fn holds(status: &Status, cond: Cond) -> bool
    ensures { result ≡ holds (has status.now.set) cond }
{
    let on = status.is_on(cond.fluent);
    if cond.on { on } else { !on }
}

/// Whether the role is active in the session, or why the actor may not know.
fn is_active(table: &Sessions, actor: Actor, session: SessionId, role: RoleId) -> Reply
    ensures { Answers (table_of table.now) actor (AskActive session role) result }
{
    match table.active(actor, session) {
        Ok(roles) => Reply::Truth(is_among(roles, role)),
        Err(refusal) => Reply::Refused(refusal),
    }
}

/// Whether the role is one of these.
fn is_among(roles: &[RoleId], role: RoleId) -> bool
    ensures { result ≡ lists same_role roles.now role }
{
    roles.iter().any(|r| role.0 == r.0)
}

/// The decision on the permission, or why the actor may not know.
fn decision(s: &State, actor: Actor, session: SessionId, perm: PermId) -> Result<Reply, Memory>
    ensures { IfOk result (λ reply. IsAnswer s.now actor (Check session perm) reply) }
{
    match s.table.active(actor, session) {
        Ok(roles) => {
            let hierarchy = s.ground.hierarchy();
            let answer = decide_over(s.alloc, hierarchy, s.line.status(), roles, perm)?;
            Ok(Reply::Decided(answer))
        }
        Err(refusal) => Ok(Reply::Refused(refusal)),
    }
}

//! Answers a request by its kind; nobody is refused.
ghost use Rattle.std.specs.Prelude.{◌≡◌, false};
ghost use Rattle.core_machine.specs.Coherent.{IsReady};
ghost use Rattle.history_laws.specs.Looks.{is_look};
ghost use Rattle.core_machine.specs.Steps.{IsStep, MayAsk, is_nobody};

use crate::entering::{raise, tell};
use crate::looking::{look, only_looks};
use crate::sessions::{activate, close_session, deactivate, open_session};
use crate::states::State;
use gt_base::{Actor, Memory, Refusal, Reply, Request, Who};

/// Answers a request at now, and adds its entry. For want of memory it may refuse; the book is then
/// as it was.
pub(crate) fn answer(
    s: &mut State,
    who: Who,
    actor: Actor,
    request: Request,
) -> Result<Reply, Memory>
    requires { IsReady s.old actor request }
    ensures { IsStep s.old s.new who actor request result }
{
    if only_looks(&request) {
        let reply = look(s, actor, &request)?;
        tell(s, who, actor, request, reply)
    } else if is_nobody(actor) {
        tell(s, who, actor, request, Reply::Refused(Refusal::NoUser))
    } else {
        change(s, who, actor, request)
    }
}

/// Whether nobody asks, who is refused everything; the operator is somebody.
pub(crate) fn is_nobody(actor: Actor) -> bool
    ensures { result ≡ is_nobody actor }
{
    matches!(actor, Actor::Nobody)
}

/// Answers a request of a user or the operator that does not only look.
fn change(s: &mut State, who: Who, actor: Actor, request: Request) -> Result<Reply, Memory>
    requires asks { MayAsk s.old actor request }
    requires changes { is_look request ≡ false }
    ensures { IsStep s.old s.new who actor request result }
{
    match request {
        Request::Raise { head, delay } => raise(s, who, actor, head, delay),
        Request::OpenSession => open_session(s, who, actor),
        Request::CloseSession(session) => close_session(s, who, actor, session),
        Request::Activate(session, role) => activate(s, who, actor, session, role),
        Request::Deactivate(session, role) => deactivate(s, who, actor, session, role),
        _ => unreachable!(),
    }
}

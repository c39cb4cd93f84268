//! The lines of requests, written.
ghost use Rattle.std.specs.Prelude.{◌≡◌, ◌++◌, ◌∷◌, [], decimal, IsTrue, OnOk, IfOk, length, ◌<◌};
ghost use Rattle.gt_text.specs.Words.{spaced};
ghost use Rattle.gtrbac_model.specs.WholePolicy.{is_fluent};
ghost use Rattle.policy_words.specs.Naming.{role_name};
ghost use Rattle.request_text.specs.Replies.{request_text};
ghost use Rattle.request_text.specs.Named.{has_request};

use gt_base::{Cond, Event, Memory, Name, Prioritised, Request, RoleId, SessionId};
use gt_text::push_number;
use policy_book::{Policy, named_cond, named_event, named_head};
use policy_lines::{push_cond, push_delay, push_event, push_head};
use std::alloc::Global;

/// Adds `status` and a condition.
fn push_status(text: &mut Vec<u8>, p: &Policy, c: Cond) -> Result<(), Memory>
    requires { IsTrue (is_fluent p.now.policy c.fluent) }
    ensures { OnOk result (text.new.items ≡ text.old.items
        ++ request_text p.now (Request.Status c)) }
{
    text.extend_from_slice(b"status ")?;
    push_cond(text, &named_cond(p, c))
}

/// Adds `event` and an event.
fn push_seen(text: &mut Vec<u8>, p: &Policy, e: Event) -> Result<(), Memory>
    requires { IsTrue (is_fluent p.now.policy e.fluent) }
    ensures { OnOk result (text.new.items ≡ text.old.items ++ request_text p.now (Request.Seen e)) }
{
    text.extend_from_slice(b"event ")?;
    push_event(text, &named_event(p, e))
}

/// Adds `request`, a prioritised event and its delay, where that is not 0.
fn push_raise(text: &mut Vec<u8>, p: &Policy, h: Prioritised, delay: u32) -> Result<(), Memory>
    requires { IsTrue (is_fluent p.now.policy h.event.fluent) }
    ensures { OnOk result (text.new.items ≡ text.old.items
        ++ request_text p.now (Request.Raise h delay)) }
{
    text.extend_from_slice(b"request ")?;
    push_head(text, &named_head(p, h))?;
    push_delay(text, delay)
}

/// Adds a verb and a session.
fn push_verb(text: &mut Vec<u8>, verb: &[u8], session: SessionId) -> Result<(), Memory>
    ensures { OnOk result (text.new.items ≡ text.old.items
        ++ spaced (verb.now ∷ decimal session.0 ∷ [])) }
{
    text.extend_from_slice(verb)?;
    text.extend_from_slice(b" ")?;
    push_number(text, u64::from(session.0))
}

/// Adds a verb, a session and a name.
fn push_session(
    text: &mut Vec<u8>,
    verb: &[u8],
    session: SessionId,
    name: &Name,
) -> Result<(), Memory>
    ensures { OnOk result (text.new.items ≡ text.old.items
        ++ spaced (verb.now ∷ decimal session.0 ∷ name.now ∷ [])) }
{
    push_verb(text, verb, session)?;
    text.extend_from_slice(b" ")?;
    text.extend_from_slice(name.bytes())
}

/// Adds a verb, a session and the name of a role.
fn push_role(
    text: &mut Vec<u8>,
    p: &Policy,
    verb: &[u8],
    session: SessionId,
    role: RoleId,
) -> Result<(), Memory>
    requires { role.0 < length p.now.names.roles }
    ensures { OnOk result (text.new.items ≡ text.old.items
        ++ spaced (verb.now ∷ decimal session.0 ∷ role_name p.now.names role ∷ [])) }
{
    push_session(text, verb, session, &p.role_name(role))
}

/// Adds a request as a line of a script or a connection has it, without a line feed.
fn push_request(text: &mut Vec<u8>, p: &Policy, request: Request) -> Result<(), Memory>
    requires { IsTrue (has_request p.now.policy request) }
    ensures { OnOk result (text.new.items ≡ text.old.items ++ request_text p.now request) }
{
    p.keeps();
    match request {
        Request::Now => text.extend_from_slice(b"now"),
        Request::Status(c) => push_status(text, p, c),
        Request::Seen(e) => push_seen(text, p, e),
        Request::Raise { head, delay } => push_raise(text, p, head, delay),
        Request::OpenSession => text.extend_from_slice(b"open"),
        Request::CloseSession(s) => push_verb(text, b"close", s),
        Request::Activate(s, r) => push_role(text, p, b"activate", s, r),
        Request::Deactivate(s, r) => push_role(text, p, b"deactivate", s, r),
        Request::Active(s, r) => push_role(text, p, b"active", s, r),
        Request::Check(s, q) => push_session(text, b"check", s, &p.perm_name(q)),
    }
}

/// The line of a request, words with one space between them and without a delay of 0.
pub(crate) fn write_request(alloc: Global, p: &Policy, request: Request) -> Result<Vec<u8>, Memory>
    requires { IsTrue (has_request p.now.policy request) }
    ensures { IfOk result (λ text. text.items ≡ request_text p.now request) }
{
    let mut text = Vec::new(alloc);
    push_request(&mut text, p, request)?;
    Ok(text)
}

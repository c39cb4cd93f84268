//! Lines, read over a policy.
ghost use Rattle.std.specs.Prelude.{◌≡◌, ◌&&◌, bytes_eq, codes, IfOk};
ghost use Rattle.request_text.specs.Phrases.{request_of, actor_of, line_of, said, ask_request, raise_in, request_in, phrase_by, request_by, read_line};
ghost use Rattle.request_text.specs.Lines.{IsOpening, IsNamedLine};

use crate::forms::{at, be, raise, request_after, session_name};
use crate::lines::{Line, LineFault};
use crate::phrases::{NamedRequest, Phrase};
use crate::verbs::{RequestVerb, request_verb};
use gt_base::{Actor, LONGEST_LINE, Name, Request};
use gt_text::{Words, begins};
use policy_book::Policy;

/// The request in numbers of the policy, none exactly where a name of it is not declared.
fn numbered(p: &Policy, request: NamedRequest) -> Option<Request>
    ensures { result ≡ request_of p.now request }
{
    match request {
        NamedRequest::Now => Some(Request::Now),
        NamedRequest::Status(c) => Some(Request::Status(p.cond(&c)?)),
        NamedRequest::Seen(e) => Some(Request::Seen(p.event(&e)?)),
        NamedRequest::Raise { head, delay } => Some(Request::Raise {
            head: p.head(&head)?,
            delay,
        }),
        NamedRequest::OpenSession => Some(Request::OpenSession),
        NamedRequest::CloseSession(s) => Some(Request::CloseSession(s)),
        NamedRequest::Activate(s, r) => Some(Request::Activate(s, p.role(&r)?)),
        NamedRequest::Deactivate(s, r) => Some(Request::Deactivate(s, p.role(&r)?)),
        NamedRequest::Active(s, r) => Some(Request::Active(s, p.role(&r)?)),
        NamedRequest::Check(s, q) => Some(Request::Check(s, p.perm(&q)?)),
    }
}

/// The actor of a name, the opening one where there is none; nobody is it exactly where the name is
/// not declared.
fn actor(p: &Policy, opening: Actor, user: Option<Name>) -> Option<Actor>
    ensures { result ≡ actor_of p.now opening user }
{
    match user {
        None => Some(opening),
        Some(name) => Some(Actor::User(p.user(&name)?)),
    }
}

/// What a phrase says over a policy, none exactly where a name of it is not declared.
fn line_by(p: &Policy, opening: Actor, phrase: Phrase) -> Option<Line>
    ensures { result ≡ line_of p.now opening phrase }
{
    match phrase {
        Phrase::At(t) => Some(Line::At(t)),
        Phrase::Be(user) => Some(Line::Be(actor(p, opening, user)?)),
        Phrase::Ask(request) => Some(Line::Ask(numbered(p, request)?)),
    }
}

/// The line that a phrase is; no phrase is a fault of syntax, an unknown name one of names.
fn said(p: &Policy, opening: Actor, phrase: Option<Phrase>) -> Result<Line, LineFault>
    ensures { result ≡ said p.now opening phrase }
{
    let Some(phrase) = phrase else {
        return Err(LineFault::Syntax);
    };
    match line_by(p, opening, phrase) {
        Some(line) => Ok(line),
        None => Err(LineFault::Name),
    }
}

/// What a request asks over a policy, or why it asks nothing.
fn asked(p: &Policy, request: Option<NamedRequest>) -> Result<Line, LineFault>
    ensures { (opening : Actor) → result ≡ said p.now opening (ask_request request) }
{
    let Some(request) = request else {
        return Err(LineFault::Syntax);
    };
    let Some(request) = numbered(p, request) else {
        return Err(LineFault::Name);
    };
    Ok(Line::Ask(request))
}

/// The same of the words after `request`: its names are looked up where they were read.
fn asked_raise(p: &Policy, words: Words<'_>) -> Result<Line, LineFault>
    ensures { (opening : Actor)
        → result ≡ said p.now opening (ask_request (raise_in words.entry)) }
{
    let Some((head, delay)) = raise(words) else {
        return Err(LineFault::Syntax);
    };
    let Some(head) = p.head(&head) else {
        return Err(LineFault::Name);
    };
    Ok(Line::Ask(Request::Raise { head, delay }))
}

/// The same of the words after `check`.
fn asked_check(p: &Policy, words: Words<'_>) -> Result<Line, LineFault>
    ensures { (opening : Actor)
        → result ≡ said p.now opening (ask_request (request_by RequestVerb.Check words.entry)) }
{
    let Some((session, name)) = session_name(words) else {
        return Err(LineFault::Syntax);
    };
    let Some(perm) = p.perm(&name) else {
        return Err(LineFault::Name);
    };
    Ok(Line::Ask(Request::Check(session, perm)))
}

/// What a first word and the words after it ask over a policy, or why they ask nothing.
fn request_said(p: &Policy, word: &[u8], words: Words<'_>) -> Result<Line, LineFault>
    ensures { (opening : Actor)
        → result ≡ said p.now opening (ask_request (request_in word.now words.entry)) }
{
    match request_verb(word) {
        None => Err(LineFault::Syntax),
        Some(RequestVerb::Request) => asked_raise(p, words),
        Some(RequestVerb::Check) => asked_check(p, words),
        Some(verb) => asked(p, request_after(verb, words)),
    }
}

/// Whether the word is `@`, in a script.
fn is_at(script: bool, word: &[u8]) -> bool
    ensures { result ≡ (script && bytes_eq word.now (codes "@")) }
{
    script && word == b"@".as_slice()
}

/// What a first word and the words after it say over a policy, or their fault.
fn words_said(
    p: &Policy,
    opening: Actor,
    script: bool,
    word: &[u8],
    words: Words<'_>,
) -> Result<Line, LineFault>
    ensures { result ≡ said p.now opening (phrase_by script word.now words.entry) }
{
    if is_at(script, word) {
        return said(p, opening, at(words));
    }
    if word == b"as".as_slice() {
        return said(p, opening, be(words));
    }
    request_said(p, word, words)
}

/// What a line says over a policy, or its fault.
fn line_said(p: &Policy, opening: Actor, script: bool, line: &[u8]) -> Result<Line, LineFault>
    ensures { result ≡ read_line p.now opening script line.now }
{
    if line.len() > LONGEST_LINE {
        return Err(LineFault::Long);
    }
    let mut words = Words::new(line);
    let Some(word) = words.next() else {
        return Ok(Line::Silent);
    };
    if begins(word, b'#') {
        return Ok(Line::Silent);
    }
    words_said(p, opening, script, word, words)
}

/// What a line of a script, or of a connection, says over a policy, or its fault. `opening` is the
/// actor that `as -` stands for: the operator in a script, nobody on a connection.
pub fn read_line(p: &Policy, opening: Actor, script: bool, line: &[u8]) -> Result<Line, LineFault>
    requires { IsOpening opening }
    ensures value { result ≡ read_line p.now opening script line.now }
    ensures named { IfOk result (λ l. IsNamedLine p.now.policy l) }
{
    p.keeps();
    line_said(p, opening, script, line)
}

//! Phrases, read from the words of a line.
ghost use Rattle.std.specs.Prelude.{◌≡◌, option_map};
ghost use Rattle.policy_words.specs.Wording.{at_end};
ghost use Rattle.request_text.specs.Phrases.{session_at, session_in, session_name_in, raise_in, cond_in, event_in, request_by, actor_in, minute_in, at_minute, be_actor};

use crate::phrases::{NamedRequest, Phrase};
use crate::verbs::RequestVerb;
use gt_base::{Instant, MAX_PRIO, Name, SessionId};
use gt_text::{Words, read_between};
use policy_lines::{
    next_cond, next_event, next_head, next_name, read_delay, read_instant, read_name,
};
use policy_words::NamedHead;

/// The session at the front.
fn next_session(words: &mut Words<'_>) -> Option<SessionId>
    ensures { option_map (λ s. (s, words.new)) result ≡ session_at words.old }
{
    let word = words.next()?;
    Some(SessionId(read_between(0, u32::MAX, word)?))
}

/// The session alone.
fn session(mut words: Words<'_>) -> Option<SessionId>
    ensures { result ≡ session_in words.entry }
{
    let session = next_session(&mut words)?;
    if words.next().is_some() {
        return None;
    }
    Some(session)
}

/// A session and a name.
pub(crate) fn session_name(mut words: Words<'_>) -> Option<(SessionId, Name)>
    ensures { result ≡ session_name_in words.entry }
{
    let session = next_session(&mut words)?;
    let name = next_name(&mut words)?;
    if words.next().is_some() {
        return None;
    }
    Some((session, name))
}

/// A condition and no further word.
fn status(mut words: Words<'_>) -> Option<NamedRequest>
    ensures { result ≡ cond_in words.entry }
{
    let cond = next_cond(&mut words)?;
    if words.next().is_some() {
        return None;
    }
    Some(NamedRequest::Status(cond))
}

/// An event and no further word.
fn seen(mut words: Words<'_>) -> Option<NamedRequest>
    ensures { result ≡ event_in words.entry }
{
    let event = next_event(&mut words)?;
    if words.next().is_some() {
        return None;
    }
    Some(NamedRequest::Seen(event))
}

/// The event that is requested, and its delay.
pub(crate) fn raise(mut words: Words<'_>) -> Option<(NamedHead, u32)>
    ensures { option_map (λ r. NamedRequest.Raise r.0 r.1) result ≡ raise_in words.entry }
{
    let head = next_head(MAX_PRIO, &mut words)?;
    let delay = read_delay(words)?;
    Some((head, delay))
}

/// A prioritised event, with or without `after DELAY`, and no further word.
fn raised(words: Words<'_>) -> Option<NamedRequest>
    ensures { result ≡ raise_in words.entry }
{
    let (head, delay) = raise(words)?;
    Some(NamedRequest::Raise { head, delay })
}

/// A request without further words.
fn alone(request: NamedRequest, mut words: Words<'_>) -> Option<NamedRequest>
    ensures { result ≡ at_end request words.entry }
{
    if words.next().is_some() {
        return None;
    }
    Some(request)
}

/// A session and no further word.
fn close(words: Words<'_>) -> Option<NamedRequest>
    ensures { result ≡ request_by RequestVerb.Close words.entry }
{
    Some(NamedRequest::CloseSession(session(words)?))
}

/// A session, a role and no further word.
fn activate(words: Words<'_>) -> Option<NamedRequest>
    ensures { result ≡ request_by RequestVerb.Activate words.entry }
{
    let (session, role) = session_name(words)?;
    Some(NamedRequest::Activate(session, role))
}

/// A session, a role and no further word.
fn deactivate(words: Words<'_>) -> Option<NamedRequest>
    ensures { result ≡ request_by RequestVerb.Deactivate words.entry }
{
    let (session, role) = session_name(words)?;
    Some(NamedRequest::Deactivate(session, role))
}

/// A session, a role and no further word.
fn active(words: Words<'_>) -> Option<NamedRequest>
    ensures { result ≡ request_by RequestVerb.Active words.entry }
{
    let (session, role) = session_name(words)?;
    Some(NamedRequest::Active(session, role))
}

/// A session, a permission and no further word.
fn check(words: Words<'_>) -> Option<NamedRequest>
    ensures { result ≡ request_by RequestVerb.Check words.entry }
{
    let (session, perm) = session_name(words)?;
    Some(NamedRequest::Check(session, perm))
}

/// What the words after the first word of a request ask.
pub(crate) fn request_after(verb: RequestVerb, words: Words<'_>) -> Option<NamedRequest>
    ensures { result ≡ request_by verb words.entry }
{
    match verb {
        RequestVerb::Now => alone(NamedRequest::Now, words),
        RequestVerb::Status => status(words),
        RequestVerb::Event => seen(words),
        RequestVerb::Request => raised(words),
        RequestVerb::Open => alone(NamedRequest::OpenSession, words),
        RequestVerb::Close => close(words),
        RequestVerb::Activate => activate(words),
        RequestVerb::Deactivate => deactivate(words),
        RequestVerb::Active => active(words),
        RequestVerb::Check => check(words),
    }
}

/// The name of an actor, where `-` is none.
fn actor(mut words: Words<'_>) -> Option<Option<Name>>
    ensures { result ≡ actor_in words.entry }
{
    let word = words.next()?;
    if words.next().is_some() {
        return None;
    }
    if word == b"-".as_slice() {
        return Some(None);
    }
    Some(Some(read_name(word)?))
}

/// A minute and no further word.
fn minute(mut words: Words<'_>) -> Option<Instant>
    ensures { result ≡ minute_in words.entry }
{
    let word = words.next()?;
    if words.next().is_some() {
        return None;
    }
    read_instant(word)
}

/// The minute after `@`.
pub(crate) fn at(words: Words<'_>) -> Option<Phrase>
    ensures { result ≡ at_minute (minute_in words.entry) }
{
    Some(Phrase::At(minute(words)?))
}

/// The actor after `as`.
pub(crate) fn be(words: Words<'_>) -> Option<Phrase>
    ensures { result ≡ be_actor (actor_in words.entry) }
{
    Some(Phrase::Be(actor(words)?))
}

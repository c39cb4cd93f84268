//! What is asked behind a script, as it is told.
ghost use Rattle.std.specs.Prelude.{◌≡◌, ◌≤◌, ◌++◌, IfOk};
ghost use Rattle.policy_commands.specs.Ends.{seen_end, ending};
ghost use Rattle.gtrbac_tool.specs.Late.{asked_of, asks_of, horizon, answer_word, change_line, TellsAhead, TellsAsked, FollowsRun};

use crate::questions::Question;
use crate::standing::standing_text;
use civil_time::write_civil;
use core_machine::Book;
use forecast::{Change, first_change};
use gt_base::{Cond, Event, Instant, LAST_MINUTE, List, Memory};
use policy_book::Policy;
use policy_commands::End;
use policy_words::NamedEvent;
use std::alloc::Global;

/// What is asked, in numbers of a policy.
#[derive(Clone, Copy)]
pub(crate) enum Inquiry {
    /// When the answer of the condition changes, within so many days.
    Ahead(u32, Cond),
    /// Why the event is in force, or blocked, with its names.
    Standing(NamedEvent, Event),
}

/// The question in numbers of the policy, none where a name is not declared or is no edge.
fn asked_of(p: &Policy, question: Question) -> Option<Inquiry>
    ensures { result ≡ asked_of p.now question }
{
    match question {
        Question::Forecast(days, cond) => Some(Inquiry::Ahead(days, p.cond(&cond)?)),
        Question::Why(event) => Some(Inquiry::Standing(event, p.event(&event)?)),
    }
}

/// The same of what may be asked, none where a name is not declared or is no edge.
pub(crate) fn asks_of(p: &Policy, question: Option<Question>) -> Option<Option<Inquiry>>
    ensures { result ≡ asks_of p.now question }
{
    match question {
        None => Some(None),
        Some(question) => Some(Some(asked_of(p, question)?)),
    }
}

/// So many days after now, or the last instant where that is less.
fn horizon(now: Instant, days: u32) -> Instant
    ensures value { result ≡ horizon now days }
    ensures later { now ≤ result }
{
    let minute = u64::from(now.minute()) + 1_440 * u64::from(days);
    if minute < LAST_MINUTE as u64 {
        Instant::new(minute as u32).unwrap()
    } else {
        Instant::new(LAST_MINUTE).unwrap()
    }
}

/// The answer of the condition where its fluent is on, or off.
fn answer(cond: Cond, on: bool) -> &'static [u8]
    ensures { result.now ≡ answer_word cond on }
{
    if cond.on == on { b"yes" } else { b"no" }
}

/// The line of a change, or of none up to the horizon.
fn change_text(
    alloc: Global,
    cond: Cond,
    upto: Instant,
    change: Option<Change>,
) -> Result<Vec<u8>, Memory>
    ensures { IfOk result (λ text. text.items ≡ change_line cond upto change) }
{
    let mut text = Vec::new(alloc);
    match change {
        Some(change) => {
            text.extend_from_slice(b"change ")?;
            text.extend_from_slice(&write_civil(change.at))?;
            text.extend_from_slice(b" ")?;
            text.extend_from_slice(answer(cond, change.on))?;
        }
        None => {
            text.extend_from_slice(b"no change to ")?;
            text.extend_from_slice(&write_civil(upto))?;
        }
    }
    text.extend_from_slice(b"\n")?;
    Ok(text)
}

/// When the answer of the condition changes, if no request comes any more.
fn ahead_text(alloc: Global, book: &Book, days: u32, cond: Cond) -> Result<Vec<u8>, Memory>
    ensures { IfOk result
        (λ text. TellsAhead book.now.named.policy book.now.birth book.now.entries days cond
        text.items) }
{
    let upto = horizon(book.now(), days);
    let change = first_change(alloc, book, cond.fluent, upto)?;
    change_text(alloc, cond, upto, change)
}

/// What was asked of the book.
fn asked_text(alloc: Global, book: &Book, asked: Inquiry) -> Result<Vec<u8>, Memory>
    ensures { IfOk result
        (λ text. TellsAsked book.now.named.policy asked book.now.birth book.now.entries
        text.items) }
{
    match asked {
        Inquiry::Ahead(days, cond) => ahead_text(alloc, book, days, cond),
        Inquiry::Standing(named, event) => standing_text(alloc, book, named, event),
    }
}

/// An end with status 0 and a text of two parts.
fn joined(alloc: Global, first: &List<u8>, more: &Vec<u8>) -> Result<End, Memory>
    ensures { IfOk result (λ end. seen_end end ≡ ending 0 (first.now.items ++ more.now.items)) }
{
    let mut text = first.as_slice().to_vec(alloc)?;
    text.extend_from_slice(more)?;
    Ok(End {
        status: 0,
        text: List::from(text),
    })
}

/// The end of a run that was played to its end, with what was asked behind its replies.
fn told_behind(alloc: Global, book: &Book, end: &End, asked: Inquiry) -> Result<End, Memory>
    requires { end.now.status ≡ 0 }
    ensures { IfOk result
        (λ told. FollowsRun book.now.named.policy asked book.now.birth book.now.entries
        (seen_end end.now) (seen_end told)) }
{
    let more = asked_text(alloc, book, asked)?;
    joined(alloc, &end.text, &more)
}

/// The end of a run with what was asked behind it where it was played to its end, and else its own.
pub(crate) fn answered(alloc: Global, book: &Book, end: End, asked: Inquiry) -> Result<End, Memory>
    ensures { IfOk result
        (λ told. FollowsRun book.now.named.policy asked book.now.birth book.now.entries
        (seen_end end) (seen_end told)) }
{
    if end.status == 0 {
        told_behind(alloc, book, &end, asked)
    } else {
        Ok(end)
    }
}

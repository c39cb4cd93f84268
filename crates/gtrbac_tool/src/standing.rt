//! Why an event is in force or blocked at the end of a script, as it is told.
ghost use Rattle.std.specs.Prelude.{◌≡◌, ◌++◌, IfOk, OnOk, option_map};
ghost use Rattle.gt_base.specs.Sets.{has};
ghost use Rattle.gtrbac_model.specs.Conflict.{seen as seen_in};
ghost use Rattle.gtrbac_tool.specs.Standing.{raises, first_raising, reason, by_word, standing_line, certificate_line, TellsWhy, closed_at};

use crate::explaining::explained;
use core_machine::{Book, Closed};
use gt_base::{
    Event, Happened, Instant, MAX_PRIO, Memory, Prio, Prioritised, Seen, Status, Trigger,
};
use gt_text::push_number;
use policy_book::Policy;
use policy_lines::push_event;
use policy_words::NamedEvent;
use priority_conflict::{Contest, greatest, seen};
use std::alloc::Global;
use trigger_rules::met_in;
use why_check::Cert;

/// The instant of a set.
fn at_of(closed: &Closed) -> Instant
    ensures { result ≡ closed.now.at }
{
    closed.at
}

/// The base of a set.
fn base_of(closed: &Closed) -> &Happened
    ensures { result.now.set ≡ closed.now.base }
{
    &closed.base
}

/// What happened at an instant.
fn set_of(closed: &Closed) -> &Happened
    ensures { result.now.set ≡ closed.now.set }
{
    &closed.set
}

/// What the trace has at the instant.
fn closed_at(mut trace: &[Closed], t: Instant) -> Option<&Closed>
    ensures { option_map (λ c. c.now) result ≡ closed_at trace.now t }
{
    while let [first, rest @ ..] = trace {
        if at_of(first) == t {
            return Some(first);
        }
        trace = rest;
    }
    None
}

/// Whether the trigger is immediate, has the event as its head and is met in the set.
fn raises(r: &Trigger, x: &Contest, before: &Status, e: &Prioritised) -> bool
    ensures { result ≡ raises x.now (has before.now.set) e.now r.now }
{
    r.delay == 0 && r.head == *e && met_in(r, x, before)
}

/// The number, from 1, of the first trigger that raises the event.
fn first_of(rules: &[Trigger], x: &Contest, before: &Status, e: &Prioritised) -> Option<u64>
    ensures { result ≡ first_raising x.now (has before.now.set) e.now 1 rules.now }
{
    let mut number = 1;
    let mut rest = rules;
    while let [first, more @ ..] = rest {
        if raises(first, x, before, e) {
            return Some(number);
        }
        number += 1;
        rest = more;
    }
    None
}

/// Adds what an event of the set is there by: the base, or else the first trigger that raises it.
fn add_reason(
    text: &mut Vec<u8>,
    rules: &[Trigger],
    base: &Happened,
    before: &Status,
    x: &Contest,
    e: Prioritised,
) -> Result<(), Memory>
    ensures { OnOk result
        (text.new.items
        ≡ text.old.items ++ reason rules.now base.now.set (has before.now.set) x.now e) }
{
    if base.has(e) {
        text.extend_from_slice(b"base")
    } else {
        match first_of(rules, x, before, &e) {
            Some(n) => {
                text.extend_from_slice(b"trigger ")?;
                push_number(text, n)
            }
            None => Ok(()),
        }
    }
}

/// Adds the converse of the event with this priority.
fn add_blocker(text: &mut Vec<u8>, named: &NamedEvent, prio: Option<Prio>) -> Result<(), Memory>
    ensures { OnOk result (text.new.items ≡ text.old.items ++ by_word named.now prio) }
{
    match prio {
        Some(q) => {
            text.extend_from_slice(b" by ")?;
            push_number(text, u64::from(q.get()))?;
            text.extend_from_slice(b":")?;
            let converse = NamedEvent {
                on: !named.on,
                fluent: named.fluent,
            };
            push_event(text, &converse)
        }
        None => Ok(()),
    }
}

/// The event that is asked about, and its names.
#[derive(Clone, Copy)]
struct Subject {
    named: NamedEvent,
    event: Event,
}

/// Adds how the event, of which this is seen in the set of an instant, stands there, with its
/// reason, and with what blocks it.
fn add_standing(
    text: &mut Vec<u8>,
    rules: &[Trigger],
    base: &Happened,
    before: &Status,
    x: &Contest,
    subject: &Subject,
    seen: Seen,
) -> Result<(), Memory>
    ensures { OnOk result
        (text.new.items
        ≡ text.old.items
        ++ standing_line rules.now base.now.set (has before.now.set) x.now
        subject.now.named subject.now.event seen) }
{
    let event = subject.event;
    match seen {
        Seen::Absent => text.extend_from_slice(b"absent\n"),
        Seen::Unblocked(prio) => {
            text.extend_from_slice(b"yes ")?;
            push_number(text, u64::from(prio.get()))?;
            text.extend_from_slice(b" ")?;
            add_reason(text, rules, base, before, x, Prioritised { prio, event })?;
            text.extend_from_slice(b"\n")
        }
        Seen::Blocked(prio) => {
            text.extend_from_slice(b"blocked ")?;
            push_number(text, u64::from(prio.get()))?;
            text.extend_from_slice(b" ")?;
            add_reason(text, rules, base, before, x, Prioritised { prio, event })?;
            add_blocker(
                text,
                &subject.named,
                greatest(x.set(), event.converse(), MAX_PRIO + 1),
            )?;
            text.extend_from_slice(b"\n")
        }
    }
}

/// Adds how the event stands in the set of an instant, over the status before it.
fn add_at(
    alloc: Global,
    text: &mut Vec<u8>,
    policy: &Policy,
    closed: &Closed,
    before: &Status,
    subject: &Subject,
) -> Result<(), Memory>
    ensures { OnOk result
        (text.new.items
        ≡ text.old.items
        ++ standing_line policy.now.policy.triggers closed.now.base
        (has before.now.set) closed.now.set
        subject.now.named subject.now.event (seen_in closed.now.set subject.now.event)) }
{
    let rules = policy.triggers().as_slice();
    let x = Contest::new(alloc, set_of(closed))?;
    let base = base_of(closed);
    let seen = seen(x.set(), subject.event);
    add_standing(text, rules, base, before, &x, subject, seen)
}

/// The line that tells how many instants the certificate lists.
fn certificate_text(alloc: Global, cert: &Cert) -> Result<Vec<u8>, Memory>
    ensures { IfOk result (λ text. text.items ≡ certificate_line cert.now) }
{
    let mut text = Vec::new(alloc);
    text.extend_from_slice(b"certificate ")?;
    push_number(&mut text, cert.len() as u64)?;
    text.extend_from_slice(b"\n")?;
    Ok(text)
}

/// How many instants a certificate of the history lists, and how the event stands at the last
/// instant of the history.
pub(crate) fn standing_text(
    alloc: Global,
    book: &Book,
    named: NamedEvent,
    e: Event,
) -> Result<Vec<u8>, Memory>
    ensures { IfOk result
        (λ text. TellsWhy book.now.named.policy book.now.birth book.now.entries named e
        text.items) }
{
    book.keeps();
    let policy = book.ground().policy();
    let explained = explained(alloc, book)?;
    let mut text = certificate_text(alloc, &explained.cert)?;
    let trace = book.trace().as_slice();
    let now = book.now();
    match closed_at(trace, now) {
        Some(closed) => {
            let subject = Subject { named, event: e };
            add_at(
                alloc,
                &mut text,
                policy,
                closed,
                &explained.before,
                &subject,
            )?;
            Ok(text)
        }
        None => {
            text.extend_from_slice(b"absent\n")?;
            Ok(text)
        }
    }
}

//! Replies, entries and the log.
ghost use Rattle.std.specs.Prelude.{◌≡◌, ◌++◌, codes, decimal, flat_map, IsTrue, OnOk, OnErr, IfOk};
ghost use Rattle.std.specs.List.{list_all};
ghost use Rattle.civil_time.specs.Text.{civil_text};
ghost use Rattle.request_text.specs.Replies.{reply_text, reply_line, actor_text, who_text, entry_text, entry_line, log_text};
ghost use Rattle.request_text.specs.Named.{has_reply, has_actor, has_request, has_entry};
ghost use Rattle.request_text.specs.Walks.{tick_text, asker_text, asked_text};

use crate::asked::write_request;
use crate::replies::{put_reply, put_text};
use crate::sizes::reply_room;
use civil_time::write_civil;
use gt_base::{Actor, Entry, Instant, List, Memory, Reply, Request, Step, Who};
use itoa::Buffer;
use policy_book::Policy;
use std::alloc::Global;

/// Adds a number in decimal; unlike `put_number` it takes the room for it.
fn push_number(into: &mut List<u8>, n: u32) -> Result<(), Memory>
    ensures { OnOk result (into.new.items ≡ into.old.items ++ decimal n) }
{
    let mut buffer = Buffer::new();
    into.push_all(buffer.format(n).as_bytes())
}

/// Adds the text of a reply, without a line feed.
fn push_text(into: &mut List<u8>, p: &Policy, reply: &Reply) -> Result<(), Memory>
    requires { IsTrue (has_reply p.now.policy reply.now) }
    ensures { OnOk result (into.new.items ≡ into.old.items ++ reply_text p.now reply.now) }
{
    into.reserve(reply_room(p, reply)?)?;
    put_text(into, p, reply);
    Ok(())
}

/// Adds the line of a reply, with its line feed. For want of memory it may refuse, and then the
/// text is as it was.
pub fn push_reply(into: &mut List<u8>, p: &Policy, r: &Reply) -> Result<(), Memory>
    requires { IsTrue (has_reply p.now.policy r.now) }
    ensures added { OnOk result (into.new.items ≡ into.old.items ++ reply_line p.now r.now) }
    ensures kept { OnErr result (into.new.items ≡ into.old.items) }
{
    into.reserve(reply_room(p, r)?)?;
    put_reply(p, r, into);
    Ok(())
}

/// The line of a reply, with its line feed.
pub fn write_reply(alloc: Global, p: &Policy, r: &Reply) -> Result<List<u8>, Memory>
    requires { IsTrue (has_reply p.now.policy r.now) }
    ensures { IfOk result (λ text. text.items ≡ reply_line p.now r.now) }
{
    let mut text = List::new(alloc);
    push_reply(&mut text, p, r)?;
    Ok(text)
}

/// Adds `W.C`: the worker from 0, its connection from 1.
fn push_who(into: &mut List<u8>, who: Who) -> Result<(), Memory>
    ensures { OnOk result (into.new.items ≡ into.old.items ++ who_text who) }
{
    push_number(into, who.worker)?;
    into.push_all(b".")?;
    push_number(into, who.conn)
}

/// Adds who asked; the operator and nobody are both told as `-`.
fn push_actor(into: &mut List<u8>, p: &Policy, actor: Actor) -> Result<(), Memory>
    requires { IsTrue (has_actor p.now.policy actor) }
    ensures { OnOk result (into.new.items ≡ into.old.items ++ actor_text p.now actor) }
{
    p.keeps();
    match actor {
        Actor::Operator | Actor::Nobody => into.push_all(b"-"),
        Actor::User(u) => into.push_all(p.user_name(u).bytes()),
    }
}

/// Adds a piece and an instant.
fn push_instant(into: &mut List<u8>, piece: &[u8], t: Instant) -> Result<(), Memory>
    ensures { OnOk result (into.new.items ≡ into.old.items ++ (piece.now ++ civil_text t)) }
{
    into.push_all(piece)?;
    into.push_all(&write_civil(t))
}

/// Adds a tick: where it stopped, then its bound.
fn push_tick(into: &mut List<u8>, who: Who, to: Instant, upto: Instant) -> Result<(), Memory>
    ensures { OnOk result (into.new.items ≡ into.old.items ++ tick_text who to upto) }
{
    into.push_all(b"tick ")?;
    push_who(into, who)?;
    push_instant(into, b" to ", to)?;
    push_instant(into, b" bound ", upto)
}

/// Adds who asks, up to what is asked.
fn push_asker(into: &mut List<u8>, p: &Policy, who: Who, actor: Actor) -> Result<(), Memory>
    requires { IsTrue (has_actor p.now.policy actor) }
    ensures { OnOk result (into.new.items ≡ into.old.items ++ asker_text p.now who actor) }
{
    into.push_all(b"ask ")?;
    push_who(into, who)?;
    into.push_all(b" ")?;
    push_actor(into, p, actor)?;
    into.push_all(b" ")
}

/// Adds who asked what, up to the reply.
fn push_asked(
    alloc: Global,
    into: &mut List<u8>,
    p: &Policy,
    who: Who,
    actor: Actor,
    request: Request,
) -> Result<(), Memory>
    requires actor { IsTrue (has_actor p.now.policy actor) }
    requires request { IsTrue (has_request p.now.policy request) }
    ensures { OnOk result (into.new.items ≡ into.old.items ++ asked_text p.now who actor request) }
{
    push_asker(into, p, who, actor)?;
    let request = write_request(alloc, p, request)?;
    into.push_all(request.as_slice())?;
    into.push_all(b" = ")
}

/// Adds the text of an entry, without a line feed.
fn push_entry(alloc: Global, into: &mut List<u8>, p: &Policy, e: &Entry) -> Result<(), Memory>
    requires { IsTrue (has_entry p.now.policy e.now) }
    ensures { OnOk result (into.new.items ≡ into.old.items ++ entry_text p.now e.now) }
{
    match &e.what {
        Step::Tick { upto, to } => push_tick(into, e.who, *to, *upto),
        Step::Ask {
            actor,
            request,
            reply,
        } => {
            push_asked(alloc, into, p, e.who, *actor, *request)?;
            push_text(into, p, reply)
        }
    }
}

/// The text of an entry, without a line feed.
pub fn write_entry(alloc: Global, p: &Policy, e: &Entry) -> Result<List<u8>, Memory>
    requires { IsTrue (has_entry p.now.policy e.now) }
    ensures { IfOk result (λ text. text.items ≡ entry_text p.now e.now) }
{
    let mut text = List::new(alloc);
    push_entry(alloc, &mut text, p, e)?;
    Ok(text)
}

/// Adds the line of an entry.
fn push_line(alloc: Global, into: &mut List<u8>, p: &Policy, e: &Entry) -> Result<(), Memory>
    requires { IsTrue (has_entry p.now.policy e.now) }
    ensures { OnOk result (into.new.items ≡ into.old.items ++ entry_line p.now e.now) }
{
    push_entry(alloc, into, p, e)?;
    into.push_all(b"\n")
}

/// Adds the lines of entries, each with its line feed.
fn push_entries(
    alloc: Global,
    into: &mut List<u8>,
    p: &Policy,
    entries: &[Entry],
) -> Result<(), Memory>
    requires { IsTrue (list_all (has_entry p.now.policy) entries.now) }
    ensures { OnOk result (into.new.items ≡ into.old.items
        ++ flat_map (entry_line p.now) entries.now) }
{
    for e in entries {
        push_line(alloc, into, p, e)?;
    }
    Ok(())
}

/// Adds the line of a birth.
fn push_birth(into: &mut List<u8>, birth: Instant) -> Result<(), Memory>
    ensures { OnOk result (into.new.items ≡ into.old.items
        ++ (codes "born " ++ civil_text birth ++ codes "\n")) }
{
    push_instant(into, b"born ", birth)?;
    into.push_all(b"\n")
}

/// The log of a history: the line of its birth, then a line for each entry.
pub fn write_log(
    alloc: Global,
    p: &Policy,
    birth: Instant,
    h: &List<Entry>,
) -> Result<List<u8>, Memory>
    requires { IsTrue (list_all (has_entry p.now.policy) h.now.items) }
    ensures { IfOk result (λ text. text.items ≡ log_text p.now birth h.now.items) }
{
    let mut text = List::new(alloc);
    push_birth(&mut text, birth)?;
    push_entries(alloc, &mut text, p, h.as_slice())?;
    Ok(text)
}

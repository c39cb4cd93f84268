//! The log, put into pages whose room was taken before.
ghost use Rattle.std.specs.Prelude.{◌≡◌, ◌≤◌, ◌<◌, ◌+◌, ◌++◌, ◌∷◌, ◌⊎◌, [], length, codes, decimal, flat_map, IsTrue};
ghost use Rattle.civil_time.specs.Text.{civil_text};
ghost use Rattle.gtrbac_model.specs.WholePolicy.{is_fluent};
ghost use Rattle.policy_words.specs.Wording.{event_verb, cond_verb, sort_of, fluent_names, event_words, cond_words, head_words, delay_words};
ghost use Rattle.policy_lines.specs.Spaces.{later, led};
ghost use Rattle.request_text.specs.Fitting.{IsSmallStep, FitsPage, FitPages};
ghost use Rattle.request_text.specs.Named.{has_actor, has_request, has_entry};
ghost use Rattle.request_text.specs.Phrases.{request_words};
ghost use Rattle.request_text.specs.Replies.{actor_text, request_named, request_text, who_text, entry_text, entry_line};
ghost use Rattle.request_text.specs.Rooms.{Puts};
ghost use Rattle.request_text.specs.Tellable.{IsSmallWho};
ghost use Rattle.request_text.specs.Walks.{tick_text, asker_text, asked_text};

use crate::replies::{put_instant, put_number, put_text};
use crate::rooms::{Page, Room};
use crate::sizes::{small, small_number};
use gt_base::{
    Actor, Cond, Entry, Event, Instant, Name, Prioritised, Request, SessionId, Step, Who,
};
use policy_book::{
    NamedCond, NamedEvent, NamedFluent, NamedHead, Policy, named_cond, named_event, named_head,
};

/// The most bytes of an entry's line, its line feed included.
pub const LONGEST_ENTRY: usize = 33_584;

/// Adds `W.C`: the worker from 0, its connection from 1.
fn put_who(into: &mut Page, who: Who)
    requires { length (who_text who) ≤ into.old.spare }
    ensures { Puts into.old into.new (who_text who) }
{
    put_number(into, b"", who.worker);
    put_number(into, b".", who.conn);
}

/// Adds who asked; the operator and nobody are both told as `-`.
fn put_actor(into: &mut Page, p: &Policy, actor: Actor)
    requires named { IsTrue (has_actor p.now.policy actor) }
    requires room { length (actor_text p.now actor) ≤ into.old.spare }
    ensures { Puts into.old into.new (actor_text p.now actor) }
{
    p.keeps();
    match actor {
        Actor::Operator | Actor::Nobody => into.put(b"-"),
        Actor::User(u) => into.put(p.user_name(u).bytes()),
    }
}

/// Adds a tick: where it stopped, then its bound.
fn put_tick(into: &mut Page, who: Who, to: Instant, upto: Instant)
    requires { length (tick_text who to upto) ≤ into.old.spare }
    ensures { Puts into.old into.new (tick_text who to upto) }
{
    into.put(b"tick ");
    put_who(into, who);
    put_instant(into, b" to ", to);
    put_instant(into, b" bound ", upto);
}

/// Adds a name with a space before it.
fn put_name(into: &mut Page, name: &Name)
    requires { length (later (name.now ∷ [])) ≤ into.old.spare }
    ensures { Puts into.old into.new (later (name.now ∷ [])) }
{
    into.put(b" ");
    into.put(name.bytes());
}

/// Adds two names, each with a space before it.
fn put_pair(into: &mut Page, first: &Name, second: &Name)
    requires { length (later (first.now ∷ second.now ∷ [])) ≤ into.old.spare }
    ensures { Puts into.old into.new (later (first.now ∷ second.now ∷ [])) }
{
    put_name(into, first);
    put_name(into, second);
}

/// Adds the names of a fluent, each with a space before it.
fn put_names(into: &mut Page, fluent: &NamedFluent)
    requires { length (later (fluent_names fluent.now)) ≤ into.old.spare }
    ensures { Puts into.old into.new (later (fluent_names fluent.now)) }
{
    match fluent {
        NamedFluent::Enabled(role) => put_name(into, role),
        NamedFluent::Assigned(user, role) => put_pair(into, user, role),
        NamedFluent::Granted(perm, role) => put_pair(into, perm, role),
        NamedFluent::Limit(limit) => put_name(into, limit),
        NamedFluent::Edge(senior, junior) => put_pair(into, senior, junior),
    }
}

/// The verb of an event.
fn verb_of_event(on: bool, fluent: &NamedFluent) -> &'static [u8]
    ensures { result.now ≡ event_verb on (sort_of fluent.now) }
{
    match (on, fluent) {
        (true, NamedFluent::Enabled(_)) => b"enable",
        (false, NamedFluent::Enabled(_)) => b"disable",
        (true, NamedFluent::Assigned(_, _)) => b"assign",
        (false, NamedFluent::Assigned(_, _)) => b"deassign",
        (true, NamedFluent::Granted(_, _)) => b"grant",
        (false, NamedFluent::Granted(_, _)) => b"revoke",
        (true, NamedFluent::Limit(_)) => b"arm",
        (false, NamedFluent::Limit(_)) => b"disarm",
        (true, NamedFluent::Edge(_, _)) => b"link",
        (false, NamedFluent::Edge(_, _)) => b"unlink",
    }
}

/// The verb of a condition.
fn verb_of_cond(on: bool, fluent: &NamedFluent) -> &'static [u8]
    ensures { result.now ≡ cond_verb on (sort_of fluent.now) }
{
    match (on, fluent) {
        (true, NamedFluent::Enabled(_)) => b"enabled",
        (false, NamedFluent::Enabled(_)) => b"disabled",
        (true, NamedFluent::Assigned(_, _)) => b"assigned",
        (false, NamedFluent::Assigned(_, _)) => b"deassigned",
        (true, NamedFluent::Granted(_, _)) => b"granted",
        (false, NamedFluent::Granted(_, _)) => b"revoked",
        (true, NamedFluent::Limit(_)) => b"armed",
        (false, NamedFluent::Limit(_)) => b"disarmed",
        (true, NamedFluent::Edge(_, _)) => b"linked",
        (false, NamedFluent::Edge(_, _)) => b"unlinked",
    }
}

/// Adds an event, each word with a space before it.
fn put_event(into: &mut Page, event: &NamedEvent)
    requires { length (later (event_words event.now)) ≤ into.old.spare }
    ensures { Puts into.old into.new (later (event_words event.now)) }
{
    into.put(b" ");
    into.put(verb_of_event(event.on, &event.fluent));
    put_names(into, &event.fluent);
}

/// Adds a condition, each word with a space before it.
fn put_cond(into: &mut Page, cond: &NamedCond)
    requires { length (later (cond_words cond.now)) ≤ into.old.spare }
    ensures { Puts into.old into.new (later (cond_words cond.now)) }
{
    into.put(b" ");
    into.put(verb_of_cond(cond.on, &cond.fluent));
    put_names(into, &cond.fluent);
}

/// Adds a prioritised event, each word with a space before it.
fn put_head(into: &mut Page, head: &NamedHead)
    requires { length (later (head_words head.now)) ≤ into.old.spare }
    ensures { Puts into.old into.new (later (head_words head.now)) }
{
    put_number(into, b" ", u32::from(head.prio.get()));
    into.put(b":");
    into.put(verb_of_event(head.event.on, &head.event.fluent));
    put_names(into, &head.event.fluent);
}

/// Adds `after` and a delay, each with a space before it, nothing for 0.
fn put_delay(into: &mut Page, delay: u32)
    requires { length (later (delay_words delay)) ≤ into.old.spare }
    ensures { Puts into.old into.new (later (delay_words delay)) }
{
    if delay > 0 {
        put_number(into, b" after ", delay);
    }
}

/// Adds a session with a space before it.
fn put_session(into: &mut Page, session: SessionId)
    requires { length (later (decimal session.0 ∷ [])) ≤ into.old.spare }
    ensures { Puts into.old into.new (later (decimal session.0 ∷ [])) }
{
    put_number(into, b" ", session.0);
}

/// Adds a verb, a session and a name.
fn put_use(into: &mut Page, verb: &[u8], session: SessionId, name: &Name)
    requires { length (led (verb.now ∷ decimal session.0 ∷ name.now ∷ [])) ≤ into.old.spare }
    ensures { Puts into.old into.new (led (verb.now ∷ decimal session.0 ∷ name.now ∷ [])) }
{
    into.put(verb);
    put_session(into, session);
    put_name(into, name);
}

/// Adds the words of the question whether a condition holds.
fn put_status(into: &mut Page, p: &Policy, c: Cond)
    requires named { IsTrue (is_fluent p.now.policy c.fluent) }
    requires room { length (led (request_words (request_named p.now (Request.Status c))))
        ≤ into.old.spare }
    ensures { Puts into.old into.new (led (request_words (request_named p.now
        (Request.Status c)))) }
{
    into.put(b"status");
    put_cond(into, &named_cond(p, c));
}

/// Adds the words of the question what an event was.
fn put_seen(into: &mut Page, p: &Policy, e: Event)
    requires named { IsTrue (is_fluent p.now.policy e.fluent) }
    requires room { length (led (request_words (request_named p.now (Request.Seen e))))
        ≤ into.old.spare }
    ensures { Puts into.old into.new (led (request_words (request_named p.now (Request.Seen e)))) }
{
    into.put(b"event");
    put_event(into, &named_event(p, e));
}

/// Adds the words of a request to raise an event.
fn put_raise(into: &mut Page, p: &Policy, head: Prioritised, delay: u32)
    requires named { IsTrue (is_fluent p.now.policy head.event.fluent) }
    requires room { length (led (request_words (request_named p.now (Request.Raise head delay))))
        ≤ into.old.spare }
    ensures { Puts into.old into.new (led (request_words (request_named p.now
        (Request.Raise head delay)))) }
{
    into.put(b"request");
    put_head(into, &named_head(p, head));
    put_delay(into, delay);
}

/// Adds the words of a request, with one space between two of them.
fn put_words(into: &mut Page, p: &Policy, request: Request)
    requires named { IsTrue (has_request p.now.policy request) }
    requires room { length (led (request_words (request_named p.now request))) ≤ into.old.spare }
    ensures { Puts into.old into.new (led (request_words (request_named p.now request))) }
{
    p.keeps();
    match request {
        Request::Now => into.put(b"now"),
        Request::Status(c) => put_status(into, p, c),
        Request::Seen(e) => put_seen(into, p, e),
        Request::Raise { head, delay } => put_raise(into, p, head, delay),
        Request::OpenSession => into.put(b"open"),
        Request::CloseSession(s) => {
            into.put(b"close");
            put_session(into, s);
        }
        Request::Activate(s, r) => put_use(into, b"activate", s, &p.role_name(r)),
        Request::Deactivate(s, r) => put_use(into, b"deactivate", s, &p.role_name(r)),
        Request::Active(s, r) => put_use(into, b"active", s, &p.role_name(r)),
        Request::Check(s, q) => put_use(into, b"check", s, &p.perm_name(q)),
    }
}

/// Adds the line of a request, without its line feed.
fn put_request(into: &mut Page, p: &Policy, request: Request)
    requires named { IsTrue (has_request p.now.policy request) }
    requires room { length (request_text p.now request) ≤ into.old.spare }
    ensures { Puts into.old into.new (request_text p.now request) }
{
    put_words(into, p, request);
}

/// Adds who asks, up to what is asked.
fn put_asker(into: &mut Page, p: &Policy, who: Who, actor: Actor)
    requires actor { IsTrue (has_actor p.now.policy actor) }
    requires room { length (asker_text p.now who actor) ≤ into.old.spare }
    ensures { Puts into.old into.new (asker_text p.now who actor) }
{
    into.put(b"ask ");
    put_who(into, who);
    into.put(b" ");
    put_actor(into, p, actor);
    into.put(b" ");
}

/// Adds who asked what, up to the reply.
fn put_asked(into: &mut Page, p: &Policy, who: Who, actor: Actor, request: Request)
    requires actor { IsTrue (has_actor p.now.policy actor) }
    requires request { IsTrue (has_request p.now.policy request) }
    requires room { length (asked_text p.now who actor request) ≤ into.old.spare }
    ensures { Puts into.old into.new (asked_text p.now who actor request) }
{
    put_asker(into, p, who, actor);
    put_request(into, p, request);
    into.put(b" = ");
}

/// Adds the text of an entry, without its line feed.
fn put_entry(into: &mut Page, p: &Policy, e: &Entry)
    requires named { IsTrue (has_entry p.now.policy e.now) }
    requires room { length (entry_text p.now e.now) ≤ into.old.spare }
    ensures { Puts into.old into.new (entry_text p.now e.now) }
{
    match &e.what {
        Step::Tick { upto, to } => put_tick(into, e.who, *to, *upto),
        Step::Ask {
            actor,
            request,
            reply,
        } => {
            put_asked(into, p, e.who, *actor, *request);
            put_text(into, p, reply);
        }
    }
}

/// What a worker's and a connection's number keep, by which an entry's line has a longest length.
fn small_who(who: Who)
    ensures { IsSmallWho who }
{
    small_number(who.worker);
    small_number(who.conn);
}

/// What the numbers in a step keep, as far as its text depends on them.
fn small_step(step: &Step)
    ensures { IsSmallStep step.now }
{
    match step {
        Step::Tick { .. } => {}
        Step::Ask { reply, .. } => small(reply),
    }
}

/// The line of an entry has at most `LONGEST_ENTRY` bytes.
fn entry_fits(p: &Policy, e: &Entry)
    requires { FitsPage p.now.policy e.now }
    ensures { length (entry_line p.now e.now) ≤ LONGEST_ENTRY }
{
    p.keeps();
    small_who(e.who);
    small_step(&e.what);
}

/// Adds the line of an entry.
fn put_line(into: &mut Page, p: &Policy, e: &Entry)
    requires fits { FitsPage p.now.policy e.now }
    requires room { LONGEST_ENTRY ≤ into.old.spare }
    ensures { Puts into.old into.new (entry_line p.now e.now) }
{
    entry_fits(p, e);
    put_entry(into, p, e);
    into.put(b"\n");
}

/// Adds the line of a birth.
pub fn put_birth(into: &mut Page, birth: Instant)
    requires { 22 ≤ into.old.spare }
    ensures { Puts into.old into.new (codes "born " ++ civil_text birth ++ codes "\n") }
{
    put_instant(into, b"born ", birth);
    into.put(b"\n");
}

/// Adds the lines of the first entries, while a further one surely fits, and answers the entries
/// that are left: none, or fewer. It takes no memory.
pub fn put_entries<'a>(into: &mut Page, p: &Policy, entries: &'a [Entry]) -> &'a [Entry]
    requires fit { FitPages p.now.policy entries.now }
    requires room { LONGEST_ENTRY ≤ into.old.spare }
    ensures text { into.old.items ++ flat_map (entry_line p.now) entries.now
        ≡ into.new.items ++ flat_map (entry_line p.now) result.now }
    ensures fit { FitPages p.now.policy result.now }
    ensures fewer { (result.now ≡ []) ⊎ (length result.now < length entries.now) }
    ensures kept { into.old.spare + length into.old.items ≤ into.new.spare + length into.new.items }
{
    let mut rest = entries;
    while let [e, more @ ..] = rest {
        if !into.fits(LONGEST_ENTRY) {
            return rest;
        }
        put_line(into, p, e);
        rest = more;
    }
    rest
}

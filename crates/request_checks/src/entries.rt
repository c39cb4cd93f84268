//! The text of each entry, and the log.
use crate::building::{after_eight, event, head, prio, small, walk};
use crate::named::{has_entries, has_entry};
use gt_base::{
    Actor, Cond, Decision, Entry, Fluent, List, Memory, PermId, Refusal, Reply, Request, RoleId,
    Seen, SessionId, Step, UserId, Who,
};
use policy_book::Policy;
use request_text::{write_entry, write_log};
use std::alloc::{AllocError, Global};
use std::test::Fail;

const WHO: Who = Who {
    worker: 3,
    conn: 21,
};

const USER: Actor = Actor::User(UserId(1));

/// The text of an entry.
fn text(alloc: Global, p: &Policy, entry: &Entry) -> Result<List<u8>, Memory> {
    if !has_entry(p, entry) {
        return Err(AllocError);
    }
    write_entry(alloc, p, entry)
}

/// An entry of a request.
fn ask(actor: Actor, request: Request, reply: Reply) -> Entry {
    Entry {
        who: WHO,
        what: Step::Ask {
            actor,
            request,
            reply,
        },
    }
}

/// An entry of a tick that stops so many minutes after eight.
fn tick(to: u32, upto: u32) -> Result<Entry, Memory> {
    Ok(Entry {
        who: WHO,
        what: Step::Tick {
            upto: after_eight(upto)?,
            to: after_eight(to)?,
        },
    })
}

#[test]
fn a_tick_with_its_bound(rt: HostRuntime) -> Result<(), Fail> {
    let alloc = rt.alloc();
    let p = &small(alloc)?;
    let wanted = b"tick 3.21 to 2026-01-05T08:01 bound 2026-01-05T09:00";
    assert!(rt; text(alloc, p, &tick(1, 60)?)?.as_slice() == wanted.as_slice());
    Ok(())
}

/// Whether the text of the entry is this.
fn is_text(
    alloc: Global,
    p: &Policy,
    actor: Actor,
    request: Request,
    reply: Reply,
    wanted: &[u8],
) -> Result<bool, Memory> {
    let entry = ask(actor, request, reply);
    Ok(text(alloc, p, &entry)?.as_slice() == wanted)
}

#[test]
fn the_actor_of_a_request(rt: HostRuntime) -> Result<(), Fail> {
    let alloc = rt.alloc();
    let p = &small(alloc)?;
    let now = Request::Now;
    let named = is_text(
        alloc,
        p,
        USER,
        now,
        Reply::Truth(true),
        b"ask 3.21 v now = yes",
    )?;
    assert!(rt; named);
    for actor in [Actor::Operator, Actor::Nobody] {
        let dash = is_text(alloc, p, actor, now, Reply::Done, b"ask 3.21 - now = ok")?;
        assert!(rt; dash);
    }
    Ok(())
}

/// Whether the text of the user's request, which is refused for want of a session, ends with this.
fn is_asked(alloc: Global, p: &Policy, request: Request, wanted: &[u8]) -> Result<bool, Memory> {
    let entry = ask(USER, request, Reply::Refused(Refusal::NoSession));
    let text = text(alloc, p, &entry)?;
    let Some(rest) = text.as_slice().strip_prefix(b"ask 3.21 v ") else {
        return Ok(false);
    };
    Ok(rest.strip_suffix(b" = refused no-session") == Some(wanted))
}

#[test]
fn requests_of_sessions(rt: HostRuntime) -> Result<(), Fail> {
    let alloc = rt.alloc();
    let p = &small(alloc)?;
    let s = SessionId(4_294_967_295);
    let rows: [(Request, &[u8]); 7] = [
        (Request::Now, b"now"),
        (Request::OpenSession, b"open"),
        (Request::CloseSession(SessionId(0)), b"close 0"),
        (Request::Activate(s, RoleId(2)), b"activate 4294967295 c"),
        (
            Request::Deactivate(s, RoleId(0)),
            b"deactivate 4294967295 a",
        ),
        (Request::Active(s, RoleId(1)), b"active 4294967295 b"),
        (Request::Check(s, PermId(1)), b"check 4294967295 q"),
    ];
    for (request, wanted) in rows {
        assert!(rt; is_asked(alloc, p, request, wanted)?);
    }
    Ok(())
}

#[test]
fn requests_of_fluents(rt: HostRuntime) -> Result<(), Fail> {
    let alloc = rt.alloc();
    let p = &small(alloc)?;
    let assigned = Fluent::Assigned(UserId(0), RoleId(2));
    let off = Cond {
        on: false,
        fluent: assigned,
    };
    let link = event(true, Fluent::Edge(1));
    let head = head(100, event(false, assigned))?;
    let delay = 52_595_999;
    let late = b"request 100:deassign u c after 52595999";
    let soon = Request::Raise { head, delay: 0 };
    assert!(rt; is_asked(alloc, p, Request::Status(off), b"status deassigned u c")?);
    assert!(rt; is_asked(alloc, p, Request::Seen(link), b"event link b c")?);
    assert!(rt; is_asked(alloc, p, Request::Raise { head, delay }, late)?);
    assert!(rt; is_asked(alloc, p, soon, b"request 100:deassign u c")?);
    Ok(())
}

/// A tick, a request that nobody makes, and three of a user.
fn history(alloc: Global) -> Result<List<Entry>, Memory> {
    let check = Request::Check(SessionId(1), PermId(0));
    let seen = Request::Seen(event(true, Fluent::Enabled(RoleId(0))));
    let walk = walk(alloc, 0, &[0])?;
    let mut entries = List::new(alloc);
    entries.reserve(5)?;
    entries.push(tick(5, 5)?);
    entries.push(ask(Actor::Nobody, Request::Now, Reply::Refused(Refusal::NoUser)));
    entries.push(ask(USER, Request::OpenSession, Reply::Session(SessionId(1))));
    entries.push(ask(USER, seen, Reply::Event(Seen::Blocked(prio(7)?))));
    entries.push(ask(USER, check, Reply::Decided(Decision::Permit { walk })));
    Ok(entries)
}

const LOG: &[u8] = b"born 2026-01-05T08:00
tick 3.21 to 2026-01-05T08:05 bound 2026-01-05T08:05
ask 3.21 - now = refused no-user
ask 3.21 v open = session 1
ask 3.21 v event enable a = blocked 7
ask 3.21 v check 1 p = permit by a>b
";

#[test]
fn a_log(rt: HostRuntime) -> Result<(), Fail> {
    let alloc = rt.alloc();
    let p = &small(alloc)?;
    let entries = history(alloc)?;
    if has_entries(p, entries.as_slice()) {
        let log = write_log(alloc, p, after_eight(0)?, &entries)?;
        assert!(rt; log.as_slice() == LOG);
    } else {
        assert!(rt; false);
    }
    let none = write_log(alloc, p, after_eight(0)?, &List::new(alloc))?;
    assert!(rt; none.as_slice() == b"born 2026-01-05T08:00\n".as_slice());
    Ok(())
}

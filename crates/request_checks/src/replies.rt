//! The text of each reply.
use crate::building::{after_eight, prio, small, walk};
use crate::named::has_reply;
use gt_base::{Decision, List, Memory, Refusal, Reply, Seen, SessionId, Walk};
use policy_book::Policy;
use request_text::{put_reply, write_reply};
use std::alloc::Global;
use std::test::Fail;

/// Whether the reply's line, its line feed included, is this, written both ways.
pub(crate) fn is_line(
    alloc: Global,
    p: &Policy,
    reply: &Reply,
    wanted: &[u8],
) -> Result<bool, Memory> {
    if !has_reply(p, reply) {
        return Ok(false);
    }
    let written = write_reply(alloc, p, reply)?;
    let mut into = List::new(alloc);
    into.reserve(written.len())?;
    put_reply(p, reply, &mut into);
    Ok(written.as_slice() == wanted && into.as_slice() == wanted)
}

/// Whether the line of the reply is this.
fn is_plain(alloc: Global, p: &Policy, reply: Reply, wanted: &[u8]) -> Result<bool, Memory> {
    is_line(alloc, p, &reply, wanted)
}

#[test]
fn plain_replies(rt: HostRuntime) -> Result<(), Fail> {
    let alloc = rt.alloc();
    let p = &small(alloc)?;
    let now = after_eight(0)?;
    let due = after_eight(1)?;
    let last = SessionId(4_294_967_295);
    assert!(rt; is_plain(alloc, p, Reply::Now(now), b"now 2026-01-05T08:00\n")?);
    assert!(rt; is_plain(alloc, p, Reply::Queued(due), b"queued 2026-01-05T08:01\n")?);
    assert!(rt; is_plain(alloc, p, Reply::Session(last), b"session 4294967295\n")?);
    assert!(rt; is_plain(alloc, p, Reply::Truth(true), b"yes\n")?);
    assert!(rt; is_plain(alloc, p, Reply::Truth(false), b"no\n")?);
    assert!(rt; is_plain(alloc, p, Reply::Done, b"ok\n")?);
    Ok(())
}

#[test]
fn what_was_seen(rt: HostRuntime) -> Result<(), Fail> {
    let alloc = rt.alloc();
    let p = &small(alloc)?;
    let most = Seen::Unblocked(prio(100)?);
    let least = Seen::Blocked(prio(0)?);
    assert!(rt; is_plain(alloc, p, Reply::Event(most), b"yes 100\n")?);
    assert!(rt; is_plain(alloc, p, Reply::Event(least), b"blocked 0\n")?);
    assert!(rt; is_plain(alloc, p, Reply::Event(Seen::Absent), b"no\n")?);
    Ok(())
}

/// Whether the line of the permit or of the activation by the walk is this.
fn is_by(
    alloc: Global,
    p: &Policy,
    walk: Walk,
    permit: bool,
    wanted: &[u8],
) -> Result<bool, Memory> {
    if permit {
        let reply = Reply::Decided(Decision::Permit { walk });
        is_line(alloc, p, &reply, wanted)
    } else {
        is_line(alloc, p, &Reply::Active(walk), wanted)
    }
}

#[test]
fn walks(rt: HostRuntime) -> Result<(), Fail> {
    let alloc = rt.alloc();
    let p = &small(alloc)?;
    assert!(rt; is_by(alloc, p, walk(alloc, 2, &[])?, false, b"ok by c\n")?);
    assert!(rt; is_by(alloc, p, walk(alloc, 0, &[0, 1])?, false, b"ok by a>b>c\n")?);
    assert!(rt; is_by(alloc, p, walk(alloc, 1, &[1])?, true, b"permit by b>c\n")?);
    Ok(())
}

/// Whether the line of the decision is this.
fn is_decided(
    alloc: Global,
    p: &Policy,
    decision: Decision,
    wanted: &[u8],
) -> Result<bool, Memory> {
    is_line(alloc, p, &Reply::Decided(decision), wanted)
}

#[test]
fn denials(rt: HostRuntime) -> Result<(), Fail> {
    let alloc = rt.alloc();
    let p = &small(alloc)?;
    assert!(rt; is_decided(alloc, p, Decision::Shut { edge: 0 }, b"deny shut a>b\n")?);
    assert!(rt; is_decided(alloc, p, Decision::NoActive, b"deny no-active\n")?);
    assert!(rt; is_decided(alloc, p, Decision::NoGrant, b"deny no-grant\n")?);
    Ok(())
}

/// Whether the line of a refusal is this.
fn is_refused(alloc: Global, p: &Policy, refusal: Refusal, wanted: &[u8]) -> Result<bool, Memory> {
    is_plain(alloc, p, Reply::Refused(refusal), wanted)
}

#[test]
fn refusals(rt: HostRuntime) -> Result<(), Fail> {
    let alloc = rt.alloc();
    let p = &small(alloc)?;
    let rows: [(Refusal, &[u8]); 13] = [
        (Refusal::NoUser, b"refused no-user\n"),
        (Refusal::NotAdmin, b"refused not-admin\n"),
        (
            Refusal::Beyond { due: 52_596_000 },
            b"refused beyond 52596000\n",
        ),
        (Refusal::SessionsFull, b"refused sessions-full\n"),
        (Refusal::NoSession, b"refused no-session\n"),
        (Refusal::NotYours, b"refused not-yours\n"),
        (Refusal::NotActive, b"refused not-active\n"),
        (Refusal::Already, b"refused already\n"),
        (Refusal::Disabled, b"refused disabled\n"),
        (Refusal::NotAssigned, b"refused not-assigned\n"),
        (Refusal::RoleFull { n: 1 }, b"refused role-full 1\n"),
        (
            Refusal::UserFull { n: 10_000 },
            b"refused user-full 10000\n",
        ),
        (
            Refusal::DaySpent { minutes: 1_440 },
            b"refused day-spent 1440\n",
        ),
    ];
    for (refusal, wanted) in rows {
        assert!(rt; is_refused(alloc, p, refusal, wanted)?);
    }
    Ok(())
}

//! What lines say, in a script and on a connection.
use crate::building::{after_eight, event, head, small};
use gt_base::{Actor, Cond, Fluent, LimitId, Memory, PermId, Request, RoleId, SessionId, UserId};
use policy_book::Policy;
use request_text::{Line, LineFault, read_line};
use std::test::Fail;

/// What the line says in a script.
pub(crate) fn in_script(p: &Policy, line: &[u8]) -> Result<Line, LineFault> {
    read_line(p, Actor::Operator, true, line)
}

/// What the line says on a connection.
pub(crate) fn on_connection(p: &Policy, line: &[u8]) -> Result<Line, LineFault> {
    read_line(p, Actor::Nobody, false, line)
}

/// The fault of the line in a script, none where it says something.
pub(crate) fn script_fault(p: &Policy, line: &[u8]) -> Option<LineFault> {
    match in_script(p, line) {
        Ok(_) => None,
        Err(fault) => Some(fault),
    }
}

/// The same on a connection.
pub(crate) fn connection_fault(p: &Policy, line: &[u8]) -> Option<LineFault> {
    match on_connection(p, line) {
        Ok(_) => None,
        Err(fault) => Some(fault),
    }
}

/// Whether the line asks this, in a script and on a connection.
fn asks(p: &Policy, line: &[u8], wanted: Request) -> bool {
    let wanted = Ok(Line::Ask(wanted));
    in_script(p, line) == wanted && on_connection(p, line) == wanted
}

#[test]
fn lines_that_say_nothing(rt: HostRuntime) -> Result<(), Fail> {
    let p = &small(rt.alloc())?;
    let lines: [&[u8]; 7] = [
        b"",
        b"\r",
        b" \t",
        b"#",
        b"#as u",
        b" \t# now",
        b"#\x00\xff",
    ];
    for line in lines {
        assert!(rt; in_script(p, line) == Ok(Line::Silent));
        assert!(rt; on_connection(p, line) == Ok(Line::Silent));
    }
    Ok(())
}

#[test]
fn minutes_are_of_scripts_alone(rt: HostRuntime) -> Result<(), Fail> {
    let p = &small(rt.alloc())?;
    let line = b"@ 2026-01-05T08:00";
    assert!(rt; in_script(p, line) == Ok(Line::At(after_eight(0)?)));
    assert!(rt; on_connection(p, line) == Err(LineFault::Syntax));
    Ok(())
}

#[test]
fn a_dash_is_the_opening_actor(rt: HostRuntime) -> Result<(), Fail> {
    let p = &small(rt.alloc())?;
    assert!(rt; in_script(p, b"as v") == Ok(Line::Be(Actor::User(UserId(1)))));
    assert!(rt; on_connection(p, b"as v") == Ok(Line::Be(Actor::User(UserId(1)))));
    assert!(rt; in_script(p, b"as -") == Ok(Line::Be(Actor::Operator)));
    assert!(rt; on_connection(p, b"as -") == Ok(Line::Be(Actor::Nobody)));
    Ok(())
}

#[test]
fn requests_of_sessions(rt: HostRuntime) -> Result<(), Fail> {
    let p = &small(rt.alloc())?;
    let last = SessionId(4_294_967_295);
    assert!(rt; asks(p, b"now", Request::Now));
    assert!(rt; asks(p, b"\topen  ", Request::OpenSession));
    assert!(rt; asks(p, b"close 0", Request::CloseSession(SessionId(0))));
    assert!(rt; asks(p, b"close 4294967295", Request::CloseSession(last)));
    assert!(rt;
        asks(
            p,
            b"activate 7\tc",
            Request::Activate(SessionId(7), RoleId(2))
        )
    );
    assert!(rt;
        asks(
            p,
            b"deactivate 7 b",
            Request::Deactivate(SessionId(7), RoleId(1))
        )
    );
    assert!(rt; asks(p, b"active 7 a", Request::Active(SessionId(7), RoleId(0))));
    assert!(rt; asks(p, b"check 7 q\r", Request::Check(SessionId(7), PermId(1))));
    Ok(())
}

/// Whether the line asks whether the fluent is on, or with another word off.
fn asks_status(p: &Policy, on: &[u8], off: &[u8], fluent: Fluent) -> bool {
    asks(p, on, Request::Status(Cond { on: true, fluent }))
        && asks(p, off, Request::Status(Cond { on: false, fluent }))
}

#[test]
fn each_condition(rt: HostRuntime) -> Result<(), Fail> {
    let p = &small(rt.alloc())?;
    let enabled = Fluent::Enabled(RoleId(1));
    let assigned = Fluent::Assigned(UserId(1), RoleId(2));
    let granted = Fluent::Granted(PermId(1), RoleId(0));
    let limit = Fluent::Limit(LimitId(0));
    assert!(rt; asks_status(p, b"status enabled b", b"status disabled b", enabled));
    assert!(rt;
        asks_status(
            p,
            b"status assigned v c",
            b"status deassigned v c",
            assigned
        )
    );
    assert!(rt; asks_status(p, b"status granted q a", b"status revoked q a", granted));
    assert!(rt; asks_status(p, b"status armed top", b"status disarmed top", limit));
    assert!(rt;
        asks_status(
            p,
            b"status linked b c",
            b"status unlinked b c",
            Fluent::Edge(1)
        )
    );
    Ok(())
}

/// Whether the line asks how the fluent's going on was seen, or with another word its going off.
fn asks_event(p: &Policy, on: &[u8], off: &[u8], fluent: Fluent) -> bool {
    asks(p, on, Request::Seen(event(true, fluent)))
        && asks(p, off, Request::Seen(event(false, fluent)))
}

#[test]
fn each_event(rt: HostRuntime) -> Result<(), Fail> {
    let p = &small(rt.alloc())?;
    let enabled = Fluent::Enabled(RoleId(1));
    let assigned = Fluent::Assigned(UserId(1), RoleId(2));
    let granted = Fluent::Granted(PermId(1), RoleId(0));
    let limit = Fluent::Limit(LimitId(0));
    assert!(rt; asks_event(p, b"event enable b", b"event disable b", enabled));
    assert!(rt; asks_event(p, b"event assign v c", b"event deassign v c", assigned));
    assert!(rt; asks_event(p, b"event grant q a", b"event revoke q a", granted));
    assert!(rt; asks_event(p, b"event arm top", b"event disarm top", limit));
    assert!(rt; asks_event(p, b"event link b c", b"event unlink b c", Fluent::Edge(1)));
    Ok(())
}

/// The request for the event of this priority.
fn raise(level: u8, on: bool, fluent: Fluent, delay: u32) -> Result<Request, Memory> {
    let head = head(level, event(on, fluent))?;
    Ok(Request::Raise { head, delay })
}

#[test]
fn requests_of_events(rt: HostRuntime) -> Result<(), Fail> {
    let p = &small(rt.alloc())?;
    let enabled = Fluent::Enabled(RoleId(1));
    let late = raise(0, false, enabled, 52_595_999)?;
    assert!(rt; asks(p, b"request 100:enable b", raise(100, true, enabled, 0)?));
    assert!(rt;
        asks(
            p,
            b"request 7:enable b after 0",
            raise(7, true, enabled, 0)?
        )
    );
    assert!(rt; asks(p, b"request 0:disable b after 52595999", late));
    let edge = raise(9, false, Fluent::Edge(0), 3)?;
    assert!(rt; asks(p, b"request 9:unlink a b after 3", edge));
    Ok(())
}

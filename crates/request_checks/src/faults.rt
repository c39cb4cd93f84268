//! Lines that say nothing that can be done: too long, of no form, or with an unknown name, in this
//! order.
use crate::building::small;
use crate::lines::{connection_fault, on_connection, script_fault};
use gt_base::Memory;
use policy_book::Policy;
use request_text::{Line, LineFault};
use std::alloc::Global;
use std::test::Fail;

/// The text with blanks behind it, of so many bytes in all.
fn padded(alloc: Global, text: &[u8], bytes: usize) -> Result<Vec<u8>, Memory> {
    let mut line = text.to_vec(alloc)?;
    for _ in text.len()..bytes {
        line.push(b' ')?;
    }
    Ok(line)
}

/// The fault of a line in a script, where it has the same on a connection.
fn fault(p: &Policy, line: &[u8]) -> Option<LineFault> {
    match (script_fault(p, line), connection_fault(p, line)) {
        (Some(one), Some(other)) if one == other => Some(one),
        _ => None,
    }
}

#[test]
fn lines_of_no_form(rt: HostRuntime) -> Result<(), Fail> {
    let p = &small(rt.alloc())?;
    let lines: [&[u8]; 16] = [
        b"as",
        b"as u v",
        b"now 1",
        b"open 1",
        b"close",
        b"close 4294967296",
        b"close 01",
        b"activate 1",
        b"check 1 p q",
        b"status enable a",
        b"event enabled a",
        b"request 101:enable a",
        b"request 1:enable a after 52596000",
        b"now\x00",
        b"\x0bnow",
        b"frob",
    ];
    for line in lines {
        assert!(rt; fault(p, line) == Some(LineFault::Syntax));
    }
    Ok(())
}

#[test]
fn unknown_names(rt: HostRuntime) -> Result<(), Fail> {
    let p = &small(rt.alloc())?;
    let lines: [&[u8]; 10] = [
        b"as a",
        b"status enabled u",
        b"status linked b a",
        b"status armed a",
        b"event assign a u",
        b"event link a c",
        b"request 1:grant a p",
        b"activate 1 zed",
        b"active 1 p",
        b"check 1 a",
    ];
    for line in lines {
        assert!(rt; fault(p, line) == Some(LineFault::Name));
    }
    Ok(())
}

#[test]
fn the_length_comes_before_the_form_and_the_form_before_the_name(
    rt: HostRuntime,
) -> Result<(), Fail> {
    let alloc = rt.alloc();
    let p = &small(alloc)?;
    let lines: [&[u8]; 4] = [b"as zed zed", b"as zed", b"now", b"#"];
    for line in lines {
        assert!(rt; fault(p, &padded(alloc, line, 513)?) == Some(LineFault::Long));
    }
    assert!(rt; fault(p, &padded(alloc, b"as zed zed", 512)?) == Some(LineFault::Syntax));
    assert!(rt; fault(p, &padded(alloc, b"as zed", 512)?) == Some(LineFault::Name));
    assert!(rt; on_connection(p, &padded(alloc, b"#", 512)?) == Ok(Line::Silent));
    Ok(())
}

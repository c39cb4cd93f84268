//! Tests of one line of a policy: read, written again, and refused by its fault.
use gt_base::{Memory, Name, Prio};
use periodic_expr::{ExprFault, ExprKind};
use policy_lines::{
    push_cond, push_delay, push_event, push_head, push_said, push_signal, read_said,
};
use policy_words::{
    NamedCond, NamedEvent, NamedFluent, NamedHead, NamedSignal, TextKind, TextVersion,
};
use std::alloc::Global;
use std::test::Fail;

/// The fault of a line behind such a version, if it has one.
fn fault(alloc: Global, version: TextVersion, line: &[u8]) -> Option<TextKind> {
    read_said(alloc, version, line).err()
}

/// Whether a line has this fault where only silent lines stand before it.
fn has_fault(alloc: Global, line: &[u8], kind: TextKind) -> bool {
    fault(alloc, TextVersion::Open, line) == Some(kind)
}

/// Whether the expression of a line has a fault of the grammar at this byte of it.
fn is_syntax_at(alloc: Global, line: &[u8], at: u32) -> bool {
    let kind = ExprKind::Syntax;
    has_fault(alloc, line, TextKind::Expr(ExprFault { at, kind }))
}

/// The line that a line is written as once it is read, empty where it is silent.
fn again(alloc: Global, version: TextVersion, line: &[u8]) -> Result<Vec<u8>, TextKind> {
    let mut text = Vec::new(alloc);
    if let Some(said) = read_said(alloc, version, line)? {
        if push_said(&mut text, &said).is_err() {
            return Err(TextKind::Memory);
        }
    }
    Ok(text)
}

/// Whether a line, read behind such a version and written again, is this text.
fn is_written_in(alloc: Global, version: TextVersion, line: &[u8], written: &[u8]) -> bool {
    match again(alloc, version, line) {
        Ok(text) => text.as_slice() == written,
        Err(_) => false,
    }
}

/// The same where only silent lines stand before it.
fn is_written(alloc: Global, line: &[u8], written: &[u8]) -> bool {
    is_written_in(alloc, TextVersion::Open, line, written)
}

/// A line with so many further items, and the rest of it.
fn long_body(alloc: Global, more: u32, rest: &[u8]) -> Result<Vec<u8>, Memory> {
    let mut line = b"when enable a".to_vec(alloc)?;
    for _ in 0..more {
        line.extend_from_slice(b" and enabled b")?;
    }
    line.extend_from_slice(rest)?;
    Ok(line)
}

/// An event, a condition, a signal and two delays, with nothing between them.
fn parts(alloc: Global, x: &Name) -> Result<Vec<u8>, Memory> {
    let mut text = Vec::new(alloc);
    let event = NamedEvent {
        on: false,
        fluent: NamedFluent::Granted(*x, *x),
    };
    push_event(&mut text, &event)?;
    let cond = NamedCond {
        on: false,
        fluent: NamedFluent::Assigned(*x, *x),
    };
    push_cond(&mut text, &cond)?;
    let signal = NamedSignal {
        start: false,
        user: *x,
        role: *x,
    };
    push_signal(&mut text, &signal)?;
    push_delay(&mut text, 0)?;
    push_delay(&mut text, 7)?;
    Ok(text)
}

/// A prioritised event, written.
fn head(alloc: Global, x: &Name, prio: Prio) -> Result<Vec<u8>, Memory> {
    let mut text = Vec::new(alloc);
    let event = NamedEvent {
        on: true,
        fluent: NamedFluent::Limit(*x),
    };
    push_head(&mut text, &NamedHead { prio, event })?;
    Ok(text)
}

#[test]
fn parts_are_written(rt: HostRuntime) -> Result<(), Fail> {
    let named = Name::new(b"x");
    assert!(rt; named.is_some());
    if let Some(x) = named {
        let written = parts(rt.alloc(), &x)?;
        assert!(rt;
            written.as_slice() == b"revoke x xdeassigned x xdeactivate x x after 7".as_slice()
        );
    }
    Ok(())
}

#[test]
fn heads_are_written(rt: HostRuntime) -> Result<(), Fail> {
    let (named, ten) = (Name::new(b"x"), Prio::new(10));
    assert!(rt; named.is_some() && ten.is_some());
    if let (Some(x), Some(prio)) = (named, ten) {
        let written = head(rt.alloc(), &x, prio)?;
        assert!(rt; written.as_slice() == b"10:arm x".as_slice());
    }
    Ok(())
}

#[test]
fn lines_are_read_and_written_again(rt: HostRuntime) {
    let lines = [
        b"policy 1".as_slice(),
        b"policy 2".as_slice(),
        b"role r".as_slice(),
        b"user u".as_slice(),
        b"perm p".as_slice(),
        b"edge ia strong a b".as_slice(),
        b"cap length r 1000000".as_slice(),
        b"admin u".as_slice(),
        b"armed l".as_slice(),
        b"granted p r".as_slice(),
        b"limit l 5 disabled r max 60 during p".as_slice(),
        b"limit l 99 assigned u r max 1".as_slice(),
        b"span p 99:deassign u r".as_slice(),
        b"when activate u r and revoked p r then 0:disarm l after 5".as_slice(),
        b"when enable and and enable then then 5:enable and".as_slice(),
        b"when enable a and settled disabled settled then 5:enable b".as_slice(),
        b"period p 2000-01-01T00:00 2000-01-01T00:05 all.Days + {1,2}.Hours > 1.Hours".as_slice(),
    ];
    for line in lines {
        assert!(rt; is_written(rt.alloc(), line, line));
    }
}

#[test]
fn other_spellings_are_read(rt: HostRuntime) {
    let alloc = rt.alloc();
    assert!(rt;
        is_written(
            alloc,
            b" when\tenable a  then 1:arm l after 0 ",
            b"when enable a then 1:arm l"
        )
    );
    assert!(rt; is_written(alloc, b"enabled x\r", b"enabled x"));
    assert!(rt; is_written(alloc, b" \t\r", b""));
    assert!(rt; is_written(alloc, b"  # policy", b""));
    let written = b"period p 2000-01-01T00:00 2000-01-01T00:05 all.Days + {1,2}.Hours > 1.Hours";
    assert!(rt;
        is_written(
            alloc,
            b"period p * 2000-01-01T00:05 all.Days+{2,1,2}.Hours",
            written
        )
    );
    let all = b"period p 2000-01-01T00:00 2099-12-31T23:59 all.Days > 1.Days";
    assert!(rt; is_written(alloc, b"period p\t* * all.Days \t\r", all));
}

#[test]
fn faults_of_periods_are_told(rt: HostRuntime) {
    let alloc = rt.alloc();
    assert!(rt;
        has_fault(
            alloc,
            b"period p 2001-01-01T00:00 2000-01-01T00:00 all.Dax",
            TextKind::Bounds
        )
    );
    assert!(rt;
        has_fault(
            alloc,
            b"period p * 2100-01-01T00:00 all.Dax",
            TextKind::Form
        )
    );
    assert!(rt; is_syntax_at(alloc, b"period p * *", 0));
    assert!(rt; is_syntax_at(alloc, b"period p * * all.Days x", 9));
    assert!(rt; is_syntax_at(alloc, b"period p * * all.Days \r\r", 9));
}

#[test]
fn faults_of_forms_are_told(rt: HostRuntime) {
    let lines = [
        b"each p 7:enable b after 3".as_slice(),
        b"limit l 100 enabled r max 5".as_slice(),
        b"limit l 5 enabled r max 05".as_slice(),
        b"cap day r 0".as_slice(),
        b"role r\rs".as_slice(),
        b"role \0".as_slice(),
        b"role a23456789012345678901234567890123".as_slice(),
    ];
    for line in lines {
        assert!(rt; has_fault(rt.alloc(), line, TextKind::Form));
    }
    assert!(rt;
        is_written(
            rt.alloc(),
            b"role a2345678901234567890123456789012",
            b"role a2345678901234567890123456789012"
        )
    );
}

#[test]
fn other_faults_are_told(rt: HostRuntime) {
    let alloc = rt.alloc();
    for version in [TextVersion::One, TextVersion::Two] {
        assert!(rt; fault(alloc, version, b"policy 1") == Some(TextKind::Version));
        assert!(rt; fault(alloc, version, b"policy 2") == Some(TextKind::Version));
    }
    assert!(rt; has_fault(alloc, b"policy 3", TextKind::Version));
    assert!(rt; has_fault(alloc, b"policy 01", TextKind::Version));
    assert!(rt; has_fault(alloc, b"policy 1 x", TextKind::Version));
    for line in [b"frob".as_slice(), b"\0".as_slice(), b"\rrole r".as_slice()] {
        assert!(rt; has_fault(alloc, line, TextKind::Word));
    }
    assert!(rt; has_fault(alloc, b"when enabled a then 5:enable a", TextKind::Body));
}

#[test]
fn edges_are_named_in_version_2_alone(rt: HostRuntime) {
    let alloc = rt.alloc();
    let lines = [
        b"limit l 5 linked a b max 60".as_slice(),
        b"start p 5:unlink a b".as_slice(),
        b"when link a b then 5:enable a".as_slice(),
        b"when enable a and unlinked a b then 5:enable b".as_slice(),
        b"when enable a and settled linked a b then 5:link a b".as_slice(),
    ];
    for line in lines {
        assert!(rt; is_written_in(alloc, TextVersion::Two, line, line));
        assert!(rt; fault(alloc, TextVersion::One, line) == Some(TextKind::Form));
        assert!(rt; has_fault(alloc, line, TextKind::Form));
    }
    let linked = b"linked a b".as_slice();
    assert!(rt; is_written_in(alloc, TextVersion::Two, linked, linked));
    assert!(rt; fault(alloc, TextVersion::One, linked) == Some(TextKind::Word));
    assert!(rt; fault(alloc, TextVersion::Two, b"unlinked a b") == Some(TextKind::Word));
    assert!(rt; fault(alloc, TextVersion::Two, b"linked a") == Some(TextKind::Form));
}

#[test]
fn settled_conditions_are_no_cause(rt: HostRuntime) {
    let alloc = rt.alloc();
    assert!(rt;
        has_fault(
            alloc,
            b"when settled enabled a then 5:enable a",
            TextKind::Body
        )
    );
    assert!(rt;
        has_fault(
            alloc,
            b"when settled link a b then 5:enable a",
            TextKind::Form
        )
    );
    let body = b"when unlinked a b then 5:enable a";
    assert!(rt; fault(alloc, TextVersion::Two, body) == Some(TextKind::Body));
    assert!(rt; fault(alloc, TextVersion::One, body) == Some(TextKind::Form));
}

#[test]
fn bodies_have_at_most_sixteen_items(rt: HostRuntime) -> Result<(), Fail> {
    let alloc = rt.alloc();
    let sixteen = long_body(alloc, 15, b" then 5:enable a")?;
    assert!(rt; is_written(alloc, sixteen.as_slice(), sixteen.as_slice()));
    let many = long_body(alloc, 16, b" then 5:enable a")?;
    assert!(rt; has_fault(alloc, many.as_slice(), TextKind::Body));
    let faulty = long_body(alloc, 16, b" then 100:enable a")?;
    assert!(rt; has_fault(alloc, faulty.as_slice(), TextKind::Form));
    Ok(())
}

#[test]
fn lines_have_at_most_4096_bytes(rt: HostRuntime) -> Result<(), Fail> {
    let alloc = rt.alloc();
    let longest = vec![in alloc; b' '; 4096]?;
    assert!(rt; fault(alloc, TextVersion::Open, longest.as_slice()) == None);
    let longer = vec![in alloc; b' '; 4097]?;
    assert!(rt; has_fault(alloc, longer.as_slice(), TextKind::Long));
    Ok(())
}

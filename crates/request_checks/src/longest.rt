//! The longest reply: a walk over a thousand roles, whose names have 32 bytes each.
use crate::building::{policy_by, walk};
use crate::named::has_reply;
use gt_base::{Decision, Memory, Reply};
use gt_text::push_number;
use policy_book::Policy;
use request_text::{LONGEST_REPLY, write_reply};
use std::alloc::{AllocError, Global};
use std::test::Fail;

/// Adds the name of a role, 28 letters and a number of four digits.
fn put_name(text: &mut Vec<u8>, n: u64) -> Result<(), Memory> {
    text.extend_from_slice(b"abcdefghijklmnopqrstuvwxyzab")?;
    push_number(text, n)
}

/// Adds the line of a role with a name of 32 bytes.
fn put_role(text: &mut Vec<u8>, n: u64) -> Result<(), Memory> {
    text.extend_from_slice(b"role ")?;
    put_name(text, n)?;
    text.extend_from_slice(b"\n")
}

/// Adds the line of an edge from a role to the next one.
fn put_edge(text: &mut Vec<u8>, n: u64) -> Result<(), Memory> {
    text.extend_from_slice(b"edge ia weak ")?;
    put_name(text, n)?;
    text.extend_from_slice(b" ")?;
    put_name(text, n.saturating_add(1))?;
    text.extend_from_slice(b"\n")
}

/// A chain of a thousand roles.
fn chain(alloc: Global) -> Result<Policy, Memory> {
    let mut text = Vec::new(alloc);
    for n in 1_000u64..2_000 {
        put_role(&mut text, n)?;
    }
    for n in 1_000u64..1_999 {
        put_edge(&mut text, n)?;
    }
    policy_by(alloc, &text)
}

/// The permit over the whole chain.
fn permit(alloc: Global) -> Result<Reply, Memory> {
    let mut edges = Vec::new(alloc);
    for n in 0u32..999 {
        edges.push(n)?;
    }
    let walk = walk(alloc, 0, &edges)?;
    Ok(Reply::Decided(Decision::Permit { walk }))
}

/// The line of a reply.
fn line(alloc: Global, p: &Policy, reply: &Reply) -> Result<Vec<u8>, Memory> {
    if !has_reply(p, reply) {
        return Err(AllocError);
    }
    write_reply(alloc, p, reply)?.as_slice().to_vec(alloc)
}

#[test]
fn the_longest_reply(rt: HostRuntime) -> Result<(), Fail> {
    let alloc = rt.alloc();
    let line = line(alloc, &chain(alloc)?, &permit(alloc)?)?;
    assert!(rt; line.len() == 33_010);
    assert!(rt; line.len() == LONGEST_REPLY);
    assert!(rt; line.starts_with(b"permit by abcdefghijklmnopqrstuvwxyzab1000>abc"));
    assert!(rt; line.ends_with(b"yzab1998>abcdefghijklmnopqrstuvwxyzab1999\n"));
    Ok(())
}

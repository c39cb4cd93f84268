//! What is due later.
use crate::ages::at;
use delay_agenda::Agenda;
use gt_base::{Event, Fluent, Happened, Instant, Memory, Prio, Prioritised, RoleId};
use std::alloc::{AllocError, Global};
use std::test::Fail;

/// The event that enables a role, at a priority that plays no part.
fn enable(role: u32) -> Result<Prioritised, Memory> {
    match Prio::new(50) {
        Some(prio) => Ok(Prioritised {
            prio,
            event: Event {
                on: true,
                fluent: Fluent::Enabled(RoleId(role)),
            },
        }),
        None => Err(AllocError),
    }
}

/// What is due at the instant, taken out.
fn taken(alloc: Global, agenda: &mut Agenda, due: Instant) -> Result<Happened, Memory> {
    let mut into = Happened::new(alloc);
    into.reserve(agenda.due_count(due))?;
    agenda.take(due, &mut into);
    Ok(into)
}

/// What is due at the instant, told and then forgotten.
fn told(alloc: Global, agenda: &mut Agenda, due: Instant) -> Result<Happened, Memory> {
    let mut into = Happened::new(alloc);
    into.reserve(agenda.due_count(due))?;
    agenda.tell(due, &mut into);
    agenda.forget(due);
    Ok(into)
}

/// Puts three events, the roles of which are enabled at these minutes, into room made at once.
fn put_three(agenda: &mut Agenda, minutes: [u32; 3], roles: [u32; 3]) -> Result<(), Memory> {
    let dues = [at(minutes[0])?, at(minutes[1])?, at(minutes[2])?];
    let events = [enable(roles[0])?, enable(roles[1])?, enable(roles[2])?];
    agenda.reserve(3)?;
    agenda.put(dues[0], events[0]);
    agenda.put(dues[1], events[1]);
    agenda.put(dues[2], events[2]);
    Ok(())
}

/// Whether the agenda has so many events, the first of them due at this minute.
fn has(agenda: &Agenda, len: usize, minute: u32) -> Result<bool, Memory> {
    Ok(agenda.len() == len && agenda.next_due() == Some(at(minute)?))
}

/// Three events at two instants; a copy keeps what is taken out of the other.
#[test]
fn what_is_due_is_taken(rt: HostRuntime) -> Result<(), Fail> {
    let mut agenda = Agenda::new(rt.alloc());
    assert!(rt; agenda.next_due().is_none());
    put_three(&mut agenda, [20, 10, 10], [0, 1, 0])?;
    let copy = agenda.copied()?;
    assert!(rt; agenda.due_count(at(10)?) == 2);
    let due = taken(rt.alloc(), &mut agenda, at(10)?)?;
    assert!(rt; due.len() == 2 && due.has(enable(0)?) && due.has(enable(1)?));
    assert!(rt; has(&agenda, 1, 20)?);
    assert!(rt; has(&copy, 3, 10)?);
    Ok(())
}

/// Adds an event, with room for it.
fn put(agenda: &mut Agenda, minute: u32, role: u32) -> Result<(), Memory> {
    let (due, event) = (at(minute)?, enable(role)?);
    agenda.reserve(1)?;
    agenda.put(due, event);
    Ok(())
}

/// Whether two events are due at this minute, and none before it; they are taken out.
fn has_pair(alloc: Global, agenda: &mut Agenda, minute: u32) -> Result<bool, Memory> {
    let due = at(minute)?;
    Ok(agenda.next_due() == Some(due) && taken(alloc, agenda, due)?.len() == 2)
}

/// 2,500 of 3,000 puts are new, two an instant, and come out by instant.
#[test]
fn many_come_in_any_order(rt: HostRuntime) -> Result<(), Fail> {
    let mut agenda = Agenda::new(rt.alloc());
    for i in 0..3000 {
        put(&mut agenda, i * 7919 % 2500 / 2, i % 2)?;
    }
    assert!(rt; agenda.len() == 2500);
    for i in 0..1250 {
        assert!(rt; has_pair(rt.alloc(), &mut agenda, i)?);
    }
    assert!(rt; agenda.next_due().is_none());
    Ok(())
}

/// Pairs in the tree and in the row: one that stands in the tree is put no second time, what is due
/// at a later instant is told and forgotten, and what is due before it stays.
#[test]
fn both_are_one_agenda(rt: HostRuntime) -> Result<(), Fail> {
    let mut agenda = Agenda::new(rt.alloc());
    put_three(&mut agenda, [20, 0, 10], [1, 0, 0])?;
    put_three(&mut agenda, [20, 20, 10], [1, 0, 1])?;
    assert!(rt; has(&agenda, 5, 0)?);
    let copy = agenda.copied()?;
    let due = told(rt.alloc(), &mut agenda, at(20)?)?;
    assert!(rt; due.len() == 2);
    assert!(rt; has(&agenda, 3, 0)?);
    assert!(rt; agenda.due_count(at(10)?) == 2);
    assert!(rt; has(&copy, 5, 0)?);
    assert!(rt; copy.due_count(at(20)?) == 2);
    Ok(())
}

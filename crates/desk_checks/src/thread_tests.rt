ghost use Rattle.std.specs.Prelude.{◌<◌};
ghost use Rattle.turn_lock.specs.Holders.{site_of};
ghost use Rattle.desk_checks.specs.Posts.{IsFree, IsBack};

use crate::desks::{close_two, go, hear};
use crate::pair::two;
use crate::shifts::many;
use crate::tally::CountingBook;
use gt_base::{Actor, Entry, Instant, Keeps, Reply, Request, SessionId, UserId};
use locked_history::{Asked, Desk};
use std::alloc::Global;
use std::sync::Wait;
use std::thread::Threads;
use turn_lock::Pass;

/// How many entries are the worker's.
fn count_of(entries: &[Entry], worker: u32) -> usize {
    entries
        .iter()
        .filter(|entry| entry.who.worker == worker)
        .count()
}

/// Whether a session of this number was opened at this instant, by so many entries.
fn is_opened(heard: &Option<Asked<CountingBook>>, number: u32, at: Instant, len: u64) -> bool {
    match heard {
        Some(heard) => {
            matches!(&heard.reply, Reply::Session(SessionId(n)) if *n == number)
                && heard.at.minute() == at.minute()
                && heard.front.len() == len
        }
        None => false,
    }
}

/// Whether this instant was told at it, by so many entries.
fn is_told(heard: &Option<Asked<CountingBook>>, at: Instant, len: u64) -> bool {
    match heard {
        Some(heard) => {
            matches!(heard.reply, Reply::Now(t) if t.minute() == at.minute())
                && heard.at.minute() == at.minute()
                && heard.front.len() == len
        }
        None => false,
    }
}

/// Whether one pass is told what the other has done, which goes on from one instant to the other.
fn take_turns<R: Wait>(
    rt: &R,
    desk: &Desk<CountingBook>,
    zero: &mut Pass<CountingBook>,
    one: &mut Pass<CountingBook>,
    first: Instant,
    later: Instant,
) -> bool
    requires zero { IsFree (site_of desk.now) zero.old }
    requires one { IsFree (site_of desk.now) one.old }
    requires user { 0 < desk.now.root.users }
    ensures zero { IsBack (site_of desk.now) zero.old zero.new }
    ensures one { IsBack (site_of desk.now) one.old one.new }
{
    let user = Actor::User(UserId(0));
    let opened = hear(rt, desk, zero, user, Request::OpenSession);
    let gone = go(rt, desk, one, later);
    let told = hear(rt, desk, zero, user, Request::Now);
    let idle = go(rt, desk, zero, later);
    is_opened(&opened, 1, first, 1)
        && gone == Some(2)
        && is_told(&told, later, 3)
        && idle == Some(3)
}

#[test]
fn two_passes_in_one_thread(rt: HostRuntime) {
    let ten = Instant::new(13_689_240).expect(&rt, "2026-01-10T10:00");
    let later = Instant::new(13_689_245).expect(&rt, "five minutes later");
    let Ok((desk, mut passes)) = Desk::new(rt.alloc(), CountingBook::new(rt.alloc(), ten, 1), 2)
    else {
        panic!(&rt; "memory");
    };
    let mut one = passes.take().expect(&rt, "a pass");
    let mut zero = passes.take().expect(&rt, "a pass");
    assert!(&rt; passes.take().is_none());
    assert!(&rt; zero.number() == 0 && one.number() == 1);
    assert!(&rt; take_turns(&rt, &desk, &mut zero, &mut one, ten, later));
    assert!(&rt; close_two(desk, passes, zero, one) == 3);
}

#[test]
fn two_threads_ask(rt: HostRuntime) {
    let birth = Instant::new(7).expect(&rt, "an instant");
    let Ok((machine, a, b)) = two(
        &rt,
        rt.alloc(),
        CountingBook::new(rt.alloc(), birth, 0),
        100,
    ) else {
        panic!(&rt; "memory");
    };
    assert!(&rt; a == 100);
    assert!(&rt; b == 100);
    assert!(&rt; machine.kept() == 200);
    assert!(&rt; count_of(machine.entries(), 0) == 100);
    assert!(&rt; count_of(machine.entries(), 1) == 100);
}

/// The machine that eight threads asked 50 to 57 times.
fn asked_by_eight<R: Threads + Wait + Sync>(
    rt: &R,
    alloc: Global,
    stays: bool,
) -> Option<CountingBook> {
    let tally = CountingBook::new(alloc, Instant::new(7)?, 0);
    many(rt, alloc, tally, 8, stays, 50, 1).ok()
}

/// Whether each of the eight has its asks.
fn is_whole(machine: &CountingBook) -> bool {
    let entries = machine.entries();
    machine.kept() == 428 && count_of(entries, 0) == 50 && count_of(entries, 7) == 57
}

#[test]
fn eight_threads_of_different_lengths_ask(rt: HostRuntime) {
    let machine = asked_by_eight(&rt, rt.alloc(), false).expect(&rt, "memory");
    assert!(&rt; is_whole(&machine));
}

#[test]
fn eight_threads_keep_their_turns(rt: HostRuntime) {
    let machine = asked_by_eight(&rt, rt.alloc(), true).expect(&rt, "memory");
    assert!(&rt; is_whole(&machine));
}

#[test]
fn a_desk_is_closed_while_a_turn_is_kept(rt: HostRuntime) {
    let birth = Instant::new(7).expect(&rt, "an instant");
    let Ok((desk, mut passes)) = Desk::new(rt.alloc(), CountingBook::new(rt.alloc(), birth, 0), 1)
    else {
        panic!(&rt; "memory");
    };
    let mut only = passes.take().expect(&rt, "a pass");
    only.stay();
    let told = hear(&rt, &desk, &mut only, Actor::Nobody, Request::Now);
    assert!(&rt; is_told(&told, birth, 1));
    passes.put(only);
    assert!(&rt; desk.close(passes).kept() == 1);
}

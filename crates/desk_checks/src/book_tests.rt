ghost use Rattle.gt_base.specs.declared.requests.Actor.TheVariants.{Operator};
ghost use Rattle.turn_lock.specs.Holders.{site_of};
ghost use Rattle.core_machine.specs.Books.{IsNamedFor};
ghost use Rattle.desk_checks.specs.Posts.{IsFree, IsBack};
ghost use Rattle.desk_checks.specs.Requests.{first_role_status};

use crate::books::{book_of_a_role, role_status};
use crate::desks::{close_two, go, hear};
use core_machine::Book;
use gt_base::{Actor, Instant, Reply};
use locked_history::{Asked, Desk};
use std::sync::Wait;
use turn_lock::Pass;

/// Whether the reply is that the condition does not hold, with so many entries.
fn is_no(heard: &Option<Asked<Book>>, len: u64) -> bool {
    match heard {
        Some(heard) => matches!(&heard.reply, Reply::Truth(false)) && heard.front.len() == len,
        None => false,
    }
}

/// Whether both passes see one book, of which one goes on to this instant.
fn is_shared<R: Wait>(
    rt: &R,
    desk: &Desk<Book>,
    zero: &mut Pass<Book>,
    one: &mut Pass<Book>,
    later: Instant,
) -> bool
    requires zero { IsFree (site_of desk.now) zero.old }
    requires one { IsFree (site_of desk.now) one.old }
    requires named { IsNamedFor desk.now.root Operator first_role_status }
    ensures zero { IsBack (site_of desk.now) zero.old zero.new }
    ensures one { IsBack (site_of desk.now) one.old one.new }
{
    let first = hear(rt, desk, zero, Actor::Operator, role_status());
    let gone = go(rt, desk, one, later);
    let second = hear(rt, desk, zero, Actor::Operator, role_status());
    let idle = go(rt, desk, zero, later);
    is_no(&first, 1) && gone == Some(2) && is_no(&second, 3) && idle == Some(3)
}

#[test]
fn two_passes_share_a_book(rt: HostRuntime) {
    let ten = Instant::new(13_689_240).expect(&rt, "2026-01-10T10:00");
    let later = Instant::new(13_689_245).expect(&rt, "five minutes later");
    let Ok(book) = book_of_a_role(rt.alloc(), ten) else {
        panic!(&rt; "memory");
    };
    let Ok((desk, mut passes)) = Desk::new(rt.alloc(), book, 2) else {
        panic!(&rt; "memory");
    };
    let mut one = passes.take().expect(&rt, "a pass");
    let mut zero = passes.take().expect(&rt, "a pass");
    assert!(&rt; is_shared(&rt, &desk, &mut zero, &mut one, later));
    assert!(&rt; close_two(desk, passes, zero, one) == 3);
}

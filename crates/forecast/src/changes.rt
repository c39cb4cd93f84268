//! When a fluent first changes, if no request comes any more.
ghost use Rattle.std.specs.Prelude.{◌≡◌, ◌≤◌, IfOk};
ghost use Rattle.core_machine.specs.Books.{now_in};
ghost use Rattle.forecast.specs.Ahead.{HasOneAhead, IsFirstChange};
ghost use Rattle.forecast.specs.Going.{IsOnWay};

use crate::raised::is_raised;
use crate::walking::go_on;
use core_machine::Book;
use gt_base::{Fluent, Instant, Memory};
use hybrid_hierarchy::Hierarchy;
use session_table::Sessions;
use std::alloc::Global;
use time_engine::Timeline;

/// An instant at which a fluent is no longer as it was, and whether it is on there.
#[derive(Clone, Copy, PartialEq, Eq)]
pub struct Change {
    pub at: Instant,
    pub on: bool,
}

/// The first change of the fluent after now, if no request comes any more: the least instant after
/// now and up to the horizon at which it is not as at now, and None exactly where there is none.
/// The horizon is not before now. Just one run lies ahead of a book. The book stays as it is, and
/// however long its history is, it may be asked. Only want of memory is free.
pub fn first_change(
    alloc: Global,
    book: &Book,
    f: Fluent,
    upto: Instant,
) -> Result<Option<Change>, Memory>
    requires { now_in book.now ≤ upto }
    ensures first { IfOk result (IsFirstChange book.now.named.policy book.now.birth book.now.entries
        f upto) }
    ensures one { HasOneAhead book.now.named.policy book.now.birth book.now.entries upto }
{
    book.keeps();
    if !is_raised(book, f) {
        return Ok(None);
    }
    let timeline = book.timeline();
    timeline.keeps();
    let mut line = timeline.copied_without_trace()?;
    let mut table = book.sessions().copied()?;
    let hierarchy = Hierarchy::new(alloc, book.policy().edges())?;
    walk(book, &hierarchy, &mut line, &mut table, f, upto)
}

/// Walks on from now until the fluent is not as it was, or to the horizon.
fn walk(
    book: &Book,
    hierarchy: &Hierarchy,
    line: &mut Timeline,
    table: &mut Sessions,
    f: Fluent,
    upto: Instant,
) -> Result<Option<Change>, Memory>
    requires hierarchy { hierarchy.now ≡ book.now.named.policy.edges }
    requires way { IsOnWay book.now line.old.line table.old }
    requires now { line.old.line.now ≡ now_in book.now }
    requires within { now_in book.now ≤ upto }
    ensures { IfOk result (IsFirstChange book.now.named.policy book.now.birth book.now.entries f
        upto) }
{
    book.keeps();
    let was = line.status().is_on(f);
    while line.now().minute() < upto.minute() {
        go_on(book, hierarchy, line, table, upto)?;
        let on = line.status().is_on(f);
        if on != was {
            let at = line.now();
            return Ok(Some(Change { at, on }));
        }
    }
    Ok(None)
}

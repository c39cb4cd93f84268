//! The one call of the server with viewers: from words, policy, clocks and links to the log and the
//! exit status.
ghost use Rattle.std.specs.Prelude.{◌≡◌, ◌≤◌, List, None, codes, map, string_bytes, length, All};
ghost use Rattle.gt_base.specs.declared.requests.Entry.{Entry};
ghost use Rattle.gt_io.specs.Shelf.{AsksOnce, Stock};
ghost use Rattle.snapshot_readers.specs.Seats.{watchers, IsNewViewer};
ghost use Rattle.gtrbac_daemon.specs.Crew.{IsNew, crewmen};
ghost use Rattle.gtrbac_daemon.specs.Begins.{IsNewCompany};
ghost use Rattle.gtrbac_daemon.specs.Runs.{server_scene, ServesPolicy};
ghost use Rattle.gtrbac_daemon.specs.Views.{company, view_way, RunsViews};
ghost use Rattle.gtrbac_daemon.specs.Words.{named_behind};

use crate::finding::find_safe;
use crate::views_serving::{open_board, serve_at};
use crate::views_status::{due_of_all, first_of_viewers};
use crate::views_writing::write_views;
use crate::words::word_behind;
use gt_io::{Clock, Door, Gate, Shelf, Sink};
use line_server::Worker;
use policy_safety::Safe;
use request_text::Page;
use snapshot_readers::Viewer;
use std::alloc::Global;
use std::sync::Wait;
use std::thread::Threads;

/// Serves a safe policy from the birth that the clock tells, and writes the log.
fn serve_views<
    R: Threads + Wait + Sync,
    B: Clock,
    D: Door + Send,
    C: Clock + Send,
    G: Gate + Send,
    K: Sink,
>(
    rt: &R,
    alloc: Global,
    safe: Safe,
    birth: &mut B,
    crew: &mut Vec<Worker<D, C, G>>,
    viewers: &mut Vec<Viewer<D, G>>,
    out: &mut K,
) -> u8
where
    D::L: Send,
    requires { IsNewCompany crew.old.items viewers.old.items }
    ensures { (stock stock' : Stock) → (h : List Entry)
        × ServesPolicy (view_way D.L.traffic h) safe result
        (server_scene stock (B.readings birth.old)
        (company (crewmen C.readings D.doorway crew.old.items)
        (watchers D.doorway viewers.old.items)) (K.output out.old))
        (server_scene stock' (B.readings birth.new)
        (company (crewmen C.readings D.doorway crew.new.items)
        (watchers D.doorway viewers.new.items)) (K.output out.new)) }
{
    let minute = birth.now();
    let Ok(mut page) = Page::new(alloc) else {
        return 8;
    };
    let Ok((policy, board, glasses)) = open_board(rt, alloc, safe, minute, viewers.len() as u32)
    else {
        return 8;
    };
    match serve_at(rt, alloc, &policy, board, glasses, crew, viewers) {
        Ok((ledger, told)) => {
            let len = ledger.book().entries().len() as u64;
            let late = first_of_viewers(len, viewers.as_slice());
            let due = due_of_all(crew.as_slice(), viewers.as_slice(), told, late);
            write_views(alloc, &mut page, &ledger, due, late, out)
        }
        Err(_) => 8,
    }
}

/// Serves the policy that the words name, on the shelf, with a crew as `daemon` does and with 1 to
/// 8 viewers that have not begun, each with its door and its gate, all at the same time, until each
/// of them has ended. A viewer answers the requests that change nothing, without a turn: each reply
/// is that of a beginning of the history, which the viewer records as a number of entries. Its
/// birth is the one reading of the clock `birth`. Then it writes the log of the history. Crew and
/// viewers have what each served, and how it ended. It answers the exit status, as `daemon` does:
///
/// - 0: the door of each worker and each viewer has no link left, and the log is written;
/// - 1: the words are not `views POLICY`, and the usage line was printed;
/// - 2, 3, 4, 6: the policy has a fault, is not safe, could not be read, or is too long;
/// - 5: the output failed, with a prefix of the text written;
/// - 8: there was no memory: for the policy, a worker or a viewer, to compare what the viewers saw
///   with the history, or for the log, of which a prefix was written;
/// - 10: the door of a worker or a viewer failed, and the log is written;
/// - 11: a worker or a viewer has served 100,000 links, or a pass has drawn 2^40 turns, and the log
///   is written;
/// - 14: a viewer recorded a number that is above the length of the history. The log and after it
///   `views: N > LEN` are written, with the first such number and the length.
pub fn daemon_views<
    R: Threads + Wait + Sync,
    S: Shelf,
    B: Clock,
    D: Door + Send,
    C: Clock + Send,
    G: Gate + Send,
    K: Sink,
>(
    rt: &R,
    alloc: Global,
    words: &[String],
    shelf: &mut S,
    birth: &mut B,
    crew: &mut Vec<Worker<D, C, G>>,
    viewers: &mut Vec<Viewer<D, G>>,
    out: &mut K,
) -> u8
where
    D::L: Send,
    requires size { (1 ≤ length crew.old.items) × (length crew.old.items ≤ 8) }
    requires fresh { All (λ w. IsNew w) crew.old.items }
    requires few { (1 ≤ length viewers.old.items) × (length viewers.old.items ≤ 8) }
    requires new { All (λ v. IsNewViewer v) viewers.old.items }
    ensures runs { RunsViews D.L.traffic (map string_bytes words.now) result
        (server_scene (S.stock shelf.old) (B.readings birth.old)
        (company (crewmen C.readings D.doorway crew.old.items)
        (watchers D.doorway viewers.old.items)) (K.output out.old))
        (server_scene (S.stock shelf.new) (B.readings birth.new)
        (company (crewmen C.readings D.doorway crew.new.items)
        (watchers D.doorway viewers.new.items)) (K.output out.new)) }
    ensures unread { named_behind (codes "views") (map string_bytes words.now) ≡ None
        → (shelf.new ≡ shelf.old) × (birth.new ≡ birth.old) × (crew.new ≡ crew.old)
        × (viewers.new ≡ viewers.old) }
    ensures once { AsksOnce (S.stock shelf.old) (S.stock shelf.new) }
{
    match find_safe(alloc, word_behind("views", words), shelf, out) {
        Ok(safe) => serve_views(rt, alloc, safe, birth, crew, viewers, out),
        Err(status) => status,
    }
}

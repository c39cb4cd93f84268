//! The one call of the server: from words, policy, clocks and links to the log and the exit status.
ghost use Rattle.std.specs.Prelude.{◌≡◌, ◌≤◌, None, map, string_bytes, length, All};
ghost use Rattle.gt_io.specs.Shelf.{AsksOnce, Stock};
ghost use Rattle.gtrbac_daemon.specs.Words.{policy_named};
ghost use Rattle.gtrbac_daemon.specs.Crew.{IsNew, crewmen};
ghost use Rattle.gtrbac_daemon.specs.Begins.{IsNewCrew};
ghost use Rattle.gtrbac_daemon.specs.Runs.{server_scene, ServesPolicy};
ghost use Rattle.gtrbac_daemon.specs.Daemon.{crew_way, RunsServer};

use crate::finding::find_safe;
use crate::printing::write_up;
use crate::serving::{open_desk, work_and_close};
use crate::statuses::crew_status;
use crate::words::policy_word;
use gt_io::{Clock, Door, Gate, Shelf, Sink};
use line_server::Worker;
use policy_safety::Safe;
use request_text::Page;
use std::alloc::Global;
use std::sync::Wait;
use std::thread::Threads;

/// Serves a safe policy from the birth that the clock tells, and writes the log.
fn serve<
    R: Threads + Wait + Sync,
    B: Clock,
    D: Door + Send,
    C: Clock + Send,
    G: Gate + Send,
    K: Sink,
>(
    rt: &R,
    alloc: Global,
    safe: Safe,
    birth: &mut B,
    crew: &mut Vec<Worker<D, C, G>>,
    out: &mut K,
) -> u8
where
    D::L: Send,
    requires { IsNewCrew crew.old.items }
    ensures { (stock stock' : Stock) → ServesPolicy (crew_way D.L.traffic) safe result
        (server_scene stock (B.readings birth.old)
        (crewmen C.readings D.doorway crew.old.items) (K.output out.old))
        (server_scene stock' (B.readings birth.new)
        (crewmen C.readings D.doorway crew.new.items) (K.output out.new)) }
{
    let minute = birth.now();
    let Ok(mut page) = Page::new(alloc) else {
        return 8;
    };
    let Ok(posts) = Vec::with_capacity(alloc, crew.len()) else {
        return 8;
    };
    match open_desk(alloc, safe, minute, crew.len() as u32) {
        Ok((policy, desk, passes)) => {
            let closed = work_and_close(rt, alloc, &policy, desk, passes, crew, posts);
            let due = crew_status(crew.as_slice());
            write_up(&mut page, &closed, due, out)
        }
        Err(_) => {
            posts.destroy_empty();
            8
        }
    }
}

/// Serves the policy that the words name, on the shelf, with a crew of 1 to 8 workers that have not
/// begun, each with its door, its clock and its gate, until each worker has ended; worker w of the
/// crew is worker w of the history, from 0. Its birth is the one reading of the clock `birth`. Then
/// it writes the log of the history. The crew has what each worker served, and how it ended. It
/// answers the exit status:
///
/// - 0: the door of each worker has no link left, and the log is written;
/// - 1: the words are no command, and the usage line was printed;
/// - 2: a line of the policy has a fault, or its lines have one together, which was printed;
/// - 3: the policy is not safe, and its least conflict cycle was printed;
/// - 4: the shelf failed, or has no such policy;
/// - 5: the output failed, with a prefix of the text written;
/// - 6: the policy has more than 4,194,304 bytes;
/// - 8: there was no memory: before anybody was served, and nothing is written; or for a worker,
///   and the log is written, or a prefix of it where the output failed too;
/// - 10: the door of a worker failed, and the log is written;
/// - 11: a worker has served 100,000 links, or its pass has drawn 2^40 turns, and the log is
///   written.
pub fn daemon<
    R: Threads + Wait + Sync,
    S: Shelf,
    B: Clock,
    D: Door + Send,
    C: Clock + Send,
    G: Gate + Send,
    K: Sink,
>(
    rt: &R,
    alloc: Global,
    words: &[String],
    shelf: &mut S,
    birth: &mut B,
    crew: &mut Vec<Worker<D, C, G>>,
    out: &mut K,
) -> u8
where
    D::L: Send,
    requires size { (1 ≤ length crew.old.items) × (length crew.old.items ≤ 8) }
    requires fresh { All (λ w. IsNew w) crew.old.items }
    ensures runs { RunsServer D.L.traffic (map string_bytes words.now) result
        (server_scene (S.stock shelf.old) (B.readings birth.old)
        (crewmen C.readings D.doorway crew.old.items) (K.output out.old))
        (server_scene (S.stock shelf.new) (B.readings birth.new)
        (crewmen C.readings D.doorway crew.new.items) (K.output out.new)) }
    ensures unread { policy_named (map string_bytes words.now) ≡ None
        → (shelf.new ≡ shelf.old) × (birth.new ≡ birth.old) × (crew.new ≡ crew.old) }
    ensures once { AsksOnce (S.stock shelf.old) (S.stock shelf.new) }
{
    match find_safe(alloc, policy_word(words), shelf, out) {
        Ok(safe) => serve(rt, alloc, safe, birth, crew, out),
        Err(status) => status,
    }
}

//! The one call of the polling server: from words, policy, clocks and ports to the log and the exit
//! status.
ghost use Rattle.std.specs.Prelude.{◌≡◌, [], map, string_bytes};
ghost use Rattle.gt_io.specs.Shelf.{AsksOnce, Stock};
ghost use Rattle.gt_io.specs.Ports.{IsUncalled};
ghost use Rattle.gtrbac_daemon.specs.Begins.{IsNewDesk};
ghost use Rattle.gtrbac_daemon.specs.Runs.{server_scene, Headline, ServesPolicy};
ghost use Rattle.gtrbac_daemon.specs.Polls.{poll_status, polling, HasPolled, poll_way, RunsPoll};

use crate::finding::find_safe;
use crate::printing::write_up;
use crate::serving::open_desk;
use crate::words::word_behind;
use connection_laws::Server;
use core_machine::Ledger;
use gt_base::List;
use gt_io::{Clock, Gate, Ports, Shelf, Sink};
use locked_history::Desk;
use policy_book::Policy;
use policy_safety::Safe;
use poll_front::{Polled, RunEnd, run};
use request_text::Page;
use std::alloc::Global;
use std::sync::Wait;
use turn_lock::Passes;

/// What all links of the ports are served by: the runtime that is waited by, where memory comes
/// from, and the gate that is passed before each reading of the clock.
#[derive(Drop)]
struct PollServer<'a, R, G> {
    rt: &'a R,
    alloc: Global,
    gate: &'a G,
}

/// Lets one pass serve the ports at a desk over a ledger, and closes the desk.
fn poll_and_close<R: Wait, P: Ports, C: Clock, G: Gate>(
    poller: &PollServer<R, G>,
    policy: &Policy,
    desk: Desk<Ledger>,
    mut passes: Passes<Ledger>,
    ports: &mut P,
    clock: &mut C,
    ends: &mut List<Polled>,
) -> (Ledger, RunEnd)
    requires desk { IsNewDesk policy.now 1 desk passes.items }
    requires fresh { IsUncalled (P.harbour ports.old) × (ends.old.items ≡ []) }
    ensures root { (result.0.named ≡ policy.now) × (result.0.birth ≡ desk.root.birth) }
    ensures headline { Headline policy.now desk.root.birth result.0.entries 1
        (HasPolled policy.now desk.root.birth result.0.entries
        (polling (C.readings clock.old) (P.harbour ports.old) ends.old.items)
        (polling (C.readings clock.new) (P.harbour ports.new) ends.new.items) result.1) }
{
    let last = passes.take();
    let Some(mut pass) = last else {
        unreachable!();
    };
    let server = Server {
        rt: poller.rt,
        alloc: poller.alloc,
        desk: &desk,
        policy,
        conn: 0,
        gate: poller.gate,
    };
    let end = run(&server, &mut pass, ports, clock, ends);
    passes.put(pass);
    let closed = desk.close(passes);
    closed.book().keeps();
    (closed, end)
}

/// The status of a run.
fn status_of_run(end: RunEnd) -> u8
    ensures { result ≡ poll_status end }
{
    match end {
        RunEnd::Stopped => 0,
        RunEnd::PortFault => 10,
        RunEnd::Enough => 11,
        RunEnd::Worn => 11,
        RunEnd::Memory => 8,
    }
}

/// Serves a safe policy from the birth that the clock tells, and writes the log.
fn poll_serve<R: Wait, B: Clock, P: Ports, C: Clock, G: Gate, K: Sink>(
    poller: &PollServer<R, G>,
    safe: Safe,
    birth: &mut B,
    ports: &mut P,
    clock: &mut C,
    ends: &mut List<Polled>,
    out: &mut K,
) -> u8
    requires fresh { IsUncalled (P.harbour ports.old) × (ends.old.items ≡ []) }
    ensures { (stock stock' : Stock) → ServesPolicy poll_way safe result
        (server_scene stock (B.readings birth.old)
        (polling (C.readings clock.old) (P.harbour ports.old) ends.old.items) (K.output out.old))
        (server_scene stock' (B.readings birth.new)
        (polling (C.readings clock.new) (P.harbour ports.new) ends.new.items) (K.output out.new)) }
{
    let minute = birth.now();
    let Ok(mut page) = Page::new(poller.alloc) else {
        return 8;
    };
    match open_desk(poller.alloc, safe, minute, 1) {
        Ok((policy, desk, passes)) => {
            let (closed, end) = poll_and_close(poller, &policy, desk, passes, ports, clock, ends);
            write_up(&mut page, &closed, status_of_run(end), out)
        }
        Err(_) => 8,
    }
}

/// Serves the policy that the words name, on the shelf, over the ports, with one pass, until the
/// ports stop or fail, 100,000 links were opened, or the pass is worn. Its birth is the one reading
/// of the clock `birth`. Then it writes the log of the history. `ends` has how each link ended, in
/// the order in which they were opened. It answers the exit status, as `daemon` does:
///
/// - 0: the ports have stopped, and the log is written;
/// - 1: the words are not `poll POLICY`, and the usage line was printed;
/// - 2, 3, 4, 6: the policy has a fault, is not safe, could not be read, or is too long;
/// - 5: the output failed, with a prefix of the text written;
/// - 8: there was no memory: before anybody was served, and nothing is written; or for a further
///   link, and the log is written, or a prefix of it where the output failed too;
/// - 10: the ports failed to tell what happens next, and the log is written;
/// - 11: 100,000 links were opened, or the pass has drawn 2^40 turns, and the log is written.
pub fn daemon_poll<R: Wait, S: Shelf, B: Clock, P: Ports, C: Clock, G: Gate, K: Sink>(
    rt: &R,
    alloc: Global,
    words: &[String],
    shelf: &mut S,
    birth: &mut B,
    ports: &mut P,
    clock: &mut C,
    gate: &G,
    ends: &mut List<Polled>,
    out: &mut K,
) -> u8
    requires none { ends.old.items ≡ [] }
    requires ports { IsUncalled (P.harbour ports.old) }
    ensures runs { RunsPoll (map string_bytes words.now) result
        (server_scene (S.stock shelf.old) (B.readings birth.old)
        (polling (C.readings clock.old) (P.harbour ports.old) ends.old.items) (K.output out.old))
        (server_scene (S.stock shelf.new) (B.readings birth.new)
        (polling (C.readings clock.new) (P.harbour ports.new) ends.new.items) (K.output out.new)) }
    ensures once { AsksOnce (S.stock shelf.old) (S.stock shelf.new) }
{
    match find_safe(alloc, word_behind("poll", words), shelf, out) {
        Ok(safe) => {
            let poller = PollServer { rt, alloc, gate };
            poll_serve(&poller, safe, birth, ports, clock, ends, out)
        }
        Err(status) => status,
    }
}

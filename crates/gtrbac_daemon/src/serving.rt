//! The service of a crew.
ghost use Rattle.std.specs.Prelude.{◌≡◌, ◌≤◌, [], length, vec_capacity, IfOk};
ghost use Rattle.gtrbac_daemon.specs.Crew.{crewmen};
ghost use Rattle.gtrbac_daemon.specs.Begins.{IsNewCrew, IsNewLedger, IsNewDesk};
ghost use Rattle.gtrbac_daemon.specs.Headline.{CrewHeadline};

use crate::crews::{man, relieve};
use core_machine::{Book, Ledger};
use gt_base::{Instant, Memory};
use gt_io::{Clock, Door, Gate};
use ledger_laws::ledgers_can_be_served;
use line_server::{Post, Worker, run_posts};
use locked_history::Desk;
use policy_book::Policy;
use policy_safety::Safe;
use std::alloc::{AllocError, Global};
use std::sync::Wait;
use std::thread::Threads;
use turn_lock::Passes;

/// The ledger of a safe policy at its birth.
pub(crate) fn open(alloc: Global, safe: Safe, birth: Instant) -> Result<Ledger, Memory>
    ensures { IfOk result (λ l. (l.birth ≡ birth) × IsNewLedger safe l) }
{
    match Book::new(alloc, safe, birth) {
        Ok(book) => {
            let ledger = Ledger::new(alloc, book)?;
            ledgers_can_be_served(&ledger);
            Ok(ledger)
        }
        Err(_) => Err(AllocError),
    }
}

/// A safe policy, a desk over its ledger at its birth, and so many passes of that.
pub(crate) fn open_desk(
    alloc: Global,
    safe: Safe,
    birth: Instant,
    count: u32,
) -> Result<(Policy, Desk<Ledger>, Passes<Ledger>), Memory>
    requires { (1 ≤ count) × (count ≤ 8) }
    ensures root { IfOk result (λ t. (t.0 ≡ safe) × (t.1.root.birth ≡ birth)) }
    ensures new { IfOk result (λ t. IsNewDesk t.0 count t.1 t.2.items) }
{
    let policy = safe.policy().copied()?;
    let ledger = open(alloc, safe, birth)?;
    match Desk::new(alloc, ledger, count) {
        Ok((desk, passes)) => Ok((policy, desk, passes)),
        Err(_) => Err(AllocError),
    }
}

/// Lets the crew work at a desk, each worker with one of its passes and at one of the posts, and
/// closes it.
pub(crate) fn work_and_close<
    R: Threads + Wait + Sync,
    D: Door + Send,
    C: Clock + Send,
    G: Gate + Send,
>(
    rt: &R,
    alloc: Global,
    policy: &Policy,
    desk: Desk<Ledger>,
    mut passes: Passes<Ledger>,
    crew: &mut Vec<Worker<D, C, G>>,
    mut posts: Vec<Post<Ledger, D, C, G>>,
) -> Ledger
where
    D::L: Send,
    requires desk { IsNewDesk policy.now (length crew.old.items) desk passes.items }
    requires posts { (posts.items ≡ []) × (length crew.old.items ≤ vec_capacity posts) }
    requires crew { IsNewCrew crew.old.items }
    ensures root { (result.named ≡ policy.now) × (result.birth ≡ desk.root.birth) }
    ensures headline { CrewHeadline D.L.traffic policy.now desk.root.birth
        (crewmen C.readings D.doorway crew.old.items)
        (crewmen C.readings D.doorway crew.new.items) result.entries }
{
    man(&mut passes, crew, &mut posts);
    run_posts(rt, alloc, &desk, policy, &mut posts);
    relieve(&mut passes, crew, posts);
    let closed = desk.close(passes);
    closed.book().keeps();
    closed
}

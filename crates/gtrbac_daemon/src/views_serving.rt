//! The service of a crew and of viewers, who look at what it does without a turn.
ghost use Rattle.std.specs.Prelude.{◌≡◌, ◌<◌, ◌≤◌, ℕ, [], true, length, vec_capacity, All, IfOk, OnErr, slice_index_or};
ghost use Rattle.std.specs.List.{list_all};
ghost use Rattle.turn_lock.specs.Holders.{site_of, newcomers};
ghost use Rattle.turn_lock.specs.Turns.{part};
ghost use Rattle.connection_laws.specs.Turns.{IsIdle};
ghost use Rattle.connection_laws.specs.Connection.{IsTimed};
ghost use Rattle.connection_laws.specs.Desks.{MayBeAsked, RepliesCanBeTold};
ghost use Rattle.connection_laws.specs.Services.{service_at};
ghost use Rattle.line_server.specs.Working.{at_post, HasWorkedAtPost};
ghost use Rattle.snapshot_readers.specs.Seats.{watchers, AreToldOf, HasLooked, HasSettled, HaveViewed, IsReadySeat, SeatBySeat};
ghost use Rattle.gtrbac_daemon.specs.Crew.{crewmen};
ghost use Rattle.gtrbac_daemon.specs.Begins.{IsNewCrew, IsNewCompany, IsNewBoard};
ghost use Rattle.gtrbac_daemon.specs.Headline.{HaveWorked, CrewHeadline};

use crate::crews::{man, relieve};
use crate::serving::open;
use crate::tasks::both;
use core_machine::{Book, Ledger};
use gt_base::{Instant, Machine, Memory};
use gt_io::{Clock, Door, Gate};
use ledger_laws::glances_can_be_told;
use line_server::{Post, WorkEnd, Worker, run_posts};
use locked_history::Desk;
use policy_book::Policy;
use policy_safety::Safe;
use snapshot_readers::{
    Board, Glasses, Viewer, ViewerSeat, all_told, leave_seats, run_seats, settle_all, take_seats,
};
use std::alloc::{AllocError, Global};
use std::sync::Wait;
use std::thread::Threads;
use turn_lock::Passes;

/// A book of the same safe policy, without entries.
fn copy_of(alloc: Global, safe: &Safe, birth: Instant) -> Result<Book, Memory>
    ensures { IfOk result (λ b. (b.named ≡ safe.now) × (b.birth ≡ birth) × (b.entries ≡ [])) }
{
    let Ok(policy) = safe.policy().copied() else {
        return Err(AllocError);
    };
    let Ok(other) = Safe::admit(alloc, policy) else {
        return Err(AllocError);
    };
    let Ok(book) = Book::new(alloc, other, birth) else {
        return Err(AllocError);
    };
    Ok(book)
}

/// A safe policy, a board over its ledger at its birth, and a glass for each viewer.
pub(crate) fn open_board<'a, R: Wait>(
    rt: &'a R,
    alloc: Global,
    safe: Safe,
    birth: Instant,
    viewers: u32,
) -> Result<(Policy, Board<'a, R>, Glasses), Memory>
    requires viewers { (1 ≤ viewers) × (viewers ≤ 8) }
    ensures root { IfOk result (λ t. (t.0 ≡ safe) × (t.1.ledger.birth ≡ birth)) }
    ensures new { IfOk result (λ t. IsNewBoard t.0 viewers t.1.ledger t.2.items) }
{
    let policy = safe.policy().copied()?;
    let left = copy_of(alloc, &safe, birth)?;
    let right = copy_of(alloc, &safe, birth)?;
    let ledger = open(alloc, safe, birth)?;
    glances_can_be_told(&ledger);
    match Board::new(rt, alloc, ledger, left, right, viewers) {
        Ok((board, glasses)) => Ok((policy, board, glasses)),
        Err(_) => Err(AllocError),
    }
}

/// Lets the workers work at their posts and the viewers look from their seats, all at the same
/// time.
fn run_both<
    R: Threads + Wait + Sync,
    M: Machine + Send,
    D: Door + Send,
    C: Clock + Send,
    G: Gate + Send,
>(
    rt: &R,
    alloc: Global,
    desk: &Desk<M>,
    policy: &Policy,
    posts: &mut Vec<Post<M, D, C, G>>,
    seats: &mut Vec<ViewerSeat<D, G>>,
)
where
    D::L: Send,
    requires idle { All
        (λ p. IsIdle (site_of desk.now) p.pass × (p.worker.outcome ≡ WorkEnd.Fresh)
        × (p.worker.served.items ≡ []))
        posts.old.items }
    requires named { MayBeAsked policy.now (M.named desk.now.root) }
    requires replies { RepliesCanBeTold policy.now (M.legal desk.now.root) }
    requires ready { All (λ s. IsReadySeat policy.now s) seats.old.items }
    ensures posts { length posts.new.items ≡ length posts.old.items }
    ensures works { (i : ℕ) (d : _) → i < length posts.old.items
        → HasWorkedAtPost D.L.traffic (service_at M.list M.legal M.now_of desk.now policy.now)
        (site_of desk.now)
        (at_post C.readings D.doorway (slice_index_or posts.old.items i d))
        (at_post C.readings D.doorway (slice_index_or posts.new.items i d)) }
    ensures looked { SeatBySeat (HasLooked D.doorway D.L.traffic policy.now) seats.old.items
        seats.new.items }
{
    let work = |posts: &mut Vec<Post<M, D, C, G>>|
        requires { All
            (λ p. IsIdle (site_of desk.now) p.pass × (p.worker.outcome ≡ WorkEnd.Fresh)
            × (p.worker.served.items ≡ []))
            posts.now.items
            × MayBeAsked policy.now (M.named desk.now.root)
            × RepliesCanBeTold policy.now (M.legal desk.now.root) }
        ensures { (length posts.exit.now.items ≡ length posts.entry.now.items)
            × ((i : ℕ) (d : _) → i < length posts.entry.now.items
            → HasWorkedAtPost D.L.traffic
            (service_at M.list M.legal M.now_of desk.entry.now policy.entry.now)
            (site_of desk.entry.now)
            (at_post C.readings D.doorway (slice_index_or posts.entry.now.items i d))
            (at_post C.readings D.doorway (slice_index_or posts.exit.now.items i d))) }
    { run_posts(rt, alloc, desk, policy, posts) };
    let look = |seats: &mut Vec<ViewerSeat<D, G>>|
        requires { All (λ s. IsReadySeat policy.now s) seats.now.items }
        ensures { SeatBySeat (HasLooked D.doorway D.L.traffic policy.entry.now)
            seats.entry.now.items seats.exit.now.items }
    { run_seats(rt, alloc, policy, seats) };
    both(rt, &work, posts, &look, seats);
}

/// Lets the crew work at a desk, each worker with one of its passes and at one of the posts, and
/// the viewers look from their seats, and closes the desk, which comes with its passes.
fn serve_and_close<
    R: Threads + Wait + Sync,
    M: Machine + Send,
    D: Door + Send,
    C: Clock + Send,
    G: Gate + Send,
>(
    rt: &R,
    alloc: Global,
    policy: &Policy,
    opened: (Desk<M>, Passes<M>),
    crew: &mut Vec<Worker<D, C, G>>,
    mut posts: Vec<Post<M, D, C, G>>,
    seats: &mut Vec<ViewerSeat<D, G>>,
) -> M
where
    D::L: Send,
    requires named { MayBeAsked policy.now (M.named opened.0.root) }
    requires replies { RepliesCanBeTold policy.now (M.legal opened.0.root) }
    requires empty { M.list opened.0.root ≡ [] }
    requires count { opened.0.passes ≡ length crew.old.items }
    requires passes { opened.1.items ≡ newcomers opened.0 [] 0 (length crew.old.items) }
    requires posts { (posts.items ≡ []) × (length crew.old.items ≤ vec_capacity posts) }
    requires crew { IsNewCrew crew.old.items }
    requires ready { All (λ s. IsReadySeat policy.now s) seats.old.items }
    ensures root { M.same_root opened.0.root result }
    ensures worked { (birth : ℕ) → IsTimed birth (M.legal opened.0.root) (M.now_of opened.0.root)
        → HaveWorked D.L.traffic policy.now birth (M.list result) 0
        (crewmen C.readings D.doorway crew.old.items)
        (crewmen C.readings D.doorway crew.new.items) }
    ensures others { (n : ℕ) → length crew.old.items ≤ n → part n (M.list result) ≡ [] }
    ensures looked { SeatBySeat (HasLooked D.doorway D.L.traffic policy.now) seats.old.items
        seats.new.items }
{
    let (desk, mut passes) = opened;
    man(&mut passes, crew, &mut posts);
    run_both(rt, alloc, &desk, policy, &mut posts, seats);
    relieve(&mut passes, crew, posts);
    desk.close(passes)
}

/// Tells each glass the board's entries, and answers whether there was memory for that.
fn settle_up<'a, R: Threads + Wait + Sync, D: Door + Send, G: Gate + Send>(
    rt: &R,
    board: &mut Board<'a, R>,
    seats: &mut Vec<ViewerSeat<D, G>>,
) -> bool
where
    D::L: Send,
    ensures board { board.new.ledger ≡ board.old.ledger }
    ensures settled { SeatBySeat (HasSettled board.old.ledger.entries) seats.old.items
        seats.new.items }
    ensures told { result ≡ list_all (λ s. s.told) seats.new.items }
{
    let _ = board.catch_up();
    settle_all(rt, board.book().entries().as_slice(), seats.as_mut_slice());
    all_told(seats.as_slice())
}

/// Lets a crew and viewers serve at the board, which has no entries, each viewer with one of its
/// glasses. It answers the ledger, and whether each glass was told its entries. An error is want of
/// memory before anybody was served.
pub(crate) fn serve_at<
    'a,
    R: Threads + Wait + Sync,
    D: Door + Send,
    C: Clock + Send,
    G: Gate + Send,
>(
    rt: &'a R,
    alloc: Global,
    policy: &Policy,
    board: Board<'a, R>,
    mut glasses: Glasses,
    crew: &mut Vec<Worker<D, C, G>>,
    viewers: &mut Vec<Viewer<D, G>>,
) -> Result<(Ledger, bool), Memory>
where
    D::L: Send,
    requires board { IsNewBoard policy.now (length viewers.old.items) board.ledger glasses.items }
    requires company { IsNewCompany crew.old.items viewers.old.items }
    ensures err { OnErr result ((crew.new ≡ crew.old) × (viewers.new ≡ viewers.old)) }
    ensures root { IfOk result
        (λ t. (t.0.named ≡ policy.now) × (t.0.birth ≡ board.entry.ledger.birth)) }
    ensures headline { IfOk result
        (λ t. CrewHeadline D.L.traffic policy.now board.entry.ledger.birth
        (crewmen C.readings D.doorway crew.old.items)
        (crewmen C.readings D.doorway crew.new.items) t.0.entries) }
    ensures viewed { IfOk result
        (λ t. HaveViewed D.L.traffic policy.now board.entry.ledger.birth
        (watchers D.doorway viewers.old.items)
        (watchers D.doorway viewers.new.items)) }
    ensures told { IfOk result
        (λ t. t.1 ≡ true → AreToldOf D.L.traffic policy.now board.entry.ledger.birth t.0.entries
        (watchers D.doorway viewers.old.items)
        (watchers D.doorway viewers.new.items)) }
{
    let Ok(posts) = Vec::with_capacity(alloc, crew.len()) else {
        return Err(AllocError);
    };
    let Ok(mut seats) = Vec::with_capacity(alloc, viewers.len()) else {
        posts.destroy_empty();
        return Err(AllocError);
    };
    match Desk::new(alloc, board, crew.len() as u32) {
        Ok(opened) => {
            take_seats(&mut glasses, viewers, &mut seats);
            let mut board = serve_and_close(rt, alloc, policy, opened, crew, posts, &mut seats);
            let told = settle_up(rt, &mut board, &mut seats);
            leave_seats(viewers, seats);
            let ledger = board.into_ledger();
            ledger.book().keeps();
            Ok((ledger, told))
        }
        Err(_) => {
            posts.destroy_empty();
            seats.destroy_empty();
            Err(AllocError)
        }
    }
}

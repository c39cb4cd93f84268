//! The board: a book whose entries are published on two copies.
ghost use Rattle.std.specs.Prelude.{◌≡◌, ◌≤◌, ◌++◌, [], replicate, IfOk, OnOk, IfErr};
ghost use mathlib.Core.List.{IsPrefix};
ghost use Rattle.snapshot_readers.specs.Glazed.{fresh_glass};
ghost use Rattle.snapshot_readers.specs.Glances.{IsHistory};
ghost use Rattle.core_machine.specs.Books.{SameRoot};

use crate::book_copy::BookCopy;
use crate::glasses::Glasses;
use core::mem::replace_with;
use core_machine::{Book, Ledger};
use gt_base::{Entry, MAX_STEPS, Memory};
use policy_book::Policy;
use published_copies::Copies;
use std::alloc::Global;
use std::marker::Model;
use std::sync::Wait;

/// A ledger, and the copies on which its entries are published. It is seen as the book, and the
/// entries that are published, which are its first ones. It keeps the runtime, since to publish may
/// wait for a reader.
pub struct Board<'a, R: Wait> {
    pub(crate) rt: &'a R,
    pub(crate) ledger: Ledger,
    pub(crate) copies: Copies<BookCopy>,
    /// How many steps have come since it last published.
    steps: u32,
}

/// How many steps come before the board publishes them, where viewers need see none of them.
const MAX_STILL: u32 = 1_024;

impl<'a, R: Wait> Model for Board<'a, R> {
    ghost use Rattle.snapshot_readers.specs.Boards.{BoardView, board_code};

    ghost Value = { BoardView };

    ghost coded = { board_code };

    ghost use Rattle.std.specs.Prelude.{◌≡◌, ◌++◌};
    ghost use mathlib.Core.List.{IsPrefix};

    ghost view = { λ b. record { ledger = b.ledger; shown = b.copies.shown } };

    ghost invariant = { λ b. (b.copies.root ≡ (b.ledger.named, b.ledger.birth))
        × IsPrefix (b.copies.shown ++ b.copies.waiting) b.ledger.entries };
}

impl<'a, R: Wait> Drop for Board<'a, R> {
    fn drop(self) {
        let Board {
            rt,
            ledger: _,
            copies,
            steps: _,
        } = self;
        copies.end(rt);
    }
}

/// There was no memory for a board, or no place for a reader. The ledger comes back.
#[derive(Drop)]
pub struct BoardFault {
    pub ledger: Ledger,
}

impl<'a, R: Wait> Board<'a, R> {
    /// A board over a ledger and two books of one policy and birth, all without entries, and a
    /// glass for each viewer, which has seen nothing yet.
    pub fn new(
        rt: &'a R,
        alloc: Global,
        ledger: Ledger,
        left: Book,
        right: Book,
        viewers: u32,
    ) -> Result<(Board<'a, R>, Glasses), BoardFault>
        requires empty { (ledger.entries ≡ []) × (left.entries ≡ []) × (right.entries ≡ []) }
        requires alike { SameRoot ledger left × SameRoot ledger right }
        requires viewers { (1 ≤ viewers) × (viewers ≤ 8) }
        ensures board { IfOk result (λ t. t.0 ≡ record { ledger = ledger; shown = [] }) }
        ensures glasses { IfOk result
            (λ t. t.1.items ≡ replicate viewers (fresh_glass ledger.named ledger.birth)) }
        ensures err { IfErr result (λ e. e.ledger ≡ ledger) }
    {
        match set_up(rt, alloc, left, right, viewers, ledger.book().policy()) {
            Ok((copies, glasses)) => Ok((
                Board {
                    rt,
                    ledger,
                    copies,
                    steps: 0,
                },
                glasses,
            )),
            Err(_) => Err(BoardFault { ledger }),
        }
    }

    /// The book.
    pub fn book(&self) -> &Book
        ensures { result.now ≡ self.now.ledger }
    {
        self.ledger.book()
    }

    /// Publishes all entries. For want of memory some may wait for the next call.
    pub fn catch_up(&mut self) -> Result<(), Memory>
        ensures ledger { self.new.ledger ≡ self.old.ledger }
        ensures all { OnOk result (self.new.shown ≡ self.new.ledger.entries) }
    {
        self.ledger.keeps();
        let entries = self.ledger.book().entries().as_slice();
        let done = replace_with(&mut self.copies, (self.rt, entries), brought_up);
        self.steps = if done.is_ok() { 0 } else { MAX_STILL };
        done
    }

    /// Counts a step. Behind one that viewers are to see, each 1,024th and one that fills the
    /// history it publishes what there is memory for.
    pub(crate) fn follow(&mut self, seen: bool)
        ensures { self.new.ledger ≡ self.old.ledger }
    {
        self.steps = self.steps.saturating_add(1);
        if seen || self.steps >= MAX_STILL || self.book().entries().len() >= MAX_STEPS {
            let _ = self.catch_up();
        }
    }

    /// The ledger alone.
    pub fn into_ledger(self) -> Ledger
        ensures { result ≡ self.entry.ledger }
    {
        let Board {
            rt,
            ledger,
            copies,
            steps: _,
        } = self;
        copies.end(rt);
        ledger
    }
}

/// The copies, brought up to the entries.
fn brought_up<R: Wait>(
    copies: Copies<BookCopy>,
    with: (&R, &[Entry]),
) -> (Copies<BookCopy>, Result<(), Memory>)
    requires front { IsPrefix (copies.shown ++ copies.waiting) with.1.now }
    requires history { IsHistory copies.root.0.policy copies.root.1 with.1.now }
    ensures root { result.0.root ≡ copies.root }
    ensures front { IsPrefix (result.0.shown ++ result.0.waiting) with.entry.1.now }
    ensures all { OnOk result.1 (result.0.shown ≡ with.entry.1.now) }
{
    copies.catch_up(with.0, with.1)
}

/// The copies, and a glass for each viewer. The policy is that of the books.
fn set_up<R: Wait>(
    rt: &R,
    alloc: Global,
    left: Book,
    right: Book,
    viewers: u32,
    policy: &Policy,
) -> Result<(Copies<BookCopy>, Glasses), Memory>
    requires empty { (left.entries ≡ []) × (right.entries ≡ []) }
    requires alike { SameRoot left right }
    requires viewers { (1 ≤ viewers) × (viewers ≤ 8) }
    requires policy { left.named ≡ policy.now }
    ensures copies { IfOk result
        (λ t. t.0 ≡ record { root = (left.named, left.birth); shown = []; waiting = [] }) }
    ensures glasses { IfOk result
        (λ t. t.1.items ≡ replicate viewers (fresh_glass left.named left.birth)) }
{
    let birth = left.birth();
    left.keeps();
    let first = BookCopy::new(alloc, left);
    let second = BookCopy::new(alloc, right);
    let mut copies = Copies::new(rt, alloc, first, second, viewers as usize)?;
    match Glasses::over(alloc, &mut copies, viewers, policy, birth) {
        Ok(glasses) => Ok((copies, glasses)),
        Err(fault) => {
            copies.end(rt);
            Err(fault)
        }
    }
}

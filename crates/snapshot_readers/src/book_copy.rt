//! A book on which the entries of another are played that do not only look. What comes of each is
//! held against the entry, so that the entries that agree are those that were sent.
ghost use Rattle.std.specs.Prelude.{◌≡◌, ◌+◌, ◌<◌, ◌++◌, ◌∷◌, [], true, take, IfSome, MatchResult};
ghost use mathlib.Core.List.{IsPrefix};
ghost use Rattle.gt_base.specs.Machines.{ticked, asked};
ghost use Rattle.gt_base.specs.declared.limits.TheConstants.{MAX_STEPS};
ghost use Rattle.history_laws.specs.Looks.{looks, without_looks};
ghost use Rattle.core_machine.specs.Books.{SameRoot};

use crate::named::names;
use core_machine::{Book, only_looks};
use gt_base::{Actor, Entry, Instant, List, MAX_STEPS, Reply, Request, Step, Who};
use left_right::Absorb;
use policy_book::Policy;
use published_copies::{Batch, Replica};
use same_entries::{same_entry, same_reply};
use std::alloc::{AllocError, Global};
use std::collections::LinkedList;
use std::marker::Model;

/// The batches that were taken in and how many entries they have, a book on which those of these
/// were played that do not only look, and how many of its entries agree with them. Where not all of
/// them do, nothing is answered from it. It is seen as the policy and birth of the book, and all
/// entries of the batches.
pub struct BookCopy {
    pub(crate) book: Book,
    pub(crate) good: usize,
    pub(crate) batches: List<Batch>,
    pub(crate) len: usize,
}

impl Model for BookCopy {
    ghost use Rattle.snapshot_readers.specs.Glazed.{Glazed};

    ghost Value = { Glazed };

    ghost use Rattle.std.specs.Prelude.{◌≡◌, length, take};
    ghost use Rattle.history_laws.specs.Looks.{without_looks};
    ghost use Rattle.published_copies.specs.Copied.{joined};

    ghost view = { λ c. record {
      named = c.book.named;
      birth = c.book.birth;
      seen = joined c.batches.items;
    } };

    ghost invariant = { λ c. (c.len ≡ length (joined c.batches.items))
        × (without_looks (joined c.batches.items) ≡ take c.good c.book.entries) };
}

impl Drop for BookCopy {
    fn drop(self) {
        let BookCopy {
            book: _,
            good: _,
            batches: _,
            len: _,
        } = self;
    }
}

impl BookCopy {
    /// The copy with nothing taken in, over a book without entries.
    pub fn new(alloc: Global, book: Book) -> BookCopy
        ensures root { (result.named ≡ book.named) × (result.birth ≡ book.birth) }
        ensures empty { result.seen ≡ [] }
    {
        BookCopy {
            book,
            good: 0,
            batches: List::new(alloc),
            len: 0,
        }
    }

    /// Takes the batch in, and plays those of its entries that do not only look. It comes back for
    /// want of memory, or where what came of one of them is not that entry.
    fn take_in(&mut self, batch: Batch) -> Result<(), Batch>
        ensures root { (self.new.named ≡ self.old.named) × (self.new.birth ≡ self.old.birth) }
        ensures seen { MatchResult result (λ _. self.new.seen ≡ self.old.seen ++ batch)
            (λ b. (b ≡ batch) × (self.new.seen ≡ self.old.seen)) }
    {
        if self.batches.reserve(1).is_err() {
            return Err(batch);
        }
        let Some(len) = self.len.checked_add(batch.as_slice().len()) else {
            return Err(batch);
        };
        match plays(&mut self.book, self.good, batch.as_slice()) {
            Some(good) => self.good = good,
            None => return Err(batch),
        }
        self.len = len;
        self.batches.push(batch);
        Ok(())
    }
}

impl Absorb<Batch> for BookCopy {
    type State = ((Policy, Instant), LinkedList<Entry>);

    ghost use Rattle.std.specs.Prelude.{◌++◌};

    ghost state = { λ c. ((c.named, c.birth), c.seen) };

    ghost applied = { λ s es. (s.0, s.1 ++ es) };

    fn absorb_first(&mut self, batch: &Batch, _other: &BookCopy) -> Result<(), AllocError> {
        match self.take_in(batch.shared()?) {
            Ok(()) => Ok(()),
            Err(_) => Err(AllocError),
        }
    }

    fn absorb_second(&mut self, batch: Batch, _other: &BookCopy) -> Result<(), Batch> {
        self.take_in(batch)
    }
}

impl Replica for BookCopy {
    type Root = (Policy, Instant);

    ghost use Rattle.std.specs.Prelude.{refl};
    ghost use Rattle.snapshot_readers.specs.Glances.{IsHistory};

    ghost root = { λ s. s.0 };

    ghost list = { λ s. s.1 };

    ghost sound = { λ s. IsHistory s.0.0.policy s.0.1 s.1 };

    ghost adds = { λ s es. (refl, refl) };
}

/// Whether the step is a request that only looks.
fn looks(step: &Step) -> bool
    ensures { result ≡ looks step.now }
{
    match step {
        Step::Tick { .. } => false,
        Step::Ask { request, .. } => only_looks(request),
    }
}

/// Ticks again, and says whether the tick went to the same instant.
fn tick_again(book: &mut Book, who: Who, upto: Instant, to: Instant) -> bool
    ensures root { SameRoot book.old book.new }
    ensures front { IsPrefix book.old.entries book.new.entries }
    ensures same { result ≡ true
        → book.new.entries ≡ book.old.entries ++ ticked who upto to ∷ [] }
{
    let before = book.entries().len();
    match book.tick(who, upto) {
        Ok(now) => now.minute() == to.minute() && book.entries().len() != before,
        Err(_) => false,
    }
}

/// Asks again, and says whether the reply was the same.
fn ask_again(book: &mut Book, who: Who, actor: Actor, request: Request, reply: &Reply) -> bool
    ensures root { SameRoot book.old book.new }
    ensures front { IsPrefix book.old.entries book.new.entries }
    ensures same { result ≡ true
        → book.new.entries ≡ book.old.entries ++ asked who actor request reply.now ∷ [] }
{
    if !names(book.policy(), actor, &request) {
        return false;
    }
    match book.ask(who, actor, request) {
        Ok(answer) => same_reply(&answer, reply),
        Err(_) => false,
    }
}

/// Takes the step of an entry again, and says whether the same entry came of it.
fn repeat(book: &mut Book, entry: &Entry) -> bool
    ensures root { SameRoot book.old book.new }
    ensures front { IsPrefix book.old.entries book.new.entries }
    ensures same { result ≡ true → book.new.entries ≡ book.old.entries ++ entry.now ∷ [] }
{
    match &entry.what {
        Step::Tick { upto, to } => tick_again(book, entry.who, *upto, *to),
        Step::Ask {
            actor,
            request,
            reply,
        } => ask_again(book, entry.who, *actor, *request, reply),
    }
}

/// Whether the entry agrees with the one of the book that comes behind so many, as which it is
/// played where the book has no more.
fn agrees(book: &mut Book, good: usize, entry: &Entry) -> bool
    ensures root { SameRoot book.old book.new }
    ensures front { take good book.new.entries ≡ take good book.old.entries }
    ensures same { result ≡ true → (good < MAX_STEPS)
        × (take (good + 1) book.new.entries ≡ take good book.old.entries ++ entry.now ∷ []) }
{
    if good >= MAX_STEPS || good > book.entries().len() {
        return false;
    }
    match book.entries().get(good) {
        Some(played) => same_entry(played, entry),
        None => repeat(book, entry),
    }
}

/// Plays those of the entries that do not only look on a book of which so many entries agree, but
/// for those that are played already. It answers how many agree then, if each of them does.
fn plays(book: &mut Book, good: usize, entries: &[Entry]) -> Option<usize>
    ensures root { SameRoot book.old book.new }
    ensures front { take good book.new.entries ≡ take good book.old.entries }
    ensures all { IfSome result (λ n. take n book.new.entries
        ≡ take good book.old.entries ++ without_looks entries.now) }
{
    let mut upto = good;
    for entry in entries {
        if !looks(&entry.what) {
            if !agrees(book, upto, entry) {
                return None;
            }
            upto += 1;
        }
    }
    Some(upto)
}

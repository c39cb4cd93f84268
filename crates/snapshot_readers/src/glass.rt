//! A glass, which looks at what the board published last.
ghost use Rattle.std.specs.Prelude.{◌≡◌, ℕ, true, Some, IfOk};
ghost use mathlib.Core.List.{IsPrefix};
ghost use Rattle.policy_words.specs.Naming.{NamedPolicy};
ghost use Rattle.history_laws.specs.Looks.{is_look};
ghost use Rattle.snapshot_readers.specs.Glances.{IsGlance, IsHistory};

use crate::book_copy::BookCopy;
use core::mem::replace_with;
use gt_base::{Actor, Entry, Instant, Memory, Reply, Request};
use policy_book::Policy;
use published_copies::Sight;
use same_entries::begins;
use std::alloc::AllocError;
use std::marker::Model;
use std::snapshot::Snapshot;

/// What a glance shows: the reply, the instant of the history that was seen, and how many entries
/// it has.
#[derive(Drop)]
pub struct Glanced {
    pub reply: Reply,
    pub at: Instant,
    pub len: u64,
}

/// A reader of a board. It is seen as the policy and birth of the board, and the history that it
/// has seen.
pub struct Glass {
    sight: Sight<BookCopy>,
    policy: Snapshot<Policy>,
    birth: Instant,
}

impl Model for Glass {
    ghost use Rattle.snapshot_readers.specs.Glazed.{Glazed};

    ghost Value = { Glazed };

    ghost use Rattle.std.specs.Prelude.{◌≡◌, Some};

    ghost view = { λ g. record { named = g.policy.value; birth = g.birth; seen = g.sight.seen } };

    ghost invariant = { λ g. g.sight.root ≡ Some (g.policy.value, g.birth) };
}

impl Drop for Glass {
    fn drop(self) {
        let Glass {
            sight: _,
            policy: _,
            birth: _,
        } = self;
    }
}

/// Answers from a copy, where all entries of its book agree with those that were sent.
fn peek_at(copy: &BookCopy, actor: Actor, request: Request) -> Result<Glanced, Memory>
    requires looks { is_look request ≡ true }
    requires history { IsHistory copy.now.named.policy copy.now.birth copy.now.seen }
    ensures { IfOk result
        (λ g. IsGlance copy.now.named.policy copy.now.birth copy.now.seen actor request g) }
{
    if copy.good != copy.book.entries().len() {
        return Err(AllocError);
    }
    let reply = copy.book.peek(actor, request)?;
    Ok(Glanced {
        reply,
        at: copy.book.now(),
        len: copy.len as u64,
    })
}

/// Whether the entries are those of the copy.
fn shows_all(copy: &BookCopy, entries: &[Entry]) -> bool
    ensures { result ≡ true → entries.now ≡ copy.now.seen }
{
    if entries.len() != copy.len {
        return false;
    }
    let mut at = 0;
    for batch in copy.batches.as_slice() {
        let (_, rest) = entries.split_at(at);
        if !begins(batch.as_slice(), rest) {
            return false;
        }
        at += batch.as_slice().len();
    }
    true
}

/// A look at the copy that was published last, with the answer from it.
fn glance_by(
    sight: Sight<BookCopy>,
    asked: (Actor, Request),
) -> (Sight<BookCopy>, Result<Glanced, Memory>)
    requires { is_look asked.1 ≡ true }
    ensures root { (r : NamedPolicy × ℕ) → sight.root ≡ Some r → result.0.root ≡ Some r }
    ensures seen { IsPrefix sight.seen result.0.seen }
    ensures ok { (r : NamedPolicy × ℕ) → sight.root ≡ Some r
        → IfOk result.1 (λ g. IsGlance r.0.policy r.1 result.0.seen asked.0 asked.1 g) }
{
    match sight.look() {
        Ok(looking) => {
            let answer = peek_at(looking.get(), asked.0, asked.1);
            (looking.leave(), answer)
        }
        Err(sight) => (sight, Err(AllocError)),
    }
}

/// A look at the copy that was published last, and whether it has these entries.
fn told_by<'a>(sight: Sight<BookCopy>, entries: &'a [Entry]) -> (Sight<BookCopy>, bool)
    ensures root { (r : NamedPolicy × ℕ) → sight.root ≡ Some r → result.0.root ≡ Some r }
    ensures seen { IsPrefix sight.seen result.0.seen }
    ensures told { result.1 ≡ true → IsPrefix entries.now result.0.seen }
{
    match sight.look() {
        Ok(looking) => {
            let told = shows_all(looking.get(), entries);
            (looking.leave(), told)
        }
        Err(sight) => (sight, false),
    }
}

impl Glass {
    /// A glass over what a reader sees, of a history of this policy since this birth.
    pub(crate) fn over(sight: Sight<BookCopy>, policy: &Policy, birth: Instant) -> Glass
        requires { sight.root ≡ Some (policy.now, birth) }
        ensures { result ≡ record { named = policy.now; birth = birth; seen = sight.seen } }
    {
        Glass {
            sight,
            policy: Snapshot::of(policy),
            birth,
        }
    }

    /// Answers a request that only looks, from the history that was published last, without the
    /// lock. That history begins with all that this glass had seen. For want of memory there is no
    /// answer, and the glass may have seen more.
    pub fn glance(&mut self, actor: Actor, request: Request) -> Result<Glanced, Memory>
        requires { is_look request ≡ true }
        ensures root { (self.new.named ≡ self.old.named) × (self.new.birth ≡ self.old.birth) }
        ensures seen { IsPrefix self.old.seen self.new.seen }
        ensures ok { IfOk result
            (λ g. IsGlance self.new.named.policy self.new.birth self.new.seen actor request g) }
    {
        replace_with(&mut self.sight, (actor, request), glance_by)
    }

    /// Looks whether the entries are the history that was published last. Where they are, all that
    /// the glass sees from now on begins with them.
    pub fn told(&mut self, entries: &[Entry]) -> bool
        ensures root { (self.new.named ≡ self.old.named) × (self.new.birth ≡ self.old.birth) }
        ensures seen { IsPrefix self.old.seen self.new.seen }
        ensures told { result ≡ true → IsPrefix entries.now self.new.seen }
    {
        replace_with(&mut self.sight, entries, told_by)
    }
}

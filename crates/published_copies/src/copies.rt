//! The copies, as their writer holds them.
ghost use Rattle.std.specs.Prelude.{◌≡◌, ◌+◌, ◌^◌, ◌<◌, [], ◌++◌, IfOk, OnOk, MatchResult};
ghost use mathlib.Core.List.{IsPrefix};
ghost use Rattle.published_copies.specs.Views.{sight};

use crate::batch::Batch;
use crate::looking::Sight;
use crate::notes::{Learning, Telling};
use crate::replica::Replica;
use crate::views::{Growing, ReaderView, Sees};
use gt_base::{Entry, Memory};
use left_right::writer::Writer;
use std::alloc::{AllocError, Global};
use std::marker::Model;
use std::sync::Wait;

/// Two copies of a replica, of which readers look at one. They are seen as their root, the entries
/// that are published, and those that were sent and are not published yet. End them by `end`.
pub struct Copies<T: Replica> {
    writer: Writer<T, Batch, ReaderView<T::Root>, Growing>,
    alloc: Global,
    /// How many entries were sent.
    sent: usize,
}

impl<T: Replica> Model for Copies<T> {
    ghost use Rattle.published_copies.specs.Copied.{Copied, joined};

    ghost Value = { Copied T.Root };

    ghost use Rattle.std.specs.Prelude.{◌≡◌, ◌+◌, length, drop};
    ghost use Rattle.left_right.specs.Sides.{view as known};
    ghost use Rattle.published_copies.specs.Views.{sight};

    ghost view = { λ c. record {
      root = T.root (T.state c.writer.desk.shown.value);
      shown = T.list (T.state c.writer.desk.shown.value);
      waiting = joined (drop c.writer.behind c.writer.log.items);
    } };

    ghost invariant = { λ c.
        (known c.writer.desk.place
        ≡ sight (T.root (T.state c.writer.desk.shown.value))
        (T.list (T.state c.writer.desk.shown.value)))
        × (c.sent
        ≡ length (T.list (T.state c.writer.desk.shown.value))
        + length (joined (drop c.writer.behind c.writer.log.items))) };
}

impl<T: Replica> Copies<T> {
    /// Copies of one root on which nothing was played, with room for so many readers.
    pub fn new<R: Wait>(
        rt: &R,
        alloc: Global,
        first: T,
        second: T,
        readers: usize,
    ) -> Result<Copies<T>, Memory>
        requires readers { (0 < readers) × (readers < 2 ^ 32) }
        requires alike { T.state first ≡ T.state second }
        requires empty { T.list (T.state first) ≡ [] }
        requires sound { T.sound (T.state first) }
        ensures { IfOk result
            (λ c. c ≡ record { root = T.root (T.state first); shown = []; waiting = [] }) }
    {
        let writer = Writer::new(alloc, first, second, readers)?;
        let (writer, told) = writer.publish_as::<Sees, R>(rt);
        match told {
            Ok(()) => Ok(Copies {
                writer,
                alloc,
                sent: 0,
            }),
            Err(_) => {
                writer.take(rt);
                Err(AllocError)
            }
        }
    }

    /// A reader, which knows the root and what is published. For want of memory or of a place for
    /// it there is none.
    pub fn reader(&mut self) -> Result<Sight<T>, Memory>
        ensures kept { self.new ≡ self.old }
        ensures reader { IfOk result (λ s. s ≡ sight self.old.root self.old.shown) }
    {
        let mut reader = self.writer.factory().reader()?;
        reader.learn::<Learning>(self.writer.tell::<Telling>());
        Ok(Sight { reader })
    }

    /// Sends copies of those of the entries that were not sent. For want of memory none is sent.
    fn send_rest(&mut self, entries: &[Entry]) -> Result<(), Memory>
        requires { IsPrefix (self.old.shown ++ self.old.waiting) entries.now }
        ensures same { (self.new.root ≡ self.old.root) × (self.new.shown ≡ self.old.shown) }
        ensures sent { MatchResult result (λ _. self.new.shown ++ self.new.waiting ≡ entries.now)
            (λ _. self.new ≡ self.old) }
    {
        if self.sent < entries.len() {
            let (_, rest) = entries.split_at(self.sent);
            match self.writer.append(Batch::of(self.alloc, rest)?) {
                Ok(()) => self.sent = entries.len(),
                Err(_) => return Err(AllocError),
            }
        }
        Ok(())
    }

    /// Publishes what waits. Where nothing waits no copy is touched and no reader waited for. For
    /// want of memory in the copy that is brought up nothing is published.
    fn publish<R: Wait>(self, rt: &R) -> (Copies<T>, Result<(), Memory>)
        requires sound { (s : T.State) → T.root s ≡ self.root → T.list s ≡ self.shown ++ self.waiting
            → T.sound s }
        ensures { MatchResult result.1
            (λ _. result.0
            ≡ record { root = self.root; shown = self.shown ++ self.waiting; waiting = [] })
            (λ _. result.0 ≡ self) }
    {
        if !self.writer.has_pending_operations() {
            return (self, Ok(()));
        }
        let Copies {
            writer,
            alloc,
            sent,
        } = self;
        let (writer, told) = writer.publish_as::<Sees, R>(rt);
        match told {
            Ok(()) => (
                Copies {
                    writer,
                    alloc,
                    sent,
                },
                Ok(()),
            ),
            Err(fault) => (
                Copies {
                    writer,
                    alloc,
                    sent,
                },
                Err(fault),
            ),
        }
    }

    /// Publishes all of the entries, of which those sent so far are the first ones. What there is
    /// no memory for waits for the next call.
    pub fn catch_up<R: Wait>(mut self, rt: &R, entries: &[Entry]) -> (Copies<T>, Result<(), Memory>)
        requires front { IsPrefix (self.shown ++ self.waiting) entries.now }
        requires sound { (s : T.State) → T.root s ≡ self.root → T.list s ≡ entries.now → T.sound s }
        ensures root { result.0.root ≡ self.root }
        ensures front { IsPrefix (result.0.shown ++ result.0.waiting) entries.now }
        ensures all { OnOk result.1 ((result.0.shown ≡ entries.now) × (result.0.waiting ≡ [])) }
    {
        match self.send_rest(entries) {
            Ok(()) => self.publish(rt),
            Err(fault) => (self, Err(fault)),
        }
    }

    /// Ends the copies. It waits for readers that look, and those find nothing from now on.
    pub fn end<R: Wait>(self, rt: &R) {
        let Copies {
            writer,
            alloc: _,
            sent: _,
        } = self;
        writer.take(rt);
    }
}

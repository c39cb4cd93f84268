//! Links, doors and clocks in memory.
ghost use Rattle.std.specs.Prelude.{◌≡◌, ◌<◌, ◌≤◌, ◌+◌, ◌-◌, ◌↔◌, true, false, length, min, Some, IfOk, IfSome, IsErr, IsTrue, All, MatchResult, MatchOption, slice_index, if◌then◌else◌};
ghost use Rattle.std.specs.Io.{ReadsAtMost};
ghost use Rattle.std.specs.Io.KnownBytes.{ReadConsumes, WriteAppends};
ghost use Rattle.gt_io.specs.Causes.{CountsEnd, HasCause, RisesOnce};
ghost use Rattle.gt_io.specs.Links.{IsFresh, tallied, GivesFirst, GivesNone, ReadsNothing, WritesNothing};
ghost use Rattle.gt_io.specs.Memory.{supply_of, store_of, none_made, fails_next, answered, refused, GivesPiece, TakesPiece};

use crate::calls::{Calls, count_none};
use crate::link::{Clock, Door, Gate, Link};
use crate::memory::{MemSink, MemSource};
use crate::source::{Failed, Sink, Source};
use gt_base::{Instant, List, Memory};
use std::alloc::Global;
use std::collections::VecDeque;

/// A link whose bytes are given ahead: it is read as a source in memory is, and written as a sink
/// is. It tells whether it was let go.
#[derive(Drop)]
pub struct MemLink {
    source: MemSource,
    sink: MemSink,
    finished: bool,
}

impl MemLink {
    /// Takes its room at once. A piece is the most that one call gives or takes. Reads and writes
    /// are numbered from 1 apart, and those of `bad_reads` and of `bad_writes` fail.
    pub fn new(
        alloc: Global,
        bytes: List<u8>,
        room: usize,
        read_piece: usize,
        write_piece: usize,
        bad_reads: List<u64>,
        bad_writes: List<u64>,
    ) -> Result<MemLink, Memory>
        requires reads { 0 < read_piece }
        requires writes { 0 < write_piece }
        ensures source { IfOk result
            (λ l. l.source ≡ supply_of bytes.items read_piece bad_reads.items) }
        ensures sink { IfOk result (λ l. l.sink ≡ store_of room write_piece bad_writes.items) }
        ensures open { IfOk result (λ l. l.finished ≡ false) }
    {
        Ok(MemLink {
            source: MemSource::new(bytes, read_piece, bad_reads),
            sink: MemSink::new(alloc, room, write_piece, bad_writes)?,
            finished: false,
        })
    }

    /// What was written to it so far.
    pub fn given(&self) -> &List<u8>
        ensures { result.now.items ≡ self.now.sink.written }
    {
        self.sink.written()
    }

    /// Whether it was let go.
    pub fn finished(&self) -> bool
        ensures { result ≡ self.now.finished }
    {
        self.finished
    }
}

impl Link for MemLink {
    ghost traffic = { λ l. record {
      left = Some l.source.left;
      taken = Some l.source.taken;
      given = Some l.sink.written;
      read_faults = l.source.calls.faults;
      write_faults = l.sink.calls.faults;
      ends = l.source.ends;
      finished = l.finished;
    } };

    fn read(&mut self, buf: &mut [u8]) -> Result<usize, Failed>
        requires { 0 < length buf.old }
        ensures bound { ReadsAtMost result buf.new }
        ensures bytes { ReadConsumes (Some self.old.source.left)
            (Some self.new.source.left) result buf.new }
        ensures taken { WriteAppends (Some self.old.source.taken)
            (Some self.new.source.taken) result buf.new }
        ensures cause { HasCause self.old.source.calls.faults self.new.source.calls.faults result }
        ensures once { RisesOnce self.old.source.calls.faults self.new.source.calls.faults result }
        ensures writes { WritesNothing (⟦<MemLink as Link>⟧.traffic self.old)
            (⟦<MemLink as Link>⟧.traffic self.new) }
        ensures ends { CountsEnd self.old.source.ends self.new.source.ends result }
        ensures source { GivesPiece self.old.source self.new.source (length buf.old) result }
        ensures held { self.new.finished ≡ self.old.finished }
        ensures sink { self.new.sink ≡ self.old.sink }
    {
        self.source.read(buf)
    }

    fn write(&mut self, piece: &[u8]) -> Result<usize, Failed>
        requires { 0 < length piece.now }
        ensures bound { IfOk result (λ n. (0 < n) × (n ≤ length piece.now)) }
        ensures bytes { WriteAppends (Some self.old.sink.written)
            (Some self.new.sink.written) result
            piece.now }
        ensures cause { HasCause self.old.sink.calls.faults self.new.sink.calls.faults result }
        ensures once { RisesOnce self.old.sink.calls.faults self.new.sink.calls.faults result }
        ensures reads { ReadsNothing (⟦<MemLink as Link>⟧.traffic self.old)
            (⟦<MemLink as Link>⟧.traffic self.new) }
        ensures held { self.new.finished ≡ self.old.finished }
        ensures source { self.new.source ≡ self.old.source }
        ensures sink { TakesPiece self.old.sink self.new.sink piece.now result }
    {
        self.sink.write(piece)
    }

    fn finish(&mut self)
        ensures reads { ReadsNothing (⟦<MemLink as Link>⟧.traffic self.old)
            (⟦<MemLink as Link>⟧.traffic self.new) }
        ensures writes { WritesNothing (⟦<MemLink as Link>⟧.traffic self.old)
            (⟦<MemLink as Link>⟧.traffic self.new) }
        ensures finished { self.new ≡ record self.old { finished = true } }
    {
        self.finished = true;
    }
}

/// A door whose links are given ahead. It gives them also when it was closed.
#[derive(Drop)]
pub struct MemDoor {
    links: VecDeque<MemLink>,
    calls: Calls,
    ends: u64,
    closed: bool,
    ghost fresh: { All (λ l. IsFresh (⟦<MemLink as Link>⟧.traffic l)) links.items },
}

impl MemDoor {
    /// Calls are numbered from 1, and those of `failing` fail.
    pub fn new(links: VecDeque<MemLink>, failing: List<u64>) -> MemDoor
        requires { All (λ l. IsFresh (⟦<MemLink as Link>⟧.traffic l)) links.items }
        ensures links { result.links.items ≡ links.items }
        ensures calls { result.calls ≡ none_made failing.items }
        ensures ends { result.ends ≡ 0 }
        ensures open { result.closed ≡ false }
    {
        MemDoor {
            links,
            calls: Calls::new(failing),
            ends: 0,
            closed: false,
        }
    }

    /// Whether it was closed.
    pub fn closed(&self) -> bool
        ensures { result ≡ self.now.closed }
    {
        self.closed
    }
}

impl Door for MemDoor {
    type L = MemLink;

    ghost doorway = { λ d. record {
      links = Some d.links.items;
      tally = record { faults = d.calls.faults; ends = d.ends };
      closed = d.closed;
    } };

    fn next(&mut self) -> Result<Option<MemLink>, Failed>
        ensures links { MatchResult result
            (λ next. MatchOption next
            (GivesNone (Some self.old.links.items) (Some self.new.links.items))
            (λ link. GivesFirst (Some self.old.links.items) (Some self.new.links.items)
            link))
            (λ _. Some self.new.links.items ≡ Some self.old.links.items) }
        ensures fresh { IfOk result (λ next. IfSome next
            (λ link. IsFresh (⟦<MemLink as Link>⟧.traffic link))) }
        ensures tally { (⟦<MemDoor as Door>⟧.doorway self.new).tally
            ≡ tallied result (⟦<MemDoor as Door>⟧.doorway self.old).tally }
        ensures listed { IsErr result ↔ IsTrue (fails_next self.old.calls) }
        ensures calls { self.new.calls
            ≡ (if fails_next self.old.calls then refused self.old.calls else answered
            self.old.calls) }
        ensures closed { self.new.closed ≡ self.old.closed }
    {
        if self.calls.begin() {
            return Err(Failed);
        }
        let next = self.links.pop_front();
        self.ends = count_none(self.ends, &next);
        Ok(next)
    }

    fn rest(&mut self)
        ensures { self.new ≡ self.old }
    {}

    fn close(&mut self)
        ensures { self.new ≡ record self.old { closed = true } }
    {
        self.closed = true;
    }
}

/// A clock whose readings are given ahead; it repeats the last one.
#[derive(Drop)]
pub struct MemClock {
    readings: List<Instant>,
    at: usize,
    ghost within: { at < length readings.items },
}

impl MemClock {
    /// The readings are not empty.
    pub fn new(readings: List<Instant>) -> MemClock
        requires { 0 < length readings.items }
        ensures { ⟦<MemClock as Clock>⟧.readings result
            ≡ Some (λ k. slice_index readings.items (min k (length readings.items - 1))) }
    {
        MemClock { readings, at: 0 }
    }
}

impl Clock for MemClock {
    ghost readings = { λ c. Some (λ k. slice_index c.readings.items
        (min (c.at + k) (length c.readings.items - 1))) };

    fn now(&mut self) -> Instant {
        let reading = self.readings.as_slice()[self.at];
        if self.at + 1 < self.readings.len() {
            self.at += 1;
        }
        reading
    }
}

/// A gate that nobody waits at.
#[derive(Clone, Copy)]
pub struct OpenGate;

impl Gate for OpenGate {
    fn pass(&self, _worker: u32, _call: u64) {}

    fn may_wait(&self) -> bool {
        false
    }
}

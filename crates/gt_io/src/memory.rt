//! Sources and sinks in memory, which fail at the calls that they are told.
ghost use Rattle.std.specs.Prelude.{◌≡◌, ◌<◌, ◌≤◌, ◌+◌, ◌++◌, [], length, take, drop, min, Some, IfOk};
ghost use Rattle.std.specs.Io.{ReadsAtMost};
ghost use Rattle.std.specs.Io.KnownBytes.{ReadConsumes, WriteAppends};
ghost use Rattle.gt_io.specs.Causes.{AtMostOnce, CountsEnd, HasCause};
ghost use Rattle.gt_io.specs.Memory.{supply_of, store_of, GivesPiece, TakesPiece};

use crate::calls::{Calls, count_end};
use crate::source::{Failed, Sink, Source};
use gt_base::{List, Memory};
use std::alloc::Global;
use std::marker::Model;

/// Copies the bytes from place `at` on, at most `piece` of them, and answers how many.
pub(crate) fn give(bytes: &[u8], at: usize, buf: &mut [u8], piece: usize) -> usize
    requires at { at ≤ length bytes.now }
    requires piece { 0 < piece }
    ensures number { result ≡ min (length (drop at bytes.now)) (min (length buf.new) piece) }
    ensures given { drop at bytes.now ≡ take result buf.new ++ drop (at + result) bytes.now }
    ensures taken { take (at + result) bytes.now ≡ take at bytes.now
        ++ take result (drop at bytes.now) }
    ensures left { drop (at + result) bytes.now ≡ drop result (drop at bytes.now) }
    ensures end { result ≡ 0 → 0 < length buf.new → drop (at + result) bytes.now ≡ [] }
{
    let (_, rest) = bytes.split_at(at);
    let n = rest.len().min(buf.len().min(piece));
    let (front, _) = rest.split_at(n);
    buf[..n].copy_from_slice(front);
    n
}

/// Bytes to read, of which one call gives a piece at most. It is seen as the bytes taken, those
/// left, the piece, the calls and how many of them told the end.
#[derive(Drop)]
pub struct MemSource {
    bytes: List<u8>,
    at: usize,
    piece: usize,
    calls: Calls,
    ends: u64,
}

impl Model for MemSource {
    ghost use Rattle.std.specs.Prelude.{◌<◌, ◌≤◌, length, take, drop};
    ghost use Rattle.gt_io.specs.Memory.{Supply};

    ghost Value = { Supply };

    ghost view = { λ s. record {
      taken = take s.at s.bytes.items;
      left = drop s.at s.bytes.items;
      piece = s.piece;
      calls = s.calls;
      ends = s.ends;
    } };

    ghost invariant = { λ s. (0 < s.piece) × (s.at ≤ length s.bytes.items) };
}

impl MemSource {
    /// Calls are numbered from 1, and those of `failing` fail. A piece is the most that one call
    /// gives.
    pub fn new(bytes: List<u8>, piece: usize, failing: List<u64>) -> MemSource
        requires { 0 < piece }
        ensures { result ≡ supply_of bytes.items piece failing.items }
    {
        MemSource {
            bytes,
            at: 0,
            piece,
            calls: Calls::new(failing),
            ends: 0,
        }
    }
}

impl Source for MemSource {
    ghost intake = { λ s. record { left = Some s.left; faults = s.calls.faults; ends = s.ends } };

    fn read(&mut self, buf: &mut [u8]) -> Result<usize, Failed>
        requires { 0 < length buf.old }
        ensures bound { ReadsAtMost result buf.new }
        ensures bytes { ReadConsumes (Some self.old.left) (Some self.new.left) result buf.new }
        ensures cause { HasCause self.old.calls.faults self.new.calls.faults result }
        ensures once { AtMostOnce self.old.calls.faults self.new.calls.faults }
        ensures ends { CountsEnd self.old.ends self.new.ends result }
        ensures piece { GivesPiece self.old self.new (length buf.old) result }
    {
        if self.calls.begin() {
            return Err(Failed);
        }
        let n = give(self.bytes.as_slice(), self.at, buf, self.piece);
        self.at += n;
        let ends = count_end(self.ends, n);
        self.ends = ends;
        Ok(n)
    }
}

/// Takes what is written, a piece at most in one call, up to its room. A write where no room is
/// left fails. It is seen as the bytes written, the room, the piece and the calls.
#[derive(Drop)]
pub struct MemSink {
    taken: List<u8>,
    room: usize,
    piece: usize,
    calls: Calls,
}

impl Model for MemSink {
    ghost use Rattle.std.specs.Prelude.{◌<◌, ◌≤◌, ◌+◌, length};
    ghost use Rattle.gt_io.specs.Memory.{Store};

    ghost Value = { Store };

    ghost view = { λ s. record {
      written = s.taken.items;
      room = s.room;
      piece = s.piece;
      calls = s.calls;
    } };

    ghost invariant = { λ s. (0 < s.piece) × (length s.taken.items ≤ s.room)
        × (s.room ≤ length s.taken.items + s.taken.spare) };
}

impl MemSink {
    /// Takes its room at once. Calls are numbered from 1, and those of `failing` fail. A piece is
    /// the most that one call takes.
    pub fn new(
        alloc: Global,
        room: usize,
        piece: usize,
        failing: List<u64>,
    ) -> Result<MemSink, Memory>
        requires { 0 < piece }
        ensures { IfOk result (λ s. s ≡ store_of room piece failing.items) }
    {
        let mut taken = List::new(alloc);
        taken.reserve(room)?;
        Ok(MemSink {
            taken,
            room,
            piece,
            calls: Calls::new(failing),
        })
    }

    /// What was written so far.
    pub fn written(&self) -> &List<u8>
        ensures { result.now.items ≡ self.now.written }
    {
        &self.taken
    }
}

impl Sink for MemSink {
    ghost output = { λ s. record { written = Some s.written; faults = s.calls.faults } };

    fn write(&mut self, piece: &[u8]) -> Result<usize, Failed>
        requires { 0 < length piece.now }
        ensures bound { IfOk result (λ n. (0 < n) × (n ≤ length piece.now)) }
        ensures bytes { WriteAppends (Some self.old.written)
            (Some self.new.written) result piece.now }
        ensures cause { HasCause self.old.calls.faults self.new.calls.faults result }
        ensures once { AtMostOnce self.old.calls.faults self.new.calls.faults }
        ensures piece { TakesPiece self.old self.new piece.now result }
    {
        if self.calls.begin() {
            return Err(Failed);
        }
        let n = piece
            .len()
            .min(self.piece.min(self.room - self.taken.len()));
        if n == 0 {
            self.calls.fail();
            return Err(Failed);
        }
        self.taken.extend_from_slice(&piece[..n]);
        Ok(n)
    }
}

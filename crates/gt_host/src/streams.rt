//! Readers and writers of std.
ghost use Rattle.std.specs.Prelude.{◌≡◌};

use gt_io::{Failed, Sink, Source, count_end};
use std::io::{Read, Write};

/// A reader of std as a source. It tells what the reader tells.
#[derive(Drop)]
pub struct Reading<R> {
    inner: R,
    faults: u64,
    ends: u64,
}

impl<R: Read> Reading<R> {
    /// A source of what the reader has left.
    pub fn new(inner: R) -> Self
        ensures left { (⟦<Reading<R> as Source>⟧.intake result).left ≡ R.remaining inner }
        ensures faults { (⟦<Reading<R> as Source>⟧.intake result).faults ≡ 0 }
    {
        Reading {
            inner,
            faults: 0,
            ends: 0,
        }
    }
}

impl<R: Read> Source for Reading<R> {
    ghost intake = { λ s. record {
      left = R.remaining s.inner;
      faults = s.faults;
      ends = s.ends;
    } };

    fn read(&mut self, buf: &mut [u8]) -> Result<usize, Failed> {
        match self.inner.read(buf) {
            Ok(count) => {
                self.ends = count_end(self.ends, count);
                Ok(count)
            }
            Err(_) => {
                self.faults = self.faults.saturating_add(1);
                Err(Failed)
            }
        }
    }
}

/// A writer of std as a sink. It tells what the writer tells. A write that takes nothing is a
/// fault.
#[derive(Drop)]
pub struct Writing<W> {
    inner: W,
    faults: u64,
}

impl<W: Write> Writing<W> {
    /// A sink to the writer.
    pub fn new(inner: W) -> Self
        ensures written { (⟦<Writing<W> as Sink>⟧.output result).written ≡ W.contents inner }
        ensures faults { (⟦<Writing<W> as Sink>⟧.output result).faults ≡ 0 }
    {
        Writing { inner, faults: 0 }
    }
}

impl<W: Write> Sink for Writing<W> {
    ghost output = { λ s. record { written = W.contents s.inner; faults = s.faults } };

    fn write(&mut self, piece: &[u8]) -> Result<usize, Failed> {
        match self.inner.write(piece) {
            Ok(count) if count > 0 => Ok(count),
            _ => {
                self.faults = self.faults.saturating_add(1);
                Err(Failed)
            }
        }
    }
}

//! Where bytes come from and where they go, read or written whole.
ghost use Rattle.std.specs.Prelude.{◌≡◌, ◌+◌, ◌++◌, ◌<◌, ◌≤◌, ℕ, List, length, vec_len, OnOk, OnErr, IfOk, IfErr, IfSome, IsErrOf};
ghost use Rattle.std.specs.Io.{ReadsAtMost};
ghost use Rattle.std.specs.Io.KnownBytes.{ReadConsumes, WriteAppends, Appends, IsAtEnd};
ghost use Rattle.gt_io.specs.Causes.{AtMostOnce, CountsEnd, HasCause, HasReadCause, TakesFront, AppendsPart, IsNoRoom};
ghost use Rattle.gt_io.specs.Streams.{Intake, Output, stops};
ghost use Rattle.gt_io.specs.declared.source.TheConstants.{READ_PIECE};
ghost use Rattle.gt_io.specs.declared.source.ReadFault.TheVariants.{Memory, Failed as ReadFailed};

use std::alloc::{AllocError, Global};

/// The outside failed: a file is missing, or a read or a write went wrong. A call that answers it,
/// and no other, raises the count of its object.
#[derive(Clone, Copy, Debug, PartialEq, Eq)]
pub struct Failed;

/// Where bytes come from.
pub trait Source {
    /// The bytes left, where it tells, how often it has failed, and how often it has told the end.
    ghost intake: { Self → Intake };

    /// Reads some bytes; none exactly at the end.
    fn read(&mut self, buf: &mut [u8]) -> Result<usize, Failed>
        requires { 0 < length buf.old }
        ensures bound { ReadsAtMost result buf.new }
        ensures bytes { ReadConsumes (intake self.old).left (intake self.new).left result buf.new }
        ensures cause { HasCause (intake self.old).faults (intake self.new).faults result }
        ensures once { AtMostOnce (intake self.old).faults (intake self.new).faults }
        ensures ends { CountsEnd (intake self.old).ends (intake self.new).ends result };
}

/// Where bytes go.
pub trait Sink {
    /// The bytes written, where it tells, and how often it has failed.
    ghost output: { Self → Output };

    /// Writes some of the piece, at least a byte.
    fn write(&mut self, piece: &[u8]) -> Result<usize, Failed>
        requires { 0 < length piece.now }
        ensures bound { IfOk result (λ n. (0 < n) × (n ≤ length piece.now)) }
        ensures bytes { WriteAppends (output self.old).written
            (output self.new).written result piece.now }
        ensures cause { HasCause (output self.old).faults (output self.new).faults result }
        ensures once { AtMostOnce (output self.old).faults (output self.new).faults };
}

/// Why a text was not read whole.
#[derive(Clone, Copy, Debug, PartialEq, Eq)]
pub enum ReadFault {
    /// There was no memory for it.
    Memory,
    /// The outside failed, or has no text of the name asked for.
    Failed,
    /// It has more bytes than the limit.
    TooLong,
}

impl From<AllocError> for ReadFault {
    ghost from_gives = { λ _ e. e ≡ Memory };

    fn from(_: AllocError) -> Self {
        ReadFault::Memory
    }
}

impl From<Failed> for ReadFault {
    ghost from_gives = { λ _ e. e ≡ ReadFailed };

    fn from(_: Failed) -> Self {
        ReadFault::Failed
    }
}

/// The most bytes of one read of a text.
pub const READ_PIECE: usize = 4096;

/// Adds a piece to what was read, where that is at most `limit` bytes with it.
pub(crate) fn add_piece(bytes: &mut Vec<u8>, piece: &[u8], limit: usize) -> Result<(), ReadFault>
    requires { vec_len bytes.old ≤ limit }
    ensures added { OnOk result (bytes.new.items ≡ bytes.old.items ++ piece.now) }
    ensures within { OnOk result (vec_len bytes.new ≤ limit) }
    ensures more { OnOk result (vec_len bytes.new ≡ vec_len bytes.old + length piece.now) }
    ensures fault { IfErr result (IsNoRoom limit (vec_len bytes.old + length piece.now)) }
{
    if piece.len() > limit - bytes.len() {
        return Err(ReadFault::TooLong);
    }
    bytes.extend_from_slice(piece)?;
    Ok(())
}

/// All that is left, if it is at most `limit` bytes. After a fault a prefix of it was taken, of at
/// most `READ_PIECE` bytes more than the limit. Behind a read that failed or told the end there is
/// none.
pub fn read_all<S: Source>(
    alloc: Global,
    source: &mut S,
    limit: usize,
) -> Result<Vec<u8>, ReadFault>
    ensures whole { IfOk result (λ bytes. IfSome (S.intake source.old).left (λ xs. bytes.items
        ≡ xs)) }
    ensures end { OnOk result (IsAtEnd (S.intake source.new).left) }
    ensures within { IfOk result (λ bytes. vec_len bytes ≤ limit) }
    ensures long { IsErrOf result ReadFault.TooLong
        → IfSome (S.intake source.old).left (λ xs. limit < length xs) }
    ensures front { TakesFront (limit + READ_PIECE) (S.intake source.old).left
        (S.intake source.new).left }
    ensures cause { HasReadCause (S.intake source.old).faults (S.intake source.new).faults result }
    ensures once { AtMostOnce (stops (S.intake source.old)) (stops (S.intake source.new)) }
{
    let mut bytes = Vec::new(alloc);
    let mut buf = [0u8; READ_PIECE];
    loop {
        let n = source.read(&mut buf)?;
        if n == 0 {
            return Ok(bytes);
        }
        add_piece(&mut bytes, &buf[..n], limit)?;
    }
}

/// Writes the whole text, or up to the first failure.
pub fn write_all<K: Sink>(sink: &mut K, text: &[u8]) -> Result<(), Failed>
    ensures all { OnOk result (Appends (K.output sink.old).written
        (K.output sink.new).written text.now) }
    ensures part { OnErr result (AppendsPart (K.output sink.old).written
        (K.output sink.new).written text.now) }
    ensures cause { HasCause (K.output sink.old).faults (K.output sink.new).faults result }
    ensures once { AtMostOnce (K.output sink.old).faults (K.output sink.new).faults }
{
    let mut rest = text;
    while !rest.is_empty() {
        let n = sink.write(rest)?;
        rest = &rest[n..];
    }
    Ok(())
}

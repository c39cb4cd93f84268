//! Cutting bytes into lines.
ghost use Rattle.std.specs.Prelude.{◌≡◌, ℕ, ◌+◌, ◌<◌, ◌≤◌, ◌==◌, ◌++◌, ◌∷◌, [], false, length, take, min, slice_index_or};
ghost use Rattle.gt_io.specs.Frames.{blank_frame, begun, pushed, framed, PushesFront};

use bstr::ByteSlice;
use gt_base::LONGEST_LINE;
use std::marker::Model;

/// What a byte did to the line.
#[derive(Clone, Copy, PartialEq, Eq)]
pub enum Framed {
    /// The line goes on.
    More,
    /// The line has ended, and has at most 512 bytes.
    Whole,
    /// The line has ended, and has more than 512 bytes.
    Long,
}

/// Takes the bytes of a connection one by one and keeps the line that it is in, up to 512 bytes. It
/// is seen as the number of the line's bytes, kept up to 513, the first 512 of them, and whether
/// its line feed has come.
#[derive(Drop)]
pub struct Framer {
    line: [u8; LONGEST_LINE],
    number: usize,
    ended: bool,
}

impl Model for Framer {
    ghost use Rattle.gt_io.specs.Frames.{Frame};

    ghost Value = { Frame };

    ghost use Rattle.std.specs.Prelude.{◌+◌, ◌≤◌, take};
    ghost use Rattle.gt_base.specs.declared.limits.TheConstants.{LONGEST_LINE};

    ghost view = { λ f. record {
      number = f.number;
      bytes = take f.number f.line;
      ended = f.ended;
    } };

    ghost invariant = { λ f. f.number ≤ LONGEST_LINE + 1 };
}

/// Puts a byte behind the first `number` ones, where there is room, and answers how many there are
/// now, up to 513.
fn put(line: &mut [u8], number: usize, b: u8) -> usize
    requires number { number ≤ LONGEST_LINE + 1 }
    requires room { length line.old ≡ LONGEST_LINE }
    ensures number { result ≡ min (number + 1) (LONGEST_LINE + 1) }
    ensures bytes { take result line.new ≡ take LONGEST_LINE (take number line.old ++ b ∷ []) }
{
    if number < LONGEST_LINE {
        line[number] = b;
        return number + 1;
    }
    LONGEST_LINE + 1
}

/// Puts bytes behind the first `number` ones, as far as there is room, and answers how many there
/// are now, up to 513.
fn put_all(line: &mut [u8], number: usize, front: &[u8]) -> usize
    requires number { number ≤ LONGEST_LINE + 1 }
    requires room { length line.old ≡ LONGEST_LINE }
    ensures number { result ≡ min (number + length front.now) (LONGEST_LINE + 1) }
    ensures bytes { take result line.new ≡ take LONGEST_LINE (take number line.old ++ front.now) }
{
    let start = number.min(LONGEST_LINE);
    let kept = front.len().min(LONGEST_LINE - start);
    line[start..start + kept].copy_from_slice(&front[..kept]);
    (number + front.len()).min(LONGEST_LINE + 1)
}

/// How many bytes stand in front of the first line feed.
fn front_len(bytes: &[u8]) -> usize
    ensures within { result ≤ length bytes.now }
    ensures front { (k : ℕ) → k < result → (slice_index_or bytes.now k 0 == 10) ≡ false }
{
    match bytes.find_byte(b'\n') {
        Some(end) => end,
        None => bytes.len(),
    }
}

impl Framer {
    /// A framer before the first byte.
    pub fn new() -> Framer
        ensures { result ≡ blank_frame }
    {
        Framer {
            line: [0; LONGEST_LINE],
            number: 0,
            ended: false,
        }
    }

    /// Where a line feed has come, a new line begins.
    fn begin(&mut self)
        ensures { self.new ≡ begun self.old }
    {
        if self.ended {
            self.number = 0;
            self.ended = false;
        }
    }

    /// Takes one more byte. Where a line feed has come before, it begins a new line.
    pub fn push(&mut self, b: u8) -> Framed
        ensures frame { self.new ≡ pushed self.old b }
        ensures answer { result ≡ framed self.old b }
    {
        self.begin();
        if b != b'\n' {
            self.number = put(&mut self.line, self.number, b);
            return Framed::More;
        }
        self.ended = true;
        if self.number <= LONGEST_LINE {
            Framed::Whole
        } else {
            Framed::Long
        }
    }

    /// Takes the bytes up to the first line feed, which is left, and answers how many these are.
    pub fn push_front(&mut self, bytes: &[u8]) -> usize
        ensures within { result ≤ length bytes.now }
        ensures frame { PushesFront self.old bytes.now result self.new }
    {
        let n = front_len(bytes);
        if n > 0 {
            self.begin();
            self.number = put_all(&mut self.line, self.number, &bytes[..n]);
        }
        n
    }

    /// The bytes of the line so far, without its line feed, the first 512 of them.
    pub fn line(&self) -> &[u8]
        ensures { result.now ≡ self.now.bytes }
    {
        &self.line[..self.number.min(LONGEST_LINE)]
    }
}

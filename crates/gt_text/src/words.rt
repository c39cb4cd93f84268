//! The words of a line.
ghost use Rattle.std.specs.Prelude.{◌≡◌, ◌<◌, ◌≤◌, List, ℕ, [], ◌∷◌, length, slice_index, true, false, MatchOption};
ghost use Rattle.std.specs.Iterator.{YieldsFirstRef, item_count};
ghost use Rattle.gt_text.specs.Words.{words_of, blank_cut, begins_with, is_blank};

use crate::lines::without_return;
use std::marker::Model;

/// The words of a line that are left: what stands between spaces and tabs.
#[derive(Drop)]
pub struct Words<'a> {
    rest: &'a [u8],
}

impl<'a> Model for Words<'a> {
    ghost Value = { List (List ℕ) };

    ghost view = { λ s. blank_cut s.rest.now };
}

impl<'a> Words<'a> {
    /// The words of a line, without a carriage return at its end.
    pub fn new(line: &'a [u8]) -> Words<'a>
        ensures { result ≡ words_of line.now }
    {
        Words {
            rest: without_return(line),
        }
    }
}

impl<'a> Iterator for Words<'a> {
    type Item = &'a [u8];

    ghost next_gives = { YieldsFirstRef (λ rest. rest) };

    ghost remaining = { item_count (λ rest. rest) };

    fn next(&mut self) -> Option<&'a [u8]> {
        let (word, rest) = first_word(self.rest)?;
        self.rest = rest;
        Some(word)
    }
}

/// Whether a byte stands between words: a space or a tab.
pub fn is_blank(b: u8) -> bool
    ensures { result ≡ is_blank b }
{
    b == b' ' || b == b'\t'
}

/// Whether a text begins with the byte.
pub fn begins(text: &[u8], byte: u8) -> bool
    ensures { result ≡ begins_with byte text.now }
{
    match text {
        [] => false,
        [first, ..] => *first == byte,
    }
}

/// How many bytes stand before the first blank.
fn word_len(text: &[u8]) -> usize
    ensures within { result ≤ length text.now }
    ensures word { (k : ℕ) → k < result → is_blank (slice_index text.now k) ≡ false }
    ensures end { result < length text.now → is_blank (slice_index text.now result) ≡ true }
{
    let mut n = 0;
    while n < text.len() && !is_blank(text[n]) {
        n += 1;
    }
    n
}

/// The first word and the line after it.
fn first_word(line: &[u8]) -> Option<(&[u8], &[u8])>
    ensures { MatchOption result (blank_cut line.now ≡ [])
        (λ cut. blank_cut line.now ≡ cut.0.now ∷ blank_cut cut.1.now) }
{
    let mut text = line;
    while let [first, rest @ ..] = text {
        if !is_blank(*first) {
            return Some(text.split_at(word_len(text)));
        }
        text = rest;
    }
    None
}

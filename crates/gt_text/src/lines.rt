//! The lines of a text.
ghost use Rattle.std.specs.Prelude.{◌≡◌, List, ℕ, [], ◌∷◌, ◌≤◌, length, MatchOption};
ghost use Rattle.std.specs.Iterator.{YieldsFirstRef, item_count};
ghost use Rattle.gt_text.specs.Lines.{lines_of, without_return};

use bstr::ByteSlice;
use std::marker::Model;

/// The lines of a text that are left, each without its line feed.
#[derive(Drop)]
pub struct Lines<'a> {
    rest: &'a [u8],
}

impl<'a> Model for Lines<'a> {
    ghost Value = { List (List ℕ) };

    ghost view = { λ s. lines_of s.rest.now };
}

impl<'a> Lines<'a> {
    /// The lines of a text; bytes after the last line feed are a line where there are any.
    #[tactic(auto, using(crate::proofs::Cut::line_counts))]
    pub fn new(text: &'a [u8]) -> Lines<'a>
        ensures value { result ≡ lines_of text.now }
        ensures len { length result ≤ length text.now }
    {
        Lines { rest: text }
    }
}

impl<'a> Iterator for Lines<'a> {
    type Item = &'a [u8];

    ghost next_gives = { YieldsFirstRef (λ rest. rest) };

    ghost remaining = { item_count (λ rest. rest) };

    fn next(&mut self) -> Option<&'a [u8]> {
        let (line, rest) = first_line(self.rest)?;
        self.rest = rest;
        Some(line)
    }
}

/// The first line and the text after it.
fn first_line(text: &[u8]) -> Option<(&[u8], &[u8])>
    ensures { MatchOption result (lines_of text.now ≡ [])
        (λ cut. lines_of text.now ≡ cut.0.now ∷ lines_of cut.1.now) }
{
    if text.is_empty() {
        return None;
    }
    match text.find_byte(b'\n') {
        None => Some((text, &[])),
        Some(end) => {
            let (_, rest) = text.split_at(end + 1);
            Some((&text[..end], rest))
        }
    }
}

/// A line without one carriage return at its end.
pub fn without_return(line: &[u8]) -> &[u8]
    ensures { result.now ≡ without_return line.now }
{
    match line {
        [front @ .., b'\r'] => front,
        _ => line,
    }
}

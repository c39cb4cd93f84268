//! Texts with bytes that are written by their names, and texts that are repeated.

use crate::cases::Fault;
use gt_text::push_number;
use std::alloc::AllocError;

/// The value of a digit of base 16.
fn digit(b: u8) -> Option<u8> {
    match b {
        b'0'..=b'9' => Some(b - b'0'),
        b'a'..=b'f' => Some(b - b'a' + 10),
        _ => None,
    }
}

/// The byte that the text behind a backslash begins with the name of, and the rest of that text.
fn named_byte(text: &[u8]) -> Option<(u8, &[u8])> {
    match text {
        [b't', rest @ ..] => Some((b'\t', rest)),
        [b'r', rest @ ..] => Some((b'\r', rest)),
        [b'n', rest @ ..] => Some((b'\n', rest)),
        [b's', rest @ ..] => Some((b' ', rest)),
        [b'b', rest @ ..] => Some((b'\\', rest)),
        [b'x', high, low, rest @ ..] => {
            let (Some(high), Some(low)) = (digit(*high), digit(*low)) else {
                return None;
            };
            Some((high.saturating_mul(16).saturating_add(low), rest))
        }
        _ => None,
    }
}

/// Adds a text in which `\t` stands for a tab, `\r` for a carriage return, `\n` for a line feed,
/// `\s` for a space, `\b` for a backslash and `\xHH` for the byte of two digits of base 16, 0 to 9
/// and a to f.
pub(crate) fn add_text(into: &mut Vec<u8>, text: &[u8]) -> Result<(), Fault> {
    for (place, piece) in text.split(|b| *b == b'\\').enumerate() {
        if place == 0 {
            into.extend_from_slice(piece)?;
            continue;
        }
        let Some((byte, rest)) = named_byte(piece) else {
            return Err(Fault::Line);
        };
        into.extend_from_slice(&[byte])?;
        into.extend_from_slice(rest)?;
    }
    Ok(())
}

/// The value of a digit of base 10.
fn small(b: u8) -> Option<u64> {
    match b {
        b'0'..=b'9' => Some(u64::from(b - b'0')),
        _ => None,
    }
}

/// The number that the text behind an opening brace begins with the name of, and the rest of that
/// text.
fn named_number(text: &[u8], i: u64) -> Option<(u64, &[u8])> {
    match text {
        [b'i', b'}', rest @ ..] => Some((i, rest)),
        [b'i', b'+', more, b'}', rest @ ..] => match small(*more) {
            Some(more) => Some((i.saturating_add(more), rest)),
            None => None,
        },
        [b'i', b'-', less, b'}', rest @ ..] => match small(*less) {
            Some(less) => Some((i.saturating_sub(less), rest)),
            None => None,
        },
        _ => None,
    }
}

/// Adds a piece of a text that stood behind an opening brace.
fn add_behind_brace(into: &mut Vec<u8>, piece: &[u8], i: u64) -> Result<(), AllocError> {
    match named_number(piece, i) {
        Some((number, rest)) => {
            push_number(into, number)?;
            into.extend_from_slice(rest)
        }
        None => {
            into.extend_from_slice(b"{")?;
            into.extend_from_slice(piece)
        }
    }
}

/// Adds a text with the number `i` in place of `{i}`, and with so much more or less in place of
/// `{i+1}` to `{i+9}` and `{i-1}` to `{i-9}`.
fn add_numbered(into: &mut Vec<u8>, text: &[u8], i: u64) -> Result<(), AllocError> {
    for (place, piece) in text.split(|b| *b == b'{').enumerate() {
        if place == 0 {
            into.extend_from_slice(piece)?;
        } else {
            add_behind_brace(into, piece, i)?;
        }
    }
    Ok(())
}

/// A text for each number from one to another, up or down.
#[derive(Clone, Copy)]
pub(crate) struct Repeated<'a> {
    pub from: u32,
    pub to: u32,
    pub text: &'a [u8],
    pub end: &'a [u8],
}

/// Adds the text of each of the numbers, each with the end behind it.
pub(crate) fn add_repeated(into: &mut Vec<u8>, repeated: &Repeated<'_>) -> Result<(), Fault> {
    let mut text = Vec::new(*into.allocator());
    add_text(&mut text, repeated.text)?;
    let Repeated { from, to, .. } = *repeated;
    for k in 0..=from.abs_diff(to) {
        let i = if from <= to {
            from.saturating_add(k)
        } else {
            from.saturating_sub(k)
        };
        add_numbered(into, &text, u64::from(i))?;
        into.extend_from_slice(repeated.end)?;
    }
    Ok(())
}

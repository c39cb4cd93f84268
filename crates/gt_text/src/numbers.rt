//! Numbers as words, read in one pass.
ghost use Rattle.std.specs.Prelude.{◌≡◌, ◌≢◌, ◌^◌, ◌<◌, ◌≤◌, ◌++◌, ℕ, decimal, OnOk, OnErr, IfSome, IfNone};
ghost use Rattle.gt_base.specs.Names.{number_from};
ghost use Rattle.gt_text.specs.Numbers.{is_plain, longer_count, count_to};

use itoa::Buffer;
use std::alloc::AllocError;

/// Whether the text can be a number by its front: it has a byte, and `0` stands alone.
fn is_plain(text: &[u8]) -> bool
    ensures { result ≡ is_plain text.now }
{
    match text {
        [] => false,
        [_] => true,
        [first, ..] => *first > b'0',
    }
}

/// The count with one digit more, none where the byte is no digit or the count is above `most`.
fn next_count(most: u64, n: u64, b: u8) -> Option<u64>
    ensures { result ≡ longer_count most n b }
{
    if !b.is_ascii_digit() {
        return None;
    }
    let n = n.checked_mul(10)?.checked_add(u64::from(b - b'0'))?;
    if n <= most { Some(n) } else { None }
}

/// What the digits count, none where a byte is no digit or they count more than `most`.
fn counted_to(most: u64, mut digits: &[u8]) -> Option<u64>
    ensures { result ≡ count_to most 0 digits.now }
{
    let mut n = 0;
    while let [b, rest @ ..] = digits {
        n = next_count(most, n, *b)?;
        digits = rest;
    }
    Some(n)
}

/// The number up to `most` that the text writes.
fn number_to(most: u64, text: &[u8]) -> Option<u64>
    ensures { result ≡ number_from 0 most text.now }
{
    if is_plain(text) {
        counted_to(most, text)
    } else {
        None
    }
}

/// The number that the text writes, with no leading zero.
pub fn read_number(text: &[u8]) -> Option<u64>
    ensures some { IfSome result (λ n. (n < 2 ^ 64) × (text.now ≡ decimal n)) }
    ensures none { IfNone result ((n : ℕ) → n < 2 ^ 64 → text.now ≢ decimal n) }
{
    number_to(u64::MAX, text)
}

/// The number between these bounds that the text writes, with no leading zero.
pub fn read_between(least: u32, most: u32, text: &[u8]) -> Option<u32>
    ensures value { result ≡ number_from least most text.now }
    ensures some { IfSome result (λ n. (least ≤ n) × (n ≤ most) × (text.now ≡ decimal n)) }
    ensures none { IfNone result ((n : ℕ) → least ≤ n → n ≤ most → text.now ≢ decimal n) }
{
    let n = number_to(u64::from(most), text)?;
    if u64::from(least) <= n {
        Some(n as u32)
    } else {
        None
    }
}

/// Adds the text of the number.
pub fn push_number(text: &mut Vec<u8>, n: u64) -> Result<(), AllocError>
    ensures ok { OnOk result (text.new.items ≡ text.old.items ++ decimal n) }
    ensures err { OnErr result (text.new.items ≡ text.old.items) }
{
    let mut buffer = Buffer::new();
    text.extend_from_slice(buffer.format(n).as_bytes())
}

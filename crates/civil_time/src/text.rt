//! The one text of each instant, written and read.
ghost use Rattle.std.specs.Prelude.{◌≡◌, ◌≢◌, ◌<◌, ◌+◌, ◌/◌, ◌%◌, ◌≤◌, ℕ, List, [], ◌∷◌, length, IfSome, IfNone};
ghost use Rattle.gt_base.specs.declared.limits.TheConstants.{LAST_MINUTE};
ghost use Rattle.civil_time.specs.declared.civil.Civil.{Civil};
ghost use Rattle.civil_time.specs.Minutes.{IsMinute};
ghost use Rattle.civil_time.specs.Text.{two_digits, text_of_civil, civil_text, IsCivil, IsPrintable};

use crate::civil::{Civil, civil_of, instant};
use gt_base::Instant;

/// The digits of a number below 100, with a leading 0.
fn two_digits(n: u8) -> [u8; 2]
    requires { n < 100 }
    ensures { result ≡ two_digits n }
{
    [b'0' + n / 10, b'0' + n % 10]
}

/// `YYYY-MM-DDThh:mm`; the text of an instant by its parts.
fn civil_text(c: Civil) -> [u8; 16]
    requires { IsPrintable c }
    ensures { result ≡ text_of_civil c }
{
    let [y1, y2] = two_digits((c.year / 100) as u8);
    let [y3, y4] = two_digits((c.year % 100) as u8);
    let [m1, m2] = two_digits(c.month);
    let [d1, d2] = two_digits(c.day);
    let [h1, h2] = two_digits(c.hour);
    let [n1, n2] = two_digits(c.minute);
    [
        y1, y2, y3, y4, b'-', m1, m2, b'-', d1, d2, b'T', h1, h2, b':', n1, n2,
    ]
}

/// The text of an instant, as `2026-01-05T08:30`.
pub fn write_civil(t: Instant) -> [u8; 16]
    ensures { result ≡ civil_text t }
{
    civil_text(civil_of(t))
}

/// The number that two digits write, or any number.
fn number_of(a: u8, b: u8) -> u8
    ensures bound { result < 100 }
    ensures only { (n : ℕ) → n < 100 → a ≡ 48 + n / 10 → b ≡ 48 + n % 10 → result ≡ n }
{
    if a.is_ascii_digit() && b.is_ascii_digit() {
        (a - b'0') * 10 + (b - b'0')
    } else {
        0
    }
}

/// The minute that the text writes, or any other.
fn candidate(text: &[u8]) -> Civil
    requires { length text.now ≡ 16 }
    ensures bound { IsPrintable result }
    ensures only { (c : Civil) → IsMinute c → text.now ≡ text_of_civil c → result ≡ c }
{
    let century = number_of(text[0], text[1]);
    let year = number_of(text[2], text[3]);
    Civil {
        year: u16::from(century) * 100 + u16::from(year),
        month: number_of(text[5], text[6]),
        day: number_of(text[8], text[9]),
        hour: number_of(text[11], text[12]),
        minute: number_of(text[14], text[15]),
    }
}

/// The instant of the text, none where it is the text of no civil minute.
fn found(text: &[u8]) -> Option<Instant>
    ensures some { IfSome result (λ t. IsCivil text.now t) }
    ensures none { IfNone result ((c : Civil) → IsMinute c → text.now ≢ text_of_civil c) }
{
    if text.len() != 16 {
        return None;
    }
    let c = candidate(text);
    if civil_text(c).as_slice() != text {
        return None;
    }
    instant(c).ok()
}

/// The instant that the text writes, as `2026-01-05T08:30`: none exactly where it is the text of no
/// instant.
pub fn read_civil(text: &[u8]) -> Option<Instant>
    ensures some { IfSome result (λ t. IsCivil text.now t) }
    ensures none { IfNone result ((t : ℕ) → t ≤ LAST_MINUTE → text.now ≢ civil_text t) }
{
    found(text)
}

//! Asks the calendar: for each line `FIRST LAST AFTER EXPR` on standard input, with `*` for the
//! bounds of all instants, writes a line `INSIDE STARTS NEXT_START NEXT_INSIDE NEXT_EDGE` at AFTER,
//! with `-` where there is none, or `fault KIND at N`. A line `N CALL FIRST LAST AFTER EXPR`, with
//! `start`, `inside` or `edge` as the call, asks that call N times, each time after its last
//! answer, or after AFTER again where there was none, and writes the last answer.
#![tactic(auto)]

#[cfg(test)]
mod plain;

use calendar_match::{inside, next_edge, next_inside, next_start, starts};
use civil_time::{read_civil, write_civil};
use gt_base::Instant;
use periodic_expr::{ExprFault, ExprKind, Period, parse_expr};
use std::alloc::{AllocError, Global};
use std::io;
use std::io::{Read, Write};

/// The bytes before the first space, and those after it.
fn cut(line: &[u8]) -> Option<(&[u8], &[u8])> {
    let at = line.iter().position(|b| *b == b' ')?;
    let (word, rest) = line.split_at(at);
    match rest {
        [_, more @ ..] => Some((word, more)),
        [] => None,
    }
}

/// A civil minute, or the one that `*` stands for.
fn bound(word: &[u8], star: u32) -> Option<Instant> {
    if word == b"*".as_slice() {
        return Instant::new(star);
    }
    read_civil(word)
}

/// The word of a fault, `memory` among them.
fn kind_word(kind: ExprKind) -> &'static str {
    match kind {
        ExprKind::Syntax => "syntax",
        ExprKind::FirstNotAll => "first-not-all",
        ExprKind::NotFiner => "not-finer",
        ExprKind::ZeroIndex => "zero-index",
        ExprKind::EmptySet => "empty-set",
        ExprKind::BadLength => "bad-length",
        ExprKind::Memory => "memory",
    }
}

/// Adds `yes` or `no` and a space.
fn put_truth(out: &mut Vec<u8>, truth: bool) -> Result<(), AllocError> {
    let word: &[u8] = if truth { b"yes " } else { b"no " };
    out.extend_from_slice(word)
}

/// Adds a minute, or `-` for none, and a byte behind it.
fn put_instant(out: &mut Vec<u8>, t: Option<Instant>, end: u8) -> Result<(), AllocError> {
    match t {
        Some(t) => out.extend_from_slice(write_civil(t).as_slice())?,
        None => out.extend_from_slice(b"-")?,
    }
    out.extend_from_slice(&[end])
}

/// Adds the line of an expression's fault.
fn put_fault(alloc: Global, out: &mut Vec<u8>, fault: ExprFault) -> Result<(), AllocError> {
    let word = kind_word(fault.kind);
    let at = fault.at;
    let text = format!(in alloc; "fault {word} at {at}\n")?;
    out.extend_from_slice(text.as_bytes())
}

/// Adds the answers about a minute: inside, a start, and the next of each kind after it.
fn put_answers(out: &mut Vec<u8>, p: &Period, after: Instant) -> Result<(), AllocError> {
    put_truth(out, inside(p, after))?;
    put_truth(out, starts(p, after))?;
    put_instant(out, next_start(p, after), b' ')?;
    put_instant(out, next_inside(p, after), b' ')?;
    put_instant(out, next_edge(p, after), b'\n')
}

#[derive(Clone, Copy)]
enum Call {
    Start,
    Inside,
    Edge,
}

/// Which question is asked over and over; None for a word that is none.
fn call_of(word: &[u8]) -> Option<Call> {
    match word {
        b"start" => Some(Call::Start),
        b"inside" => Some(Call::Inside),
        b"edge" => Some(Call::Edge),
        _ => None,
    }
}

/// The value of a digit of base 10.
fn digit(b: u8) -> Option<u32> {
    match b {
        b'0'..=b'9' => Some(u32::from(b - b'0')),
        _ => None,
    }
}

/// The number of decimal digits; one that is too great is the greatest. None for other bytes.
fn number(word: &[u8]) -> Option<u32> {
    let mut n: u32 = 0;
    for b in word {
        n = n.saturating_mul(10).saturating_add(digit(*b)?);
    }
    Some(n)
}

/// How often to ask which call, and the rest of the line.
fn repeated(line: &[u8]) -> Option<(u32, Call, &[u8])> {
    let (times, line) = cut(line)?;
    let (word, line) = cut(line)?;
    Some((number(times)?, call_of(word)?, line))
}

/// The answer to one question after an instant.
fn asked(call: Call, p: &Period, after: Instant) -> Option<Instant> {
    match call {
        Call::Start => next_start(p, after),
        Call::Inside => next_inside(p, after),
        Call::Edge => next_edge(p, after),
    }
}

/// The last answer, each asked after the one before; after none, anew from the first.
fn asked_often(times: u32, call: Call, p: &Period, after: Instant) -> Option<Instant> {
    let mut last = None;
    for _ in 0..times {
        last = asked(call, p, last.unwrap_or(after));
    }
    last
}

/// The bounds, the instant and the text of the expression of a line.
fn parted(line: &[u8]) -> Option<(Instant, Instant, Instant, &[u8])> {
    let (first, line) = cut(line)?;
    let (last, line) = cut(line)?;
    let (after, text) = cut(line)?;
    let first = bound(first, 0)?;
    let last = bound(last, 52_595_999)?;
    Some((first, last, read_civil(after)?, text))
}

/// Adds the answer to a line.
fn answer(alloc: Global, out: &mut Vec<u8>, line: &[u8]) -> Result<(), AllocError> {
    let (repeat, line) = match repeated(line) {
        Some((times, call, line)) => (Some((times, call)), line),
        None => (None, line),
    };
    let Some((first, last, after, text)) = parted(line) else {
        return out.extend_from_slice(b"no line\n");
    };
    if first.minute() > last.minute() || text.len() >= 4_294_967_296 {
        return out.extend_from_slice(b"no line\n");
    }
    let p = match parse_expr(alloc, text) {
        Ok(expr) => Period { first, last, expr },
        Err(fault) => return put_fault(alloc, out, fault),
    };
    match repeat {
        Some((times, call)) => put_instant(out, asked_often(times, call, &p, after), b'\n'),
        None => put_answers(out, &p, after),
    }
}

/// Answers the lines of the standard input, blank ones aside.
fn main(rt: HostRuntime) -> io::Result<()> {
    let alloc = rt.alloc();
    let mut text = Vec::new(alloc);
    rt.stdin().read_to_end(&mut text)?;
    let mut out = Vec::new(alloc);
    for line in text.as_slice().split(|b| *b == b'\n') {
        if !line.is_empty() {
            answer(alloc, &mut out, line)?;
        }
    }
    rt.stdout().write_all(out.as_slice())
}

#[cfg(test)]
mod tests {
    use periodic_expr::{parse_expr, print_expr};
    use std::test::Fail;

    #[test]
    fn prints_the_canonical_text(rt: HostRuntime) -> Result<(), Fail> {
        let expr = parse_expr(rt.alloc(), b"all.Years+{7,3,3}.Months")?;
        let text = print_expr(rt.alloc(), &expr)?;
        assert_eq!(rt;
            text.as_slice(),
            b"all.Years + {3,7}.Months > 1.Months".as_slice()
        );
        let again = parse_expr(rt.alloc(), text.as_slice())?;
        let text = print_expr(rt.alloc(), &again)?;
        assert_eq!(rt;
            text.as_slice(),
            b"all.Years + {3,7}.Months > 1.Months".as_slice()
        );
        Ok(())
    }
}

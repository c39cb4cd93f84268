//! The calls of the calendar against plain ones, which go over a stretch minute after minute and
//! use `starts` alone.

use calendar_match::{inside, next_edge, next_inside, next_start, starts};
use gt_base::Instant;
use periodic_expr::{Calendar, Expr, Period, parse_expr};
use std::alloc::{AllocError, Global};
use std::process::Abort;
use std::test::Fail;

const LAST: u32 = 52_595_999;

/// The minutes of a stretch, and the most before it whose begins are looked at too.
const LENGTH: u32 = 20 * 1440;

const BEFORE: u32 = 366 * 1440;

/// A linear congruence: the next number, below 2^31.
fn next_random(seed: &mut u64) -> u64 {
    *seed = seed
        .wrapping_mul(6_364_136_223_846_793_005)
        .wrapping_add(1_442_695_040_888_963_407);
    *seed >> 33
}

/// A random number below a bound; 0 where the bound is 0.
fn random(seed: &mut u64, below: u32) -> u32 {
    if below == 0 {
        return 0;
    }
    (next_random(seed) % u64::from(below)) as u32
}

/// The name of a calendar in an expression.
fn word(c: Calendar) -> &'static str {
    match c {
        Calendar::Years => "Years",
        Calendar::Months => "Months",
        Calendar::Weeks => "Weeks",
        Calendar::Days => "Days",
        Calendar::Hours => "Hours",
        Calendar::Minutes => "Minutes",
    }
}

/// No length of this calendar that is tried lasts longer.
fn longest(unit: Calendar) -> u32 {
    match unit {
        Calendar::Years => BEFORE,
        Calendar::Minutes => 1000,
        _ => 60 * 1440,
    }
}

/// The calendar number i of those that stand below, if there are so many.
fn below(c: Calendar, i: u32) -> Option<Calendar> {
    match (c, i) {
        (Calendar::Years, 0) => Some(Calendar::Months),
        (Calendar::Years | Calendar::Months | Calendar::Weeks, 1) => Some(Calendar::Days),
        (Calendar::Years | Calendar::Months | Calendar::Weeks | Calendar::Days, 2) => {
            Some(Calendar::Hours)
        }
        (Calendar::Minutes, _) => None,
        (_, 3) => Some(Calendar::Minutes),
        _ => None,
    }
}

/// One above the numbers that are tried.
fn top(above: Calendar, c: Calendar) -> u32 {
    match (above, c) {
        (Calendar::Years, Calendar::Days) => 367,
        (Calendar::Weeks, Calendar::Days) => 8,
        (_, Calendar::Months) => 13,
        (_, Calendar::Days) => 32,
        (_, Calendar::Hours) => 25,
        _ => 61,
    }
}

/// Adds a further part up to its calendar: `all`, or one to four numbers up to the most.
fn put_set(alloc: Global, text: &mut Vec<u8>, seed: &mut u64, most: u32) -> Result<(), AllocError> {
    if random(seed, 6) == 0 {
        return text.extend_from_slice(b" + all.");
    }
    let number = random(seed, most).saturating_add(1);
    let first = format!(in alloc; " + {{{number}")?;
    text.extend_from_slice(first.as_bytes())?;
    for _ in 0..random(seed, 4) {
        let number = random(seed, most).saturating_add(1);
        let more = format!(in alloc; ",{number}")?;
        text.extend_from_slice(more.as_bytes())?;
    }
    text.extend_from_slice(b"}.")
}

/// Adds a length of this calendar, none beyond `longest`.
fn put_length(
    alloc: Global,
    text: &mut Vec<u8>,
    seed: &mut u64,
    unit: Calendar,
) -> Result<(), AllocError> {
    let most = match unit {
        Calendar::Years | Calendar::Months => 1,
        Calendar::Weeks => 8,
        Calendar::Days => 40,
        Calendar::Hours => 200,
        Calendar::Minutes => 1000,
    };
    let count = random(seed, most).saturating_add(1);
    let unit = word(unit);
    let length = format!(in alloc; " > {count}.{unit}")?;
    text.extend_from_slice(length.as_bytes())
}

/// A random expression, and the calendar of its length.
fn random_text(alloc: Global, seed: &mut u64) -> Result<(Vec<u8>, Calendar), AllocError> {
    let mut c = match random(seed, 4) {
        0 => Calendar::Years,
        1 => Calendar::Months,
        2 => Calendar::Weeks,
        _ => Calendar::Days,
    };
    let mut text = Vec::new(alloc);
    text.extend_from_slice(b"all.")?;
    text.extend_from_slice(word(c).as_bytes())?;
    for _ in 0..5 {
        if let Some(d) = below(c, random(seed, 5)) {
            put_set(alloc, &mut text, seed, top(c, d))?;
            text.extend_from_slice(word(d).as_bytes())?;
            c = d;
        }
    }
    let unit = below(c, random(seed, 8)).unwrap_or(c);
    put_length(alloc, &mut text, seed, unit)?;
    Ok((text, unit))
}

/// The period of an expression from the first minute of all to the last.
fn whole(expr: Expr) -> Option<Period> {
    Some(Period {
        first: Instant::new(0)?,
        last: Instant::new(LAST)?,
        expr,
    })
}

/// The same of a text, which is to be an expression.
fn read_whole(alloc: Global, text: &[u8]) -> Result<Period, Fail> {
    if text.len() > 4096 {
        return Err("too long".into());
    }
    Ok(whole(parse_expr(alloc, text)?).ok_or("bounds")?)
}

/// Whether the period starts at a minute; false beyond the last one.
fn starts_at(p: &Period, m: u32) -> bool {
    match Instant::new(m) {
        Some(t) => starts(p, t),
        None => false,
    }
}

/// Which minutes of the stretch from this one are begins, and which lie within the length of a
/// begin.
struct Seen {
    from: u32,
    begins: Vec<bool>,
    lasts: Vec<bool>,
}

impl Drop for Seen {
    fn drop(self) {
        let Seen {
            from: _,
            begins: _,
            lasts: _,
        } = self;
    }
}

impl Seen {
    /// How long each begin lasts is counted down at each start of a unit.
    fn new(alloc: Global, p: &Period, units: &Period, from: u32) -> Result<Seen, AllocError> {
        let mut begins = Vec::new(alloc);
        let mut lasts = Vec::new(alloc);
        let mut left = 0;
        let before = longest(p.expr.length().1);
        for m in from.saturating_sub(before)..from.saturating_add(LENGTH) {
            let begin = starts_at(p, m);
            if begin {
                left = p.expr.length().0;
            } else if left > 0 && starts_at(units, m) {
                left -= 1;
            }
            if m >= from {
                begins.push(begin)?;
                lasts.push(left > 0)?;
            }
        }
        Ok(Seen {
            from,
            begins,
            lasts,
        })
    }

    /// Whether the period starts at a minute, by what was seen.
    fn starts(&self, p: &Period, m: u32) -> bool {
        let begins = self.begins.get(m.saturating_sub(self.from) as usize);
        p.first.minute() <= m && m <= p.last.minute() && begins.copied().unwrap_or(false)
    }

    /// Whether a minute is inside the period, by what was seen.
    fn inside(&self, p: &Period, m: u32) -> bool {
        let lasts = self.lasts.get(m.saturating_sub(self.from) as usize);
        p.first.minute() <= m && m <= p.last.minute() && lasts.copied().unwrap_or(false)
    }

    /// The next start, minute after minute; None behind what was looked at.
    fn next_start(&self, p: &Period, after: u32) -> Option<u32> {
        for m in after.saturating_add(1)..self.from.saturating_add(LENGTH) {
            if self.starts(p, m) {
                return Some(m);
            }
        }
        None
    }

    /// The next minute inside, minute after minute; None behind what was looked at.
    fn next_inside(&self, p: &Period, after: u32) -> Option<u32> {
        for m in after.saturating_add(1)..self.from.saturating_add(LENGTH) {
            if self.inside(p, m) {
                return Some(m);
            }
        }
        None
    }

    /// The next edge, minute after minute; None behind what was looked at.
    fn next_edge(&self, p: &Period, after: u32) -> Option<u32> {
        for m in after.saturating_add(1)..self.from.saturating_add(LENGTH) {
            if self.inside(p, m) != self.inside(p, m.saturating_sub(1)) {
                return Some(m);
            }
        }
        None
    }
}

/// The number of an instant's minute.
fn minute(t: Option<Instant>) -> Option<u32> {
    match t {
        Some(t) => Some(t.minute()),
        None => None,
    }
}

/// Stops where an answer of the library is not that of the minutes looked at.
fn compare(rt: &impl Abort, seen: &Seen, p: &Period, after: Instant) {
    let m = after.minute();
    assert_eq!(rt; inside(p, after), seen.inside(p, m));
    assert_eq!(rt; minute(next_start(p, after)), seen.next_start(p, m));
    assert_eq!(rt; minute(next_inside(p, after)), seen.next_inside(p, m));
    assert_eq!(rt; minute(next_edge(p, after)), seen.next_edge(p, m));
}

/// The expression between random bounds within the stretch.
fn bounded(seed: &mut u64, from: u32, expr: Expr) -> Option<Period> {
    let first = from
        .saturating_add(1)
        .saturating_add(random(seed, LENGTH / 3));
    let last = first.saturating_add(random(seed, LENGTH / 2));
    Some(Period {
        first: Instant::new(first)?,
        last: Instant::new(last)?,
        expr,
    })
}

/// At random instants of the stretch, before and after the bounds too.
fn compare_some(rt: &impl Abort, seed: &mut u64, seen: &Seen, p: &Period) -> Option<()> {
    for _ in 0..8 {
        let after = seen.from.saturating_add(random(seed, LENGTH));
        compare(rt, seen, p, Instant::new(after)?);
    }
    Some(())
}

/// One random expression over one random stretch.
fn compare_one(rt: &impl Abort, alloc: Global, seed: &mut u64) -> Result<(), Fail> {
    let (text, unit) = random_text(alloc, seed)?;
    let units = format!(in alloc; "all.{}", word(unit))?;
    let units = read_whole(alloc, units.as_bytes())?;
    let p = read_whole(alloc, text.as_slice())?;
    let from = BEFORE.saturating_add(random(seed, LAST - BEFORE - LENGTH));
    let seen = Seen::new(alloc, &p, &units, from)?;
    let p = bounded(seed, from, p.expr.copied(alloc)?).ok_or("bounds")?;
    compare_some(rt, seed, &seen, &p).ok_or("instants")?;
    Ok(())
}

#[test]
fn as_minute_after_minute(rt: HostRuntime) -> Result<(), Fail> {
    let mut seed = 2_026;
    for _ in 0..30 {
        compare_one(&rt, rt.alloc(), &mut seed)?;
    }
    Ok(())
}

//! Lines of periods.
ghost use Rattle.std.specs.Prelude.{◌≡◌, ◌≤◌, ◌∷◌, [], length, option_map, Ok, Err};
ghost use Rattle.gt_base.specs.declared.limits.TheConstants.{LONGEST_POLICY_LINE};
ghost use Rattle.policy_words.specs.Reading.{first_in, last_in, bounds_in, with_expr, period_by};
ghost use Rattle.periodic_expr.specs.Reading.{read_expr};
ghost use Rattle.policy_lines.specs.Answered.{ReadsAs, seen_bounds};

use crate::rests::expression;
use crate::units::{read_instant, read_name};
use gt_base::{Instant, LAST_MINUTE, Name};
use gt_text::Words;
use periodic_expr::{ExprKind, parse_expr};
use policy_words::{Said, TextKind};
use std::alloc::Global;

/// What stands before the expression of a period.
#[derive(Clone, Copy)]
pub(crate) struct PeriodBounds {
    pub(crate) name: Name,
    pub(crate) first: Instant,
    pub(crate) last: Instant,
}

/// The first instant that a word is, `*` the first of all.
fn first_instant(word: &[u8]) -> Option<Instant>
    ensures { result ≡ first_in word.now }
{
    if word == b"*".as_slice() {
        Instant::new(0)
    } else {
        read_instant(word)
    }
}

/// The last instant that a word is, `*` the last of all.
fn last_instant(word: &[u8]) -> Option<Instant>
    ensures { result ≡ last_in word.now }
{
    if word == b"*".as_slice() {
        Instant::new(LAST_MINUTE)
    } else {
        read_instant(word)
    }
}

/// The name and the bounds that three words are.
fn bounds_of(name: &[u8], first: &[u8], last: &[u8]) -> Option<PeriodBounds>
    ensures { option_map seen_bounds result ≡ bounds_in (name.now ∷ first.now ∷ last.now ∷ []) }
{
    let name = read_name(name)?;
    let first = first_instant(first)?;
    let last = last_instant(last)?;
    Some(PeriodBounds { name, first, last })
}

/// The name and the bounds at the front.
fn bounds(mut words: Words<'_>) -> Option<PeriodBounds>
    ensures { option_map seen_bounds result ≡ bounds_in words.entry }
{
    let name = words.next()?;
    let first = words.next()?;
    let last = words.next()?;
    bounds_of(name, first, last)
}

/// The period with these bounds and the expression of a text.
fn bounded(alloc: Global, bounds: PeriodBounds, text: &[u8]) -> Result<Said, TextKind>
    requires { length text.now ≤ LONGEST_POLICY_LINE }
    ensures { ReadsAs result (with_expr (seen_bounds bounds) (read_expr text.now)) }
{
    let PeriodBounds { name, first, last } = bounds;
    match parse_expr(alloc, text) {
        Ok(expr) => Ok(Said::Period {
            name,
            first,
            last,
            expr,
        }),
        Err(fault) => match fault.kind {
            ExprKind::Memory => Err(TextKind::Memory),
            _ => Err(TextKind::Expr(fault)),
        },
    }
}

/// What a line of a period says, whose words after the first are given.
pub(crate) fn period(alloc: Global, line: &[u8], words: Words<'_>) -> Result<Said, TextKind>
    requires { length line.now ≤ LONGEST_POLICY_LINE }
    ensures { ReadsAs result (period_by line.now (bounds_in words.entry)) }
{
    let Some(bounds) = bounds(words) else {
        return Err(TextKind::Form);
    };
    if bounds.last < bounds.first {
        return Err(TextKind::Bounds);
    }
    bounded(alloc, bounds, expression(line))
}

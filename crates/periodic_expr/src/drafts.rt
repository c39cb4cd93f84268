//! What a scan has found of an expression.
ghost use Rattle.std.specs.Prelude.{◌≡◌, ◌≤◌, ◌&&◌, ◌||◌, not, nat_eq, nat_le, nat_lt, length, option_map, IfOk, is_some, [], Some, None};
ghost use Rattle.std.specs.List.{list_any, take_while};
ghost use Rattle.gtrbac_model.specs.Valid.{is_below, is_same};
ghost use Rattle.periodic_expr.specs.Sketch.{empty, noted, put_in, put_into, acted, has_number, KeepsSketch};
ghost use Rattle.periodic_expr.specs.Drafts.{seen};

use crate::exprs::ExprPart;
use crate::faults::{ExprFault, ExprKind};
use crate::scan::Act;
use gt_base::{List, MAX_LENGTH};
use gtrbac_model::Calendar;
use std::alloc::{AllocError, Global};

/// The parts so far and the set of the part at hand, where its brace and where the token at hand
/// stands, the calendar of the last part, the length, and the first fault.
#[derive(Drop)]
pub(crate) struct ExprDraft {
    pub parts: Vec<ExprPart>,
    pub set: Option<Vec<u32>>,
    pub brace: u32,
    pub token: u32,
    pub above: Calendar,
    pub count: u32,
    pub unit: Calendar,
    pub fault: Option<ExprFault>,
}

/// Whether `c` stands strictly below `above`; weeks stand below nothing.
fn is_below(above: Calendar, c: Calendar) -> bool
    ensures { result ≡ is_below above c }
{
    match above {
        Calendar::Years => !matches!(c, Calendar::Years | Calendar::Weeks),
        Calendar::Months | Calendar::Weeks => {
            matches!(c, Calendar::Days | Calendar::Hours | Calendar::Minutes)
        }
        Calendar::Days => matches!(c, Calendar::Hours | Calendar::Minutes),
        Calendar::Hours => matches!(c, Calendar::Minutes),
        Calendar::Minutes => false,
    }
}

/// Whether two calendars are one, as the definition of a valid expression has it.
fn is_same(a: Calendar, b: Calendar) -> bool
    ensures { result ≡ is_same a b }
{
    a == b
}

/// The first fault stays.
fn noted(fault: Option<ExprFault>, good: bool, at: u32, kind: ExprKind) -> Option<ExprFault>
    ensures { result ≡ noted fault good at kind }
{
    match fault {
        Some(first) => Some(first),
        None if good => None,
        None => Some(ExprFault { at, kind }),
    }
}

/// Whether a number is one of a set.
fn is_in(numbers: &[u32], n: u32) -> bool
    ensures { result ≡ list_any (nat_eq n) numbers.now }
{
    numbers.iter().any(|m| n == *m)
}

/// How many of the numbers at the front are less.
fn place_of(numbers: &[u32], n: u32) -> usize
    ensures place { result ≡ length (take_while (λ m. nat_lt m n) numbers.now) }
    ensures bound { result ≤ length numbers.now }
{
    numbers.iter().take_while(|m| **m < n).count()
}

/// Puts the number in, so that the set stays ascending and without repeats.
fn put(mut numbers: Vec<u32>, n: u32) -> Result<Vec<u32>, AllocError>
    ensures { IfOk result (λ set. set.items ≡ put_in n numbers.items) }
{
    if is_in(&numbers, n) {
        return Ok(numbers);
    }
    let place = place_of(&numbers, n);
    numbers.insert(place, n)?;
    Ok(numbers)
}

/// A set begins at this place.
fn opened(alloc: Global, mut d: ExprDraft, at: u32) -> ExprDraft
    ensures { seen result ≡ acted Act.Open at (seen d) }
{
    d.fault = noted(d.fault, !d.parts.is_empty(), at, ExprKind::FirstNotAll);
    d.set = Some(Vec::new(alloc));
    d.brace = at;
    d
}

/// A token begins at this place.
fn begun(mut d: ExprDraft, at: u32) -> ExprDraft
    ensures { seen result ≡ acted Act.Begin at (seen d) }
{
    d.token = at;
    d
}

/// Puts a number into the set at hand; None, which is `all`, stays.
fn put_into(set: Option<Vec<u32>>, n: u32) -> Result<Option<Vec<u32>>, AllocError>
    ensures { IfOk result (λ more. option_map (λ v. v.items) more
        ≡ put_into n (option_map (λ v. v.items) set)) }
{
    match set {
        Some(numbers) => Ok(Some(put(numbers, n)?)),
        None => Ok(None),
    }
}

/// A number of the set has ended.
fn indexed(mut d: ExprDraft, n: u32) -> Result<ExprDraft, AllocError>
    ensures { IfOk result (λ e. seen e ≡ acted (Act.Index n) 0 (seen d)) }
{
    d.fault = noted(d.fault, n >= 1, d.token, ExprKind::ZeroIndex);
    let set = d.set.take();
    d.set = put_into(set, n)?;
    Ok(d)
}

/// The length's number has ended.
fn measured(mut d: ExprDraft, n: u32) -> ExprDraft
    ensures { seen result ≡ acted (Act.Length n) 0 (seen d) }
{
    d.fault = noted(
        d.fault,
        n >= 1 && n <= MAX_LENGTH,
        d.token,
        ExprKind::BadLength,
    );
    d.count = n;
    d
}

/// Whether a set picks anything; None, which is `all`, does.
fn has_number(set: &Option<Vec<u32>>) -> bool
    ensures { result ≡ has_number (option_map (λ v. v.items) set.now) }
{
    match set {
        None => true,
        Some(numbers) => !numbers.is_empty(),
    }
}

/// The set as it is kept in an expression; None is `all`.
fn listed(set: Option<Vec<u32>>) -> Option<List<u32>>
    ensures { option_map (λ l. l.items) result ≡ option_map (λ v. v.items) set }
{
    match set {
        Some(numbers) => Some(List::from(numbers)),
        None => None,
    }
}

/// A part has ended with its calendar.
fn parted(mut d: ExprDraft, c: Calendar) -> Result<ExprDraft, AllocError>
    ensures { IfOk result (λ e. seen e ≡ acted (Act.Part c) 0 (seen d)) }
{
    let fault = noted(d.fault, has_number(&d.set), d.brace, ExprKind::EmptySet);
    let finer = d.parts.is_empty() || is_below(d.above, c);
    d.fault = noted(fault, finer, d.token, ExprKind::NotFiner);
    let set = listed(d.set.take());
    d.above = c;
    d.unit = c;
    d.parts.push(ExprPart { calendar: c, set })?;
    Ok(d)
}

/// The length has ended with its calendar.
fn united(mut d: ExprDraft, c: Calendar) -> ExprDraft
    ensures { seen result ≡ acted (Act.Unit c) 0 (seen d) }
{
    let finer = is_same(d.above, c) || is_below(d.above, c);
    d.fault = noted(d.fault, finer, d.token, ExprKind::NotFiner);
    d.unit = c;
    d
}

impl ExprDraft {
    /// Nothing found yet.
    pub(crate) fn new(alloc: Global) -> ExprDraft
        ensures { seen result ≡ empty }
    {
        ExprDraft {
            parts: Vec::new(alloc),
            set: None,
            brace: 0,
            token: 0,
            above: Calendar::Years,
            count: 1,
            unit: Calendar::Years,
            fault: None,
        }
    }
}

/// The draft after what a step tells, at its place.
pub(crate) fn acted(alloc: Global, d: ExprDraft, act: Act, at: u32) -> Result<ExprDraft, AllocError>
    ensures { IfOk result (λ e. seen e ≡ acted act at (seen d)) }
{
    match act {
        Act::Nothing => Ok(d),
        Act::Open => Ok(opened(alloc, d, at)),
        Act::Begin => Ok(begun(d, at)),
        Act::Index(n) => indexed(d, n),
        Act::Length(n) => Ok(measured(d, n)),
        Act::Part(c) => parted(d, c),
        Act::Unit(c) => Ok(united(d, c)),
    }
}

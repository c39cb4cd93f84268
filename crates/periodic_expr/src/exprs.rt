//! Expressions that are valid by their type.
ghost use Rattle.std.specs.Prelude.{◌≡◌, ◌≤◌, IfOk, IsTrue, option_map};
ghost use Rattle.gtrbac_model.specs.Valid.{is_expr, is_period};

use gt_base::{Instant, List, Memory};
use gtrbac_model::Calendar;
use std::alloc::Global;
use std::marker::Model;

/// All intervals of a calendar, or those with these numbers, ascending without repeats. Seen
/// without the room of its list.
pub struct ExprPart {
    pub calendar: Calendar,
    pub set: Option<List<u32>>,
}

impl Drop for ExprPart {
    fn drop(self) {
        let ExprPart {
            calendar: _,
            set: _,
        } = self;
    }
}

impl Model for ExprPart {
    ghost use Rattle.std.specs.Prelude.{option_map};
    ghost use Rattle.gtrbac_model.specs.Period.{Part, part_code};

    ghost Value = { Part };

    ghost coded = { part_code };

    ghost view = { λ p. record { calendar = p.calendar; set = option_map (λ l. l.items) p.set } };
}

/// A copy of a set; None is `all`.
fn copied_set(set: &Option<List<u32>>) -> Result<Option<List<u32>>, Memory>
    ensures { IfOk result (λ copy. option_map (λ l. l.items) copy
        ≡ option_map (λ l. l.items) set.now) }
{
    match set {
        Some(numbers) => Ok(Some(numbers.copied()?)),
        None => Ok(None),
    }
}

impl ExprPart {
    /// An equal part.
    pub fn copied(&self) -> Result<ExprPart, Memory>
        ensures { IfOk result (λ copy. copy ≡ self.now) }
    {
        Ok(ExprPart {
            calendar: self.calendar,
            set: copied_set(&self.set)?,
        })
    }
}

/// A copy of the parts, each with a set of its own.
fn copied_parts(alloc: Global, parts: &[ExprPart]) -> Result<Vec<ExprPart>, Memory>
    ensures { IfOk result (λ copies. copies.items ≡ parts.now) }
{
    let mut copies = Vec::new(alloc);
    for part in parts {
        let copy = part.copied()?;
        copies.push(copy)?;
    }
    Ok(copies)
}

/// A periodic expression: its parts, of which the first takes all, and its length. It is valid by
/// its type, and seen as its list of parts and its length with its calendar.
pub struct Expr {
    parts: List<ExprPart>,
    count: u32,
    unit: Calendar,
}

impl Drop for Expr {
    fn drop(self) {
        let Expr {
            parts: _,
            count: _,
            unit: _,
        } = self;
    }
}

impl Model for Expr {
    ghost use Rattle.std.specs.Prelude.{IsTrue};
    ghost use Rattle.gtrbac_model.specs.Period.{Expr as ExprParts, expr_code};
    ghost use Rattle.gtrbac_model.specs.Valid.{is_expr};

    ghost Value = { ExprParts };

    ghost coded = { expr_code };

    ghost view = { λ e. record { parts = e.parts.items; count = e.count; unit = e.unit } };

    ghost invariant = { λ e. IsTrue (is_expr (record {
      parts = e.parts.items;
      count = e.count;
      unit = e.unit;
    })) };
}

impl Expr {
    /// The expression of these parts and this length.
    pub(crate) fn of(parts: Vec<ExprPart>, count: u32, unit: Calendar) -> Expr
        requires { IsTrue (is_expr (record { parts = parts.items; count = count; unit = unit })) }
        ensures { result ≡ record { parts = parts.items; count = count; unit = unit } }
    {
        Expr {
            parts: List::from(parts),
            count,
            unit,
        }
    }

    /// An equal expression.
    pub fn copied(&self, alloc: Global) -> Result<Expr, Memory>
        ensures { IfOk result (λ copy. copy ≡ self.now) }
    {
        Ok(Expr {
            parts: List::from(copied_parts(alloc, self.parts.as_slice())?),
            count: self.count,
            unit: self.unit,
        })
    }

    /// What every expression keeps: it is valid.
    pub fn keeps(&self)
        ensures { IsTrue (is_expr self.now) }
    {
        let _ = &self.parts;
    }

    /// The parts, each of a calendar below the one before it.
    pub fn parts(&self) -> &List<ExprPart>
        ensures parts { result.now.items ≡ self.now.parts }
        ensures valid { IsTrue (is_expr self.now) }
    {
        &self.parts
    }

    /// How many intervals of which calendar a begin lasts: 1 to 1,000 of the last part's calendar
    /// or of one below it.
    pub fn length(&self) -> (u32, Calendar)
        ensures count { result.0 ≡ self.now.count }
        ensures unit { result.1 ≡ self.now.unit }
        ensures valid { IsTrue (is_expr self.now) }
    {
        (self.count, self.unit)
    }
}

/// The instants of an expression from the first to the last, both included; the first is not after
/// the last.
pub struct Period {
    pub first: Instant,
    pub last: Instant,
    pub expr: Expr,
}

impl Drop for Period {
    fn drop(self) {
        let Period {
            first: _,
            last: _,
            expr: _,
        } = self;
    }
}

impl Model for Period {
    ghost use Rattle.std.specs.Prelude.{◌≤◌};
    ghost use Rattle.gtrbac_model.specs.Period.{Period as Bounded, period_code};

    ghost Value = { Bounded };

    ghost coded = { period_code };

    ghost view = { λ p. record { first = p.first; last = p.last; expr = p.expr } };

    ghost invariant = { λ p. p.first ≤ p.last };
}

impl Period {
    /// An equal period.
    pub fn copied(&self, alloc: Global) -> Result<Period, Memory>
        ensures { IfOk result (λ copy. copy ≡ self.now) }
    {
        Ok(Period {
            first: self.first,
            last: self.last,
            expr: self.expr.copied(alloc)?,
        })
    }

    /// What every period keeps: bounds in order, within the instants, and a valid expression.
    pub fn keeps(&self)
        ensures { IsTrue (is_period self.now) }
    {
        self.first.keeps();
        self.last.keeps();
        self.expr.keeps();
    }
}

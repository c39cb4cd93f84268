//! The canonical text of an expression.
ghost use Rattle.std.specs.Prelude.{◌≡◌, ◌++◌, flat_map, option_map, codes, decimal, IfOk, OnOk};
ghost use Rattle.periodic_expr.specs.Scan.{calendar_word};
ghost use Rattle.periodic_expr.specs.Printed.{later_number, numbers_text, set_text, part_text, later_part, parts_text, expr_text};

use crate::exprs::{Expr, ExprPart};
use crate::scan::name_of;
use gt_base::{List, Memory};
use gtrbac_model::Calendar;
use itoa::Buffer;
use std::alloc::{AllocError, Global};

/// Adds a number in decimal.
fn push_number(text: &mut Vec<u8>, n: u32) -> Result<(), AllocError>
    ensures { OnOk result (text.new.items ≡ text.old.items ++ decimal n) }
{
    let mut buffer = Buffer::new();
    text.extend_from_slice(buffer.format(n).as_bytes())
}

/// A point and a calendar.
fn push_calendar(text: &mut Vec<u8>, c: Calendar) -> Result<(), AllocError>
    ensures { OnOk result (text.new.items ≡ text.old.items ++ codes "." ++ calendar_word c) }
{
    text.extend_from_slice(b".")?;
    text.extend_from_slice(name_of(c))
}

/// Adds a comma and a number: one behind the first of a set.
fn push_later_number(text: &mut Vec<u8>, n: u32) -> Result<(), AllocError>
    ensures { OnOk result (text.new.items ≡ text.old.items ++ later_number n) }
{
    text.extend_from_slice(b",")?;
    push_number(text, n)
}

/// Adds the numbers behind the first, with a comma before each.
fn push_later_numbers(text: &mut Vec<u8>, numbers: &[u32]) -> Result<(), AllocError>
    ensures { OnOk result (text.new.items ≡ text.old.items ++ flat_map later_number numbers.now) }
{
    for n in numbers {
        push_later_number(text, *n)?;
    }
    Ok(())
}

/// Adds the numbers of a set, with commas between them; nothing for the empty set.
fn push_numbers(text: &mut Vec<u8>, numbers: &[u32]) -> Result<(), AllocError>
    ensures { OnOk result (text.new.items ≡ text.old.items ++ numbers_text numbers.now) }
{
    match numbers {
        [] => Ok(()),
        [first, more @ ..] => {
            push_number(text, *first)?;
            push_later_numbers(text, more)
        }
    }
}

/// Adds `all` for None, else the numbers in braces.
fn push_set(text: &mut Vec<u8>, set: &Option<List<u32>>) -> Result<(), AllocError>
    ensures { OnOk result (text.new.items ≡ text.old.items
        ++ set_text (option_map (λ l. l.items) set.now)) }
{
    match set {
        None => text.extend_from_slice(b"all"),
        Some(numbers) => {
            text.extend_from_slice(b"{")?;
            push_numbers(text, numbers.as_slice())?;
            text.extend_from_slice(b"}")
        }
    }
}

/// Adds a part: its set, a point and its calendar.
fn push_part(text: &mut Vec<u8>, part: &ExprPart) -> Result<(), AllocError>
    ensures { OnOk result (text.new.items ≡ text.old.items ++ part_text part.now) }
{
    push_set(text, &part.set)?;
    push_calendar(text, part.calendar)
}

/// Adds ` + ` and a part: one behind the first.
fn push_later_part(text: &mut Vec<u8>, part: &ExprPart) -> Result<(), AllocError>
    ensures { OnOk result (text.new.items ≡ text.old.items ++ later_part part.now) }
{
    text.extend_from_slice(b" + ")?;
    push_part(text, part)
}

/// Adds the parts behind the first, with ` + ` before each.
fn push_later_parts(text: &mut Vec<u8>, parts: &[ExprPart]) -> Result<(), AllocError>
    ensures { OnOk result (text.new.items ≡ text.old.items ++ flat_map later_part parts.now) }
{
    for part in parts {
        push_later_part(text, part)?;
    }
    Ok(())
}

/// Adds the parts, with ` + ` between them.
fn push_parts(text: &mut Vec<u8>, parts: &[ExprPart]) -> Result<(), AllocError>
    ensures { OnOk result (text.new.items ≡ text.old.items ++ parts_text parts.now) }
{
    match parts {
        [] => Ok(()),
        [first, more @ ..] => {
            push_part(text, first)?;
            push_later_parts(text, more)
        }
    }
}

/// The one canonical text of an expression: sets ascending without repeats, ` + ` and ` > ` with
/// one space on each side and no other space, and always the length.
pub fn print_expr(alloc: Global, e: &Expr) -> Result<List<u8>, Memory>
    ensures { IfOk result (λ text. text.items ≡ expr_text e.now) }
{
    let mut text = Vec::new(alloc);
    push_parts(&mut text, e.parts().as_slice())?;
    text.extend_from_slice(b" > ")?;
    let (count, unit) = e.length();
    push_number(&mut text, count)?;
    push_calendar(&mut text, unit)?;
    Ok(List::from(text))
}

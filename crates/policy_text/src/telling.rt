//! The texts by which the faults of policies are told.
ghost use Rattle.std.specs.Prelude.{◌≡◌, ◌++◌, codes, decimal, flat_map, OnOk};
ghost use Rattle.policy_words.specs.PolicyRead.{at_line, text_kind_text, expr_kind_word, kind_word};
ghost use Rattle.policy_text.specs.FaultTexts.{with_bar, joined, cycle_of_names, text_of_book};

use crate::faults::TextFault;
use gt_base::{Memory, Name};
use gt_text::push_number;
use periodic_expr::{ExprFault, ExprKind};
use policy_book::BookFault;
use policy_words::{Kind, TextKind};

/// The word of an expression's fault.
fn expr_word(kind: ExprKind) -> &'static [u8]
    ensures { result.now ≡ expr_kind_word kind }
{
    match kind {
        ExprKind::Syntax => b"syntax",
        ExprKind::FirstNotAll => b"first-not-all",
        ExprKind::NotFiner => b"not-finer",
        ExprKind::ZeroIndex => b"zero-index",
        ExprKind::EmptySet => b"empty-set",
        ExprKind::BadLength => b"bad-length",
        ExprKind::Memory => b"",
    }
}

/// Adds `expr KIND at N`; N is a byte of the expression, counted from 0.
fn push_expr_fault(text: &mut Vec<u8>, fault: ExprFault) -> Result<(), Memory>
    ensures { OnOk result (text.new.items ≡ text.old.items
        ++ (codes "expr " ++ expr_kind_word fault.kind ++ codes " at " ++ decimal fault.at)) }
{
    text.extend_from_slice(b"expr ")?;
    text.extend_from_slice(expr_word(fault.kind))?;
    text.extend_from_slice(b" at ")?;
    push_number(text, u64::from(fault.at))
}

/// Adds the word of a line's fault; nothing for want of memory, which no text tells.
fn push_kind(text: &mut Vec<u8>, kind: TextKind) -> Result<(), Memory>
    ensures { OnOk result (text.new.items ≡ text.old.items ++ text_kind_text kind) }
{
    match kind {
        TextKind::Long => text.extend_from_slice(b"long"),
        TextKind::Version => text.extend_from_slice(b"version"),
        TextKind::Word => text.extend_from_slice(b"word"),
        TextKind::Form => text.extend_from_slice(b"form"),
        TextKind::Body => text.extend_from_slice(b"body"),
        TextKind::Bounds => text.extend_from_slice(b"bounds"),
        TextKind::Expr(fault) => push_expr_fault(text, fault),
        TextKind::Memory => Ok(()),
    }
}

/// Adds `policy LINE: `, the front of what is told of a line, counted from 1.
fn push_line_head(text: &mut Vec<u8>, line: u32) -> Result<(), Memory>
    ensures { OnOk result (text.new.items ≡ text.old.items
        ++ (codes "policy " ++ decimal line ++ codes ": ")) }
{
    text.extend_from_slice(b"policy ")?;
    push_number(text, u64::from(line))?;
    text.extend_from_slice(b": ")
}

/// Adds the text of a fault of a line.
pub fn push_text_fault(text: &mut Vec<u8>, fault: TextFault) -> Result<(), Memory>
    ensures { OnOk result (text.new.items ≡ text.old.items
        ++ at_line fault.line (text_kind_text fault.kind)) }
{
    push_line_head(text, fault.line)?;
    push_kind(text, fault.kind)?;
    text.extend_from_slice(b"\n")
}

/// What is told of a kind that has too many lines.
fn many_of(kind: Kind) -> &'static [u8]
    ensures { result.now ≡ codes "many " ++ kind_word kind }
{
    match kind {
        Kind::Roles => b"many roles",
        Kind::Users => b"many users",
        Kind::Perms => b"many perms",
        Kind::Periods => b"many periods",
        Kind::Limits => b"many limits",
        Kind::Edges => b"many edges",
        Kind::Entries => b"many entries",
        Kind::Triggers => b"many triggers",
        Kind::Assigned => b"many assigned",
        Kind::Granted => b"many granted",
    }
}

/// Adds the line of the first line that exceeds the limit of its kind.
fn push_many(text: &mut Vec<u8>, line: u32, what: Kind) -> Result<(), Memory>
    ensures { OnOk result (text.new.items ≡ text.old.items
        ++ at_line line (codes "many " ++ kind_word what)) }
{
    push_at_line(text, line, many_of(what))
}

/// Adds `policy LINE: ` and what is at fault there, with a line feed.
fn push_at_line(text: &mut Vec<u8>, line: u32, what: &[u8]) -> Result<(), Memory>
    ensures { OnOk result (text.new.items ≡ text.old.items ++ at_line line what.now) }
{
    push_line_head(text, line)?;
    text.extend_from_slice(what)?;
    text.extend_from_slice(b"\n")
}

/// Adds names with `>` between them.
fn push_joined(text: &mut Vec<u8>, names: &[Name]) -> Result<(), Memory>
    ensures { OnOk result (text.new.items ≡ text.old.items ++ joined names.now) }
{
    match names {
        [] => Ok(()),
        [first, more @ ..] => {
            text.extend_from_slice(first.bytes())?;
            push_more(text, more)
        }
    }
}

/// Adds names with a `>` before each, the first one too.
fn push_more(text: &mut Vec<u8>, names: &[Name]) -> Result<(), Memory>
    ensures { OnOk result (text.new.items ≡ text.old.items ++ flat_map with_bar names.now) }
{
    for name in names {
        push_with_bar(text, name)?;
    }
    Ok(())
}

/// Adds `>` and a name.
fn push_with_bar(text: &mut Vec<u8>, name: &Name) -> Result<(), Memory>
    ensures { OnOk result (text.new.items ≡ text.old.items ++ with_bar name.now) }
{
    text.extend_from_slice(b">")?;
    text.extend_from_slice(name.bytes())
}

/// `policy: cycle ` and the names along it, with a line feed.
fn push_cycle(text: &mut Vec<u8>, names: &[Name]) -> Result<(), Memory>
    ensures { OnOk result (text.new.items ≡ text.old.items ++ cycle_of_names names.now) }
{
    text.extend_from_slice(b"policy: cycle ")?;
    push_joined(text, names)?;
    text.extend_from_slice(b"\n")
}

/// Adds the text of a fault of the lines together; of want of memory nothing.
pub fn push_book_fault(text: &mut Vec<u8>, fault: &BookFault) -> Result<(), Memory>
    ensures { OnOk result (text.new.items ≡ text.old.items ++ text_of_book fault.now) }
{
    match fault {
        BookFault::Unknown { line } => push_at_line(text, *line, b"unknown"),
        BookFault::Twice { line } => push_at_line(text, *line, b"twice"),
        BookFault::TooMany { line, what } => push_many(text, *line, *what),
        BookFault::HierarchyCycle { edges: _, names } => push_cycle(text, names.as_slice()),
        BookFault::Memory => Ok(()),
    }
}

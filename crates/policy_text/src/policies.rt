//! From the bytes of a text to its policy, or to the text of its fault.
ghost use Rattle.std.specs.Prelude.{◌≡◌, ◌<◌, ◌^◌, ◌++◌, true, length, IfOk};
ghost use Rattle.gt_text.specs.Lines.{lines_of};
ghost use Rattle.policy_words.specs.Reading.{read_lines};
ghost use Rattle.policy_words.specs.declared.versions.TextVersion.TheVariants.{Open};
ghost use Rattle.policy_words.specs.PolicyRead.{at_line, text_kind_text};
ghost use Rattle.policy_text.specs.Faults.{IsTextFault, is_memory};
ghost use Rattle.policy_text.specs.FaultTexts.{text_of_book};
ghost use Rattle.policy_text.specs.Texts.{IsPolicyText, IsBookFault, is_want};

use crate::{TextFault, TextKind, push_book_fault, push_text_fault, read_policy};
use gt_base::Memory;
use policy_book::{BookFault, Policy};
use std::alloc::{AllocError, Global};

/// The policy of a text, or the text of its fault, with a line feed.
#[derive(Drop)]
pub enum PolicyText {
    Policy(Policy),
    Fault(Vec<u8>),
}

/// The text of a line's fault, made anew.
fn line_fault(alloc: Global, fault: TextFault) -> Result<Vec<u8>, Memory>
    ensures { IfOk result (λ told. told.items ≡ at_line fault.line (text_kind_text fault.kind)) }
{
    let mut told = Vec::new(alloc);
    push_text_fault(&mut told, fault)?;
    Ok(told)
}

/// The text of a fault of the lines together, made anew; empty for want of memory.
fn book_fault(alloc: Global, fault: &BookFault) -> Result<Vec<u8>, Memory>
    ensures { IfOk result (λ told. told.items ≡ text_of_book fault.now) }
{
    let mut told = Vec::new(alloc);
    push_book_fault(&mut told, fault)?;
    Ok(told)
}

/// Whether a line's fault is want of memory.
fn is_wanting(kind: TextKind) -> bool
    ensures { result ≡ is_memory kind }
{
    match kind {
        TextKind::Memory => true,
        TextKind::Long
        | TextKind::Version
        | TextKind::Word
        | TextKind::Form
        | TextKind::Body
        | TextKind::Bounds
        | TextKind::Expr(_) => false,
    }
}

/// What is told of a fault of a line.
fn told_text(alloc: Global, text: &[u8], fault: TextFault) -> Result<PolicyText, Memory>
    requires { IsTextFault (read_lines Open 1 (lines_of text.now)) fault }
    ensures { IfOk result (IsPolicyText text.now) }
{
    if is_wanting(fault.kind) {
        return Err(AllocError);
    }
    Ok(PolicyText::Fault(line_fault(alloc, fault)?))
}

/// Whether a fault is want of memory.
fn is_memory(fault: &BookFault) -> bool
    ensures { result ≡ is_want fault.now }
{
    match fault {
        BookFault::Memory => true,
        BookFault::Unknown { .. }
        | BookFault::Twice { .. }
        | BookFault::TooMany { .. }
        | BookFault::HierarchyCycle { .. } => false,
    }
}

/// What is told of a fault of the lines together.
fn told_book(alloc: Global, text: &[u8], fault: &BookFault) -> Result<PolicyText, Memory>
    requires { IsBookFault text.now fault.now }
    ensures { IfOk result (IsPolicyText text.now) }
{
    if is_memory(fault) {
        return Err(AllocError);
    }
    Ok(PolicyText::Fault(book_fault(alloc, fault)?))
}

/// The policy that the bytes stand for, or the text of their fault: of the first line that has one,
/// else the first of the lines together. The text has fewer than 4,294,967,296 bytes. Only want of
/// memory is free.
pub fn policy_of(alloc: Global, text: &[u8]) -> Result<PolicyText, Memory>
    requires { length text.now < 2 ^ 32 }
    ensures { IfOk result (IsPolicyText text.now) }
{
    let parts = match read_policy(alloc, text) {
        Ok(parts) => parts,
        Err(fault) => return told_text(alloc, text, fault),
    };
    match Policy::build(alloc, parts) {
        Ok(policy) => Ok(PolicyText::Policy(policy)),
        Err(fault) => told_book(alloc, text, &fault),
    }
}

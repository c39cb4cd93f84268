//! The text of a policy, read line by line up to the first line with a fault.
ghost use Rattle.std.specs.Prelude.{◌≡◌, ◌<◌, ◌^◌, ◌++◌, [], ◌∷◌, true, length, IfOk, IfErr, OnOk, Ok, IsTrue, MatchBool};
ghost use Rattle.gt_text.specs.Lines.{lines_of};
ghost use Rattle.policy_words.specs.Reading.{read_lines};
ghost use Rattle.policy_words.specs.declared.versions.TextVersion.TheVariants.{Open};
ghost use Rattle.policy_words.specs.Sayings.{is_saying};
ghost use Rattle.policy_words.specs.Seen.{seen_said};
ghost use Rattle.policy_book.specs.Said.{are_before, is_placed};
ghost use Rattle.policy_text.specs.Faults.{IsTextFault, want_of_memory, is_memory};

use crate::faults::TextFault;
use gt_text::Lines;
use policy_book::Parts;
use policy_lines::read_said;
use policy_words::{Said, TextKind, TextVersion};
use std::alloc::Global;

/// Want of memory.
const MEMORY: TextFault = TextFault {
    line: 0,
    kind: TextKind::Memory,
};

/// What the lines of a policy say, or the fault of the least line that has one. The text has fewer
/// than 4,294,967,296 bytes.
pub fn read_policy(alloc: Global, text: &[u8]) -> Result<Parts, TextFault>
    requires { length text.now < 2 ^ 32 }
    ensures ok { IfOk result (λ parts. read_lines Open 1 (lines_of text.now) ≡ Ok parts) }
    ensures fault { IfErr result (IsTextFault (read_lines Open 1 (lines_of text.now))) }
{
    let mut parts = Parts::new(alloc);
    let mut lines = Lines::new(text);
    let mut number: u32 = 0;
    let mut version = TextVersion::Open;
    while let Some(line) = lines.next() {
        number += 1;
        match read_said(alloc, version, line) {
            Ok(None) => {}
            Ok(Some(said)) => {
                let next = version.after(&said);
                add(&mut parts, number, said)?;
                version = next;
            }
            Err(kind) => return Err(fault(number, kind)),
        }
    }
    Ok(parts)
}

/// Adds what a line says.
fn add(parts: &mut Parts, line: u32, said: Said) -> Result<(), TextFault>
    requires said { IsTrue (is_saying (seen_said said)) }
    requires later { IsTrue (are_before line parts.old) }
    requires placed { IsTrue (is_placed parts.old (seen_said said)) }
    ensures ok { OnOk result (parts.new ≡ parts.old ++ record { line = line; it = seen_said said }
        ∷ []) }
    ensures err { IfErr result (λ f. f ≡ want_of_memory) }
{
    match parts.add(line, said) {
        Ok(()) => Ok(()),
        Err(_) => Err(MEMORY),
    }
}

/// The fault of a line.
fn fault(line: u32, kind: TextKind) -> TextFault
    ensures { MatchBool (is_memory kind) (result ≡ want_of_memory)
        (result ≡ record { line = line; kind = kind }) }
{
    match kind {
        TextKind::Memory => MEMORY,
        TextKind::Long
        | TextKind::Version
        | TextKind::Word
        | TextKind::Form
        | TextKind::Body
        | TextKind::Bounds
        | TextKind::Expr(_) => TextFault { line, kind },
    }
}

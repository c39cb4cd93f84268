//! The first fault of a line.
ghost use Rattle.std.specs.Prelude.{◌≡◌, [], Some, None, OnOk, IfErr};
ghost use Rattle.policy_words.specs.LinesTogether.{first_fault};
ghost use Rattle.policy_book.specs.Seen.{seen_names};
ghost use Rattle.policy_book.specs.Tallies.{told_at};
ghost use Rattle.policy_book.specs.Faults.{IsLineFault};

use crate::faults::BookFault;
use crate::lines::Part;
use crate::names::NameTables;
use crate::tallies::{ClaimTally, TallyFault};
use std::alloc::Global;

/// A fault of a line beside the others, with the line's number, from 1.
fn fault_at(line: u32, fault: TallyFault) -> BookFault
    ensures { IsLineFault (Some (told_at line fault)) result }
{
    match fault {
        TallyFault::Unknown => BookFault::Unknown { line },
        TallyFault::Twice => BookFault::Twice { line },
        TallyFault::TooMany(what) => BookFault::TooMany { line, what },
    }
}

/// Tells the first fault of a line, with the lines before it, over all names.
#[tactic(auto, using(crate::proofs::Tallying::told_first))]
pub(crate) fn check_lines(
    alloc: Global,
    names: &NameTables,
    parts: &[Part],
) -> Result<(), BookFault>
    ensures ok { OnOk result (first_fault (seen_names names.now) [] parts.now ≡ None) }
    ensures fault { IfErr result (IsLineFault (first_fault (seen_names names.now) [] parts.now)) }
{
    let mut tally = ClaimTally::new(alloc);
    for part in parts {
        if let Some(fault) = tally.fault(names, &part.said) {
            return Err(fault_at(part.line, fault));
        }
        tally.add(&part.said)?;
    }
    Ok(())
}

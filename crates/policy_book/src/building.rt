//! From lines to what they make, or their first fault.
ghost use Rattle.std.specs.Prelude.{◌≡◌, IfOk, IfErr};
ghost use Rattle.policy_words.specs.Making.{names_of, is_second, are_second};
ghost use Rattle.policy_words.specs.Seen.{seen_said};
ghost use Rattle.policy_words.specs.LinesTogether.{said_in};
ghost use Rattle.policy_book.specs.Said.{AreParts};
ghost use Rattle.policy_book.specs.Seen.{seen_names};
ghost use Rattle.policy_book.specs.Drafts.{seen_draft};
ghost use Rattle.policy_book.specs.Faults.{IsFault};
ghost use Rattle.policy_book.specs.Sound.{IsSound};

use crate::checking::check_lines;
use crate::cycles::check_edges;
use crate::drafts::{Draft, draft_of};
use crate::faults::BookFault;
use crate::lines::Part;
use crate::names::NameTables;
use policy_words::Said;
use std::alloc::Global;

/// Whether the line tells version 2.
fn is_second(said: &Said) -> bool
    ensures { result ≡ is_second (seen_said said.now) }
{
    matches!(said, Said::Version(2))
}

/// Whether the lines have version 2.
pub(crate) fn are_second(parts: &[Part]) -> bool
    ensures { result ≡ are_second (said_in parts.now) }
{
    for part in parts {
        if is_second(&part.said) {
            return true;
        }
    }
    false
}

/// What all lines make, or the first fault of the lines together.
pub(crate) fn sound_draft(
    alloc: Global,
    names: &NameTables,
    parts: Vec<Part>,
) -> Result<Draft, BookFault>
    requires named { seen_names names.now ≡ names_of (said_in parts.items) }
    requires kept { AreParts parts.items }
    ensures ok { IfOk result (λ draft. IsSound parts.items (seen_names names.now)
        (seen_draft draft)) }
    ensures fault { IfErr result (IsFault parts.items) }
{
    if let Err(fault) = check_lines(alloc, names, &parts) {
        return Err(fault);
    }
    let draft = match draft_of(alloc, names, parts) {
        Ok(draft) => draft,
        Err(_) => return Err(BookFault::Memory),
    };
    if let Err(fault) = check_edges(alloc, names, &draft.edges) {
        return Err(fault);
    }
    Ok(draft)
}

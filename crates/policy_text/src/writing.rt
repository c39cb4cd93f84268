//! The canonical text of a policy, written.
ghost use Rattle.std.specs.Prelude.{◌≡◌, ◌++◌, IfOk, OnOk};
ghost use Rattle.policy_words.specs.Canonical.{canonical_text};

use crate::declarations::push_named;
use crate::hierarchy::push_ranked;
use crate::opening::push_opened;
use crate::periods::push_timed;
use crate::rules::push_ruled;
use gt_base::{List, Memory};
use policy_book::Policy;
use std::alloc::Global;

/// Adds the lines, a section after another.
fn push_sections(text: &mut Vec<u8>, p: &Policy) -> Result<(), Memory>
    ensures { OnOk result (text.new.items ≡ text.old.items ++ canonical_text p.now) }
{
    push_named(text, p)?;
    push_timed(text, p)?;
    push_ranked(text, p)?;
    push_opened(text, p)?;
    push_ruled(text, p)
}

/// The canonical text of a policy: its lines in a fixed order, words with one space between them,
/// each line with a line feed.
pub fn write_policy(alloc: Global, p: &Policy) -> Result<List<u8>, Memory>
    ensures { IfOk result (λ text. text.items ≡ canonical_text p.now) }
{
    let mut text = Vec::new(alloc);
    push_sections(&mut text, p)?;
    Ok(List::from(text))
}

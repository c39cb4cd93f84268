//! The policy that a program is called over.
ghost use Rattle.std.specs.Prelude.{◌≡◌, IfOk};
ghost use Rattle.gt_io.specs.Causes.{Rose};
ghost use Rattle.gt_io.specs.Shelf.{AsksOnce};
ghost use Rattle.gt_text.specs.Words.{begins_with};
ghost use Rattle.policy_commands.specs.Finding.{IsFoundText, IsFailure, IsSteady};

use crate::ends::{End, end_with};
use gt_base::Memory;
use gt_io::{ReadFault, Shelf, find_all};
use std::alloc::{AllocError, Global};

/// The most bytes of a policy.
pub const MAX_POLICY: usize = 4_194_304;

/// Whether a word begins with `-`, and so is no name of a policy.
pub fn is_dashed(name: &str) -> bool
    ensures { result ≡ begins_with 45 name.now }
{
    match name.as_bytes() {
        [] => false,
        [first, ..] => *first == b'-',
    }
}

/// The text of a policy that is not too long, or how a program ends without it.
#[derive(Drop)]
pub enum FoundText {
    Text(Vec<u8>),
    Ended(End),
}

/// The text of the name on the shelf. Else the end: `read fault` with status 4 where the shelf
/// failed or has no such text, `too long: policy` with status 6 where that has more than 4,194,304
/// bytes. Only want of memory is free. The shelf is asked for one text, and behind a call that
/// failed or told the end for nothing.
pub fn find_text<S: Shelf>(alloc: Global, shelf: &mut S, name: &str) -> Result<FoundText, Memory>
    ensures found { IfOk result
        (IsFoundText (Rose (S.stock shelf.old).hard_faults (S.stock shelf.new).hard_faults)
        (S.stock shelf.old).contents name.now) }
    ensures failed { IfOk result (IsFailure (Rose (S.stock shelf.old).faults
        (S.stock shelf.new).faults)) }
    ensures steady { IfOk result (IsSteady ((S.stock shelf.new).hard_faults
        ≡ (S.stock shelf.old).hard_faults)) }
    ensures same { (S.stock shelf.new).contents ≡ (S.stock shelf.old).contents }
    ensures once { AsksOnce (S.stock shelf.old) (S.stock shelf.new) }
{
    match find_all(alloc, shelf, name, MAX_POLICY) {
        Ok(text) => Ok(FoundText::Text(text)),
        Err(ReadFault::Memory) => Err(AllocError),
        Err(ReadFault::Failed) => Ok(FoundText::Ended(end_with(alloc, 4, b"read fault\n")?)),
        Err(ReadFault::TooLong) => Ok(FoundText::Ended(end_with(alloc, 6, b"too long: policy\n")?)),
    }
}

//! What a command prints, with its exit status.
ghost use Rattle.std.specs.Prelude.{◌≡◌, IfOk};
ghost use Rattle.policy_commands.specs.Ends.{seen_end, ending};

use gt_base::{List, Memory};
use std::alloc::Global;

/// What a command prints, and its exit status.
#[derive(Drop)]
pub struct End {
    pub status: u8,
    pub text: List<u8>,
}

/// An end with this text. Only want of memory is free.
pub fn end_with(alloc: Global, status: u8, text: &[u8]) -> Result<End, Memory>
    ensures { IfOk result (λ end. seen_end end ≡ ending status text.now) }
{
    Ok(End {
        status,
        text: List::from(text.to_vec(alloc)?),
    })
}

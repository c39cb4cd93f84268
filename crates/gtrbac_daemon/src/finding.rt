//! The policy that the server is to serve.
ghost use Rattle.std.specs.Prelude.{◌≡◌, None, option_map, IfOk, IfErr};
ghost use Rattle.gtrbac_daemon.specs.Words.{Admits, IsSearched};
ghost use Rattle.gtrbac_daemon.specs.Runs.{bare, IsUnserved};

use crate::printing::USAGE;
use gt_io::{Shelf, Sink};
use policy_commands::{Admitted, FoundText, admit, find_text, print};
use policy_safety::Safe;
use std::alloc::Global;

/// The safe policy of the name that the words say. Else it prints why there is none, and answers
/// the status.
pub(crate) fn find_safe<S: Shelf, K: Sink>(
    alloc: Global,
    said: Option<&str>,
    shelf: &mut S,
    out: &mut K,
) -> Result<Safe, u8>
    ensures admitted { IfOk result
        (Admits (S.stock shelf.old).contents (option_map (λ name. name.now) said.entry)) }
    ensures kept { IfOk result
        (λ safe. ((S.stock shelf.new).hard_faults ≡ (S.stock shelf.old).hard_faults)
        × (out.new ≡ out.old)) }
    ensures ended { IfErr result
        (λ status. IsUnserved (option_map (λ name. name.now) said.entry) status
        (bare (S.stock shelf.old) (K.output out.old))
        (bare (S.stock shelf.new) (K.output out.new))) }
    ensures unread { option_map (λ name. name.now) said.entry ≡ None → shelf.new ≡ shelf.old }
    ensures searched { IsSearched (S.stock shelf.old) (S.stock shelf.new) }
{
    let Some(name) = said else {
        return Err(print(out, 1, USAGE));
    };
    match find_text(alloc, shelf, name) {
        Ok(FoundText::Text(text)) => match admit(alloc, &text) {
            Ok(Admitted::Safe(safe)) => Ok(safe),
            Ok(Admitted::Ended(end)) => Err(print(out, end.status, end.text.as_slice())),
            Err(_) => Err(8),
        },
        Ok(FoundText::Ended(end)) => Err(print(out, end.status, end.text.as_slice())),
        Err(_) => Err(8),
    }
}

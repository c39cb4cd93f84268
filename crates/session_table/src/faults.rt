//! Why a call on the table was refused.
use gt_base::{Memory, Refusal};

/// A refusal of the request, or want of memory. After either the table is as it was.
#[derive(Clone, Copy, PartialEq, Eq)]
pub enum SessionFault {
    Refused(Refusal),
    Memory,
}

impl From<Memory> for SessionFault {
    ghost use Rattle.session_table.specs.declared.faults.SessionFault.TheVariants.{Memory};
    ghost use Rattle.std.specs.Prelude.{◌≡◌};

    ghost from_gives = { λ _ fault. fault ≡ Memory };

    fn from(_: Memory) -> SessionFault {
        SessionFault::Memory
    }
}

impl From<Refusal> for SessionFault {
    ghost use Rattle.std.specs.Prelude.{◌≡◌};
    ghost use Rattle.session_table.specs.declared.faults.SessionFault.TheVariants.{Refused};

    ghost from_gives = { λ refusal fault. fault ≡ Refused refusal };

    fn from(refusal: Refusal) -> SessionFault {
        SessionFault::Refused(refusal)
    }
}

//! Why the desk refuses a call.

use gt_base::StepFault;
use turn_lock::Worn;

/// Why a call at the desk was refused. The machine is then as it was.
#[derive(Clone, Copy, PartialEq, Eq)]
pub enum DeskFault {
    /// The pass has drawn 2^40 turns.
    Worn { draws: u64 },
    /// The history has 1,000,000 entries, and the call would add one.
    StepsFull,
    /// There was no memory for the step.
    Memory,
}

impl From<Worn> for DeskFault {
    ghost use Rattle.std.specs.Prelude.{◌≡◌};
    ghost use Rattle.locked_history.specs.declared.faults.DeskFault.TheVariants as desk;

    ghost from_gives = { λ worn fault. fault ≡ desk.Worn worn.draws };

    fn from(worn: Worn) -> DeskFault {
        DeskFault::Worn { draws: worn.draws }
    }
}

impl From<StepFault> for DeskFault {
    ghost use Rattle.std.specs.Prelude.{◌≡◌, ◌⊎◌};
    ghost use Rattle.gt_base.specs.declared.machines.StepFault.TheVariants as step;
    ghost use Rattle.locked_history.specs.declared.faults.DeskFault.TheVariants as desk;

    ghost from_gives = { λ cause fault. ((cause ≡ step.StepsFull) × (fault ≡ desk.StepsFull))
        ⊎ ((cause ≡ step.Memory) × (fault ≡ desk.Memory)) };

    fn from(fault: StepFault) -> DeskFault {
        match fault {
            StepFault::StepsFull => DeskFault::StepsFull,
            StepFault::Memory => DeskFault::Memory,
        }
    }
}

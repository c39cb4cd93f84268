//! What entries are played on.
ghost use Rattle.std.specs.Prelude.{◌≡◌, ◌++◌, List};
ghost use Rattle.gt_base.specs.declared.requests.Entry.{Entry};

use crate::batch::Batch;
use left_right::Absorb;

/// A value that entries are played on, batch after batch, over a root that never changes. Its state
/// is the root and the entries that were played.
pub trait Replica: Absorb<Batch> + Drop {
    /// What the root is told as. No value of it is made.
    type Root;

    ghost root: { Self.State → Self.Root };

    /// The entries that were played.
    ghost list: { Self.State → List Entry };

    /// What holds of each state that is published.
    ghost sound: { Self.State → Type 0 };

    ghost adds: { (s : Self.State) (es : List Entry)
        → (root (Self.applied s es) ≡ root s) × (list (Self.applied s es) ≡ list s ++ es) };
}

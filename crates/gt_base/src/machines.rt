//! Values that keep a history, and machines that add to it.
ghost use Rattle.std.specs.Prelude.{◌≡◌, ◌≤◌, ◌<◌, ◌⊎◌, List, ℕ, ◌++◌, ◌∷◌, [], length, OnOk, OnErr, IfOk, Ok, Err};
ghost use Rattle.gt_base.specs.declared.limits.TheConstants.{MAX_STEPS};
ghost use Rattle.gt_base.specs.declared.requests.Entry.{Entry};
ghost use Rattle.gt_base.specs.declared.requests.Actor.{Actor};
ghost use Rattle.gt_base.specs.declared.requests.Request.{Request};
ghost use Rattle.gt_base.specs.Machines.{ticked, asked};

use crate::instants::Instant;
use crate::requests::{Actor, Reply, Request, Who};

/// Why a step was refused. A refused step leaves the machine as it was.
#[derive(Clone, Copy, PartialEq, Eq)]
pub enum StepFault {
    /// The history has 1,000,000 entries and the step would add one.
    StepsFull,
    /// There was no memory for the step.
    Memory,
}

/// A value that keeps a list of entries, over a root that never changes (of a book its policy and
/// birth).
pub trait Keeps {
    /// The entries that it keeps, in order.
    ghost list: { Self → List Entry };

    /// The two values have the same root.
    ghost same_root: { Self → Self → Type 0 };

    /// How many entries it keeps.
    fn kept(&self) -> u64
        ensures { result ≡ length (list self.now) };

    ghost same_refl: { (x : Self) → same_root x x };

    ghost same_sym: { (x y : Self) → same_root x y → same_root y x };

    ghost same_trans: { (x y z : Self) → same_root x y → same_root y z → same_root x z };
}

/// A value that takes ticks and requests. Each step that is not refused adds at most one entry.
pub trait Machine: Keeps {
    /// The list is legal for the root of the value.
    ghost legal: { Self → List Entry → Type 0 };

    /// Actor and request are named for the root of the value.
    ghost named: { Self → Actor → Request → Type 0 };

    /// The instant that the root of the value gives a list.
    ghost now_of: { Self → List Entry → ℕ };

    /// The instant of the kept list, which is legal and has at most 1,000,000 entries.
    fn now(&self) -> Instant
        ensures now { result ≡ now_of self.now (Self.list self.now) }
        ensures legal { legal self.now (Self.list self.now) }
        ensures bound { length (Self.list self.now) ≤ MAX_STEPS };

    /// Goes on to the next instant that stirs, or to the bound; a bound that is not after now
    /// changes nothing.
    fn tick(&mut self, who: Who, upto: Instant) -> Result<Instant, StepFault>
        ensures root { Self.same_root self.old self.new }
        ensures ok { IfOk result (λ t. (t ≡ now_of self.new (Self.list self.new))
            × (((upto ≤ now_of self.old (Self.list self.old)) × (self.new ≡ self.old))
            ⊎ ((now_of self.old (Self.list self.old) < upto)
            × (Self.list self.new ≡ Self.list self.old ++ ticked who upto t ∷ [])))) }
        ensures err { OnErr result (self.new ≡ self.old) }
        ensures full { result ≡ Err StepFault.StepsFull
            → (now_of self.old (Self.list self.old) < upto)
            × (MAX_STEPS ≤ length (Self.list self.old)) }
        ensures room { OnOk result ((upto ≤ now_of self.old (Self.list self.old))
            ⊎ (length (Self.list self.old) < MAX_STEPS)) };

    /// Answers a request at now.
    fn ask(&mut self, who: Who, actor: Actor, request: Request) -> Result<Reply, StepFault>
        requires { named self.old actor request }
        ensures root { Self.same_root self.old self.new }
        ensures ok { IfOk result (λ reply. Self.list self.new ≡ Self.list self.old
            ++ asked who actor request reply ∷ []) }
        ensures err { OnErr result (self.new ≡ self.old) }
        ensures full { result ≡ Err StepFault.StepsFull → MAX_STEPS ≤ length (Self.list self.old) }
        ensures room { OnOk result (length (Self.list self.old) < MAX_STEPS) };

    ghost legal_root: { (x y : Self) (l : List Entry) → Self.same_root x y → legal x l
        → legal y l };

    ghost named_root: { (x y : Self) (a : Actor) (r : Request) → Self.same_root x y → named x a r
        → named y a r };

    ghost now_root: { (x y : Self) (l : List Entry) → Self.same_root x y
        → now_of x l ≡ now_of y l };
}

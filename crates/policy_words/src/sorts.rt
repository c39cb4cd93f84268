//! Of which sort a fluent is.
ghost use Rattle.std.specs.Prelude.{◌≡◌};
ghost use Rattle.policy_words.specs.Wording.{sort_of};
ghost use Rattle.policy_words.specs.Sorts.{fluent_sort, has_sort};

use crate::parts::{NamedFluent, Sort};
use gt_base::Fluent;

impl Sort {
    /// The sort of a fluent by numbers.
    pub fn of(fluent: Fluent) -> Sort
        ensures { result ≡ fluent_sort fluent }
    {
        match fluent {
            Fluent::Enabled(_) => Sort::Enabling,
            Fluent::Assigned(_, _) => Sort::Assigning,
            Fluent::Granted(_, _) => Sort::Granting,
            Fluent::Limit(_) => Sort::Arming,
            Fluent::Edge(_) => Sort::Linking,
        }
    }

    /// Whether the fluent is of this sort.
    pub fn has(self, fluent: Fluent) -> bool
        ensures { result ≡ has_sort self fluent }
    {
        self == Sort::of(fluent)
    }
}

impl NamedFluent {
    /// The sort of the fluent.
    pub fn sort(&self) -> Sort
        ensures { result ≡ sort_of self.now }
    {
        match self {
            NamedFluent::Enabled(_) => Sort::Enabling,
            NamedFluent::Assigned(_, _) => Sort::Assigning,
            NamedFluent::Granted(_, _) => Sort::Granting,
            NamedFluent::Limit(_) => Sort::Arming,
            NamedFluent::Edge(_, _) => Sort::Linking,
        }
    }
}

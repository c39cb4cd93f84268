//! Names as keys of tables.
ghost use Rattle.std.specs.Prelude.{[], ◌∷◌, nat_eq};
ghost use Rattle.std.specs.Cmp.Lexicographic.{pointwise, nat_list_eq_equiv};
ghost use Rattle.std.specs.Cmp.{partial_equiv_from_equiv};
ghost use Rattle.std.specs.Cmp.Rules.{hashing};
ghost use Rattle.std.proofs.Common.{rules};

use gt_base::Name;
use std::hash::{Hash, Hasher};
use std::marker::Model;

/// A name as a key, hashed by its bytes in one piece. It is seen as the list of its bytes.
#[derive(Clone, Copy)]
pub(crate) struct Key {
    pub(crate) name: Name,
}

impl Model for Key {
    ghost use Rattle.std.specs.Prelude.{List, ℕ};

    ghost Value = { List ℕ };

    ghost view = { λ k. k.name };

    ghost inverse = { λ n. record { name = n } };
}

impl PartialEq for Key {
    ghost eq = { λ x y. pointwise nat_eq x y };

    ghost laws = { partial_equiv_from_equiv nat_list_eq_equiv };

    fn eq(&self, other: &Key) -> bool {
        self.name.bytes() == other.name.bytes()
    }
}

impl Eq for Key {
    ghost laws = { nat_list_eq_equiv };
}

impl Hash for Key {
    ghost hash_input = { λ k. k ∷ [] };

    ghost respects_eq = { Prim.search (hashing, rules) };

    fn hash<H: Hasher>(&self, state: &mut H) {
        state.write(self.name.bytes());
    }
}

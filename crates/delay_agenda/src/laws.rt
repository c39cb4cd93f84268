//! Laws of the words that contracts use.
ghost use Rattle.std.specs.Prelude.{◌≡◌, ◌<◌, ◌&&◌, ℕ, true, not};
ghost use Rattle.gt_base.specs.Sets.{has, those};
ghost use Rattle.gt_base.specs.SetWords.{AreSets};
ghost use Rattle.delay_agenda.specs.declared.pairs.Pending.{Pending};
ghost use Rattle.delay_agenda.specs.Due.{pending_cmp, is_due_at, IsLeastDue, Pendings};

/// Agendas with the same pairs are equal to a clause, and adding changes one pair alone. The pairs
/// that are not due at an instant are those of the set that are due at another; where it is the
/// least due, those are due later. A set has one least due.
pub fn agendas_are_sets()
    ensures sets { AreSets pending_cmp }
    ensures kept { (s : Pendings) (t : ℕ) (p : Pending)
        → has (those s (λ q. not (is_due_at t q))) p ≡ (has s p && not (is_due_at t p)) }
    ensures later { (s : Pendings) (t : ℕ) (p : Pending) → IsLeastDue s t
        → has (those s (λ q. not (is_due_at t q))) p ≡ true → t < p.due }
    ensures one_least { (s : Pendings) (t u : ℕ) → IsLeastDue s t → IsLeastDue s u → t ≡ u }
{}

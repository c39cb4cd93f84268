//! Laws of the words that contracts use.
ghost use Rattle.gt_base.specs.Orders.{event_cmp, fluent_cmp, prioritised_cmp, signal_cmp};
ghost use Rattle.gt_base.specs.SetWords.{AreSets};

/// Sets with the same members are equal to a clause, and adding and taking out change one member
/// alone.
pub fn sets_are_sets()
    ensures events { AreSets event_cmp }
    ensures prioritised { AreSets prioritised_cmp }
    ensures signals { AreSets signal_cmp }
    ensures fluents { AreSets fluent_cmp }
{}

//! The law that the links of a front are told over the whole history.
ghost use Rattle.policy_words.specs.Naming.{NamedPolicy};
ghost use Rattle.poll_front.specs.Tables.{IsTellingOfFronts};

use gt_base::Machine;

/// The links of a front that one pass has served, the only one of a desk with an empty history, are
/// told over the history of the closed desk; and the entries of that pass are those of its links'
/// lines, in the order in which the lines were acted on.
pub fn fronts_are_told<M: Machine>()
    ensures { (root : M) (np : NamedPolicy)
        → IsTellingOfFronts M np (M.legal root) (M.now_of root) }
{}

//! Laws of what the generator makes: the policy is read and safe, and each line of the script says
//! its move.
#![tactic(auto)]

ghost use Rattle.gen_laws.specs.Laws.{PolicyIsRead, PolicyIsWellFormed, PolicyIsSafe, ScriptIsSaid, ScriptIsBorn, HistoryIsShort};

/// The made text has no fault: it stands for the policy that its numbers say, which keeps what
/// every policy keeps.
pub fn made_policy_is_read()
    ensures read { PolicyIsRead }
    ensures well_formed { PolicyIsWellFormed }
{}

/// The made policy has no conflict cycle: what switches a role switches only the next one.
pub fn made_policy_is_safe()
    ensures { PolicyIsSafe }
{}

/// Over the made policy each line of the made script says its move: the first gives the birth, and
/// none has a fault.
pub fn made_script_is_said()
    ensures said { ScriptIsSaid }
    ensures born { ScriptIsBorn }
{}

/// A legal history that the made script makes over the made policy, whole or up to some line, has
/// fewer entries than a history may have: each line pays for what it does, and what stirs by itself
/// is a signal, an activation that ends, or a new hour.
pub fn made_history_is_short()
    ensures { HistoryIsShort }
{}

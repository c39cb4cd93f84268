//! The made policy and script, by their size and seed.
ghost use Rattle.std.specs.Prelude.{◌≡◌, ◌≤◌, ◌<◌, length, IfOk};
ghost use Rattle.policy_gen.specs.Texts.{policy_text, script_text};

use crate::policies::push_policy;
use crate::scripts::push_script;
use gt_base::{List, Memory};
use std::alloc::Global;

/// The greatest size, which is the number of rounds that are played.
pub const MAX_SIZE: u32 = 100_000;

/// The text of a policy, and that of a script over it.
#[derive(Drop)]
pub struct Made {
    pub policy: List<u8>,
    pub script: List<u8>,
}

/// Makes a policy of as many roles, users and permissions as the size says, at most 200, whose
/// roles are enabled one by the other from 8 to 16 each day, and a script in which each user opens
/// a session and then as many rounds are played as the size says: each goes 1 to 60 minutes on and
/// asks one request. The seed decides the rounds. The size is 1 to `MAX_SIZE`.
#[tactic(auto, unfolding(crate::specs::Texts::policy_text, crate::specs::Texts::script_text))]
pub fn make(alloc: Global, seed: u64, size: u32) -> Result<Made, Memory>
    requires { (1 ≤ size) × (size ≤ MAX_SIZE) }
    ensures policy { IfOk result (λ made. made.policy.items ≡ policy_text size) }
    ensures script { IfOk result (λ made. made.script.items ≡ script_text seed size) }
    ensures short_policy { IfOk result (λ made. length made.policy.items ≤ 40_000) }
    ensures short_script { IfOk result (λ made. length made.script.items < 5_000_000) }
{
    let k = size.min(200);
    let mut policy = Vec::new(alloc);
    push_policy(&mut policy, k)?;
    let mut script = Vec::new(alloc);
    push_script(&mut script, seed, k, size)?;
    Ok(Made {
        policy: List::from(policy),
        script: List::from(script),
    })
}

//! A policy in its canonical form.
ghost use Rattle.std.specs.Prelude.{◌≡◌, ◌<◌, ◌^◌, ◌⊎◌, length, IfOk};
ghost use Rattle.policy_commands.specs.Ends.{seen_end};
ghost use Rattle.policy_commands.specs.Policies.{HasTextFault};
ghost use Rattle.policy_commands.specs.Commands.{fmt_end, IsLaid};

use crate::ends::End;
use gt_base::{List, Memory};
use policy_book::Policy;
use policy_text::{PolicyText, policy_of, write_policy};
use std::alloc::Global;

/// The end at a policy that has this canonical form.
fn laid(alloc: Global, policy: &Policy) -> Result<End, Memory>
    ensures { IfOk result (IsLaid policy.now) }
{
    Ok(End {
        status: 0,
        text: write_policy(alloc, policy)?,
    })
}

/// The canonical text of the policy that the bytes stand for, with status 0, or the text of their
/// fault, with status 2. Whether the policy is safe is not judged. The text has fewer than
/// 4,294,967,296 bytes. Only want of memory is free.
pub fn lay_out(alloc: Global, text: &[u8]) -> Result<End, Memory>
    requires { length text.now < 2 ^ 32 }
    ensures end { IfOk result (λ end. seen_end end ≡ fmt_end text.now) }
    ensures status { IfOk result (λ end. (end.status ≡ 0) ⊎ (end.status ≡ 2)) }
    ensures fault { IfOk result (λ end. end.status ≡ 2 → HasTextFault text.now) }
{
    match policy_of(alloc, text)? {
        PolicyText::Policy(policy) => laid(alloc, &policy),
        PolicyText::Fault(told) => Ok(End {
            status: 2,
            text: List::from(told),
        }),
    }
}

//! A policy as it is judged.
ghost use Rattle.std.specs.Prelude.{◌≡◌, ◌<◌, ◌^◌, ◌⊎◌, length, codes, IfOk};
ghost use Rattle.policy_safety.specs.Cycles.{IsCycleOf};
ghost use Rattle.policy_commands.specs.Ends.{seen_end, ending};
ghost use Rattle.policy_commands.specs.Policies.{HasTextFault, IsUnsafeText};
ghost use Rattle.policy_commands.specs.Commands.{check_end};
ghost use Rattle.policy_commands.specs.Admitting.{IsAdmitted, IsJudged, IsUnsafeEnd};

use crate::cycle_text::push_unsafe;
use crate::ends::End;
use gt_base::{List, Memory};
use policy_book::Policy;
use policy_safety::{AdmitFault, CycleEdge, Safe};
use policy_text::{PolicyText, policy_of};
use std::alloc::{AllocError, Global};

/// A safe policy, or how a command ends at one that has a fault or is not safe.
#[derive(Drop)]
pub enum Admitted {
    Safe(Safe),
    Ended(End),
}

/// The end at a policy that is not safe, with its cycle.
fn unsafe_end(alloc: Global, policy: &Policy, edges: &[CycleEdge]) -> Result<End, Memory>
    requires { IsCycleOf policy.now.policy.triggers edges.now }
    ensures { IfOk result (IsUnsafeEnd policy.now) }
{
    let mut text = Vec::new(alloc);
    push_unsafe(&mut text, policy, edges)?;
    Ok(End {
        status: 3,
        text: List::from(text),
    })
}

/// The policy where it is safe, or the end.
fn judge(alloc: Global, policy: Policy) -> Result<Admitted, Memory>
    ensures { IfOk result (IsJudged policy) }
{
    match Safe::admit(alloc, policy) {
        Ok(safe) => Ok(Admitted::Safe(safe)),
        Err(AdmitFault::Unsafe { policy, edges }) => {
            Ok(Admitted::Ended(unsafe_end(alloc, &policy, edges.as_slice())?))
        }
        Err(AdmitFault::Memory { policy: _ }) => Err(AllocError),
    }
}

/// The policy that the bytes stand for where it is safe. Else the end: the text of their fault with
/// status 2, or the cycle of the policy with status 3. The text has fewer than 4,294,967,296 bytes.
/// Only want of memory is free.
pub fn admit(alloc: Global, text: &[u8]) -> Result<Admitted, Memory>
    requires { length text.now < 2 ^ 32 }
    ensures { IfOk result (IsAdmitted text.now) }
{
    match policy_of(alloc, text)? {
        PolicyText::Policy(policy) => judge(alloc, policy),
        PolicyText::Fault(told) => Ok(Admitted::Ended(End {
            status: 2,
            text: List::from(told),
        })),
    }
}

/// The end at a safe policy.
fn safe_end(alloc: Global) -> Result<End, Memory>
    ensures { IfOk result (λ end. seen_end end ≡ ending 0 (codes "safe\n")) }
{
    Ok(End {
        status: 0,
        text: List::from(b"safe\n".to_vec(alloc)?),
    })
}

/// `safe` with status 0 where the policy that the bytes stand for is safe, its cycle with status 3
/// where it is not, or the text of the fault of the bytes with status 2. The text has fewer than
/// 4,294,967,296 bytes. Only want of memory is free.
pub fn check(alloc: Global, text: &[u8]) -> Result<End, Memory>
    requires { length text.now < 2 ^ 32 }
    ensures end { IfOk result (λ end. seen_end end ≡ check_end text.now) }
    ensures status { IfOk result (λ end. (end.status ≡ 0) ⊎ (end.status ≡ 2) ⊎ (end.status ≡ 3)) }
    ensures fault { IfOk result (λ end. end.status ≡ 2 → HasTextFault text.now) }
    ensures cycle { IfOk result (λ end. end.status ≡ 3 → IsUnsafeText text.now) }
{
    match admit(alloc, text)? {
        Admitted::Safe(_) => safe_end(alloc),
        Admitted::Ended(end) => Ok(end),
    }
}

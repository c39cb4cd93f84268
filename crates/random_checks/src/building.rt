//! Makes the grounds, instants and priorities of the tests.
ghost use Rattle.std.specs.Prelude.{◌≡◌, IfOk};

use gt_base::{Instant, Memory, Prio};
use policy_safety::{AdmitFault, Safe};
use policy_text::{PolicyText, policy_of};
use std::alloc::{AllocError, Global};
use time_engine::Ground;

pub(crate) fn at(minute: u32) -> Result<Instant, Memory>
    ensures { IfOk result (λ t. t ≡ minute) }
{
    match Instant::new(minute) {
        Some(t) => Ok(t),
        None => Err(AllocError),
    }
}

pub(crate) fn prio(level: u8) -> Result<Prio, Memory> {
    match Prio::new(level) {
        Some(p) => Ok(p),
        None => Err(AllocError),
    }
}

/// The ground of a safe policy.
fn grounded(alloc: Global, safe: Safe) -> Result<Ground, Memory> {
    let (policy, graph, strata) = safe.into_parts();
    match Ground::new(alloc, policy, graph, strata) {
        Ok(ground) => Ok(ground),
        Err(_) => Err(AllocError),
    }
}

/// The ground of the policy that a text stands for, none where it has a fault or is not safe.
pub(crate) fn ground_of(alloc: Global, text: &[u8]) -> Result<Option<Ground>, Memory> {
    if text.len() > 65_536 {
        return Ok(None);
    }
    let PolicyText::Policy(policy) = policy_of(alloc, text)? else {
        return Ok(None);
    };
    match Safe::admit(alloc, policy) {
        Ok(safe) => Ok(Some(grounded(alloc, safe)?)),
        Err(AdmitFault::Memory { .. }) => Err(AllocError),
        Err(_) => Ok(None),
    }
}

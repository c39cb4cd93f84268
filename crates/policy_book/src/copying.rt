//! Copies of the parts of a policy.
ghost use Rattle.std.specs.Prelude.{◌≡◌, IfOk};
ghost use Rattle.policy_book.specs.Seen.{seen_names};

use crate::names::NameTables;
use gt_base::{Memory, Trigger};
use periodic_expr::Period;
use std::alloc::Global;

impl NameTables {
    /// Equal tables.
    pub(crate) fn copied(&self) -> Result<NameTables, Memory>
        ensures { IfOk result (λ copy. seen_names copy ≡ seen_names self.now) }
    {
        Ok(NameTables {
            roles: self.roles.copied()?,
            users: self.users.copied()?,
            perms: self.perms.copied()?,
            periods: self.periods.copied()?,
            limits: self.limits.copied()?,
            edges: self.edges.copied()?,
        })
    }
}

/// Equal periods.
pub(crate) fn copied_periods(alloc: Global, periods: &[Period]) -> Result<Vec<Period>, Memory>
    ensures { IfOk result (λ copies. copies.items ≡ periods.now) }
{
    let mut copies = Vec::new(alloc);
    for period in periods {
        copies.push(period.copied(alloc)?)?;
    }
    Ok(copies)
}

/// Equal triggers.
pub(crate) fn copied_triggers(alloc: Global, triggers: &[Trigger]) -> Result<Vec<Trigger>, Memory>
    ensures { IfOk result (λ copies. copies.items ≡ triggers.now) }
{
    let mut copies = Vec::new(alloc);
    for trigger in triggers {
        copies.push(trigger.copied()?)?;
    }
    Ok(copies)
}

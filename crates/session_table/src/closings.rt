//! What decides on each activation at the close of an instant.
ghost use Rattle.std.specs.Prelude.{◌≤◌, count_by};
ghost use Rattle.gt_base.specs.declared.limits.TheConstants.{MAX_SESSIONS};
ghost use Rattle.gt_base.specs.declared.events.RoleId.{RoleId as RoleView};
ghost use Rattle.gt_base.specs.declared.events.UserId.{UserId};
ghost use Rattle.gtrbac_model.specs.Sessions.{is_of};

use crate::active::ActiveRow;
use crate::charged_days::ChargedDays;
use gt_base::{Caps, Instant, List, Status};
use hybrid_hierarchy::Hierarchy;
use std::alloc::Global;

/// The minutes after `after`, up to `to`, with the activations to which each of them is charged,
/// and what was charged before.
#[derive(Clone, Copy)]
pub(crate) struct Stretch<'a> {
    pub(crate) charges: &'a ChargedDays,
    pub(crate) active: &'a ActiveRow,
    pub(crate) after: Instant,
    pub(crate) to: Instant,
    ghost few: { (u : UserId) (r : RoleView)
        → count_by (is_of u r) active.now.items ≤ MAX_SESSIONS },
}

/// The close of the last instant of a stretch: what decides on each activation there.
#[derive(Clone, Copy)]
pub(crate) struct Closing<'h, 'c, 's, 't> {
    pub(crate) alloc: Global,
    pub(crate) hierarchy: &'h Hierarchy,
    pub(crate) caps: &'c List<Caps>,
    pub(crate) status: &'s Status,
    pub(crate) stretch: Stretch<'t>,
}

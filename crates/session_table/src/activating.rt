//! An activation of a role, in its steps: what refuses it, the walk that allows it, and how it
//! enters the rows.
ghost use Rattle.std.specs.Prelude.{◌≡◌, ℕ, ◌<◌, ◌≤◌, [], ◌∷◌, ◌++◌, Option, map, length, count_by, slice_get, slice_set, IfOk, IfErr, IfSome, OnOk, OnErr};
ghost use Rattle.gt_base.specs.Sets.{has, with_member};
ghost use Rattle.gt_base.specs.declared.requests.Request.TheVariants.{Activate};
ghost use Rattle.gtrbac_model.specs.Same.{same_role};
ghost use Rattle.gtrbac_model.specs.Sessions.{is_of};
ghost use Rattle.session_table.specs.Opened.{opened, AreNumbered};
ghost use Rattle.session_table.specs.Kept.{AreKeptRows};
ghost use Rattle.session_table.specs.Permits.{rows_table, walk_causes, IsReadyUser, IsPermitted, Lets, IsCauseOf, IsFirstCause};
ghost use Rattle.session_table.specs.Replies.{AnswersAt, OrRefused};
ghost use Rattle.gt_base.specs.declared.limits.TheConstants.{MAX_SESSIONS};

use crate::activations::Activation;
use crate::active::ActiveRow;
use crate::charged_days::ChargedDays;
use crate::checks::{caps_of, early_refusal, late_refusal, owned};
use crate::dropping::{AskedWalk, remember};
use crate::faults::SessionFault;
use crate::opened::{Open, add_role, has_role, owner_at};
use civil_time::day;
use gt_base::{
    Actor, Caps, Instant, List, Memory, Refusal, RoleId, SessionId, Status, UserId, Walk,
};
use hybrid_hierarchy::Hierarchy;
use indexmap::IndexMap;
use std::alloc::Global;

/// What permits an activation: the activations that stand and what is charged, the hierarchy, the
/// caps, and the status of now.
#[derive(Clone, Copy)]
pub(crate) struct Permitting<'a> {
    pub(crate) alloc: Global,
    pub(crate) active: &'a ActiveRow,
    pub(crate) charges: &'a ChargedDays,
    pub(crate) hierarchy: &'a Hierarchy,
    pub(crate) caps: &'a List<Caps>,
    pub(crate) status: &'a Status,
    pub(crate) instant: Instant,
}

/// Where the session stands, who owns it, and the walk that allows the role, or why the activation
/// is refused.
pub(crate) fn permitted(
    sessions: &[Open],
    by: &Permitting,
    actor: Actor,
    session: SessionId,
    role: RoleId,
) -> Result<(usize, UserId, Walk), SessionFault>
    requires numbered { AreNumbered (map opened sessions.now) }
    requires kept { (to : Option ℕ)
        × AreKeptRows sessions.now by.now.active.now.items by.now.charges.now.charged to }
    ensures ok { IfOk result
        (λ r. IsPermitted by.now.hierarchy.now by.now.caps.now.items
        (has by.now.status.now.set) by.now.instant actor session role sessions.now
        by.now.active.now.items by.now.charges.now.charged r.0 r.1 r.2) }
    ensures err { IfErr result
        (λ fault. (begun : ℕ)
        → OrRefused fault
        (AnswersAt by.now.hierarchy.now by.now.caps.now.items (has by.now.status.now.set)
        by.now.instant
        (rows_table sessions.now by.now.active.now.items by.now.charges.now.charged begun) actor
        (Activate session role))) }
{
    let (at, user) = match ready(sessions, by.status, actor, session, role) {
        Ok(found) => found,
        Err(refusal) => return Err(SessionFault::Refused(refusal)),
    };
    match allowing(by, user, role) {
        Ok(walk) => Ok((at, user, walk)),
        Err(fault) => Err(fault),
    }
}

/// Where the session stands and who owns it, or what refuses the activation before a walk is asked.
fn ready(
    sessions: &[Open],
    status: &Status,
    actor: Actor,
    session: SessionId,
    role: RoleId,
) -> Result<(usize, UserId), Refusal>
    requires { AreNumbered (map opened sessions.now) }
    ensures ok { IfOk result
        (λ r. IsReadyUser (has status.now.set) actor session role sessions.now r.0 r.1) }
    ensures err { IfErr result (IsFirstCause (has status.now.set) actor session role sessions.now) }
{
    let at = match owned(sessions, actor, session) {
        Ok(at) => at,
        Err(refusal) => return Err(refusal),
    };
    match early_refusal(has_role(sessions, at, role), status, role) {
        Some(refusal) => Err(refusal),
        None => Ok((at, owner_at(sessions, at))),
    }
}

/// The walk that allows the user the role, where no cap refuses it.
fn allowing(by: &Permitting, user: UserId, role: RoleId) -> Result<Walk, SessionFault>
    requires all { count_by (λ a. same_role a.role role) by.now.active.now.items ≤ MAX_SESSIONS }
    requires own { count_by (is_of user role) by.now.active.now.items ≤ MAX_SESSIONS }
    ensures ok { IfOk result
        (Lets by.now.hierarchy.now by.now.caps.now.items (has by.now.status.now.set)
        by.now.instant by.now.active.now.items by.now.charges.now.charged user role) }
    ensures err { IfErr result
        (λ fault. IsCauseOf fault
        (walk_causes by.now.hierarchy.now by.now.caps.now.items (has by.now.status.now.set)
        by.now.instant by.now.active.now.items by.now.charges.now.charged user role)) }
{
    let hierarchy = by.hierarchy;
    let Some(walk) = hierarchy.may_activate(by.alloc, by.status, user, role)? else {
        return Err(SessionFault::Refused(Refusal::NotAssigned));
    };
    let of_role = caps_of(by.caps.as_slice(), role);
    match late_refusal(of_role, by.active, by.charges, user, role, day(by.instant)) {
        Some(refusal) => Err(SessionFault::Refused(refusal)),
        None => Ok(walk),
    }
}

/// Adds the activation to the rows and its role to the session at the place, and keeps a copy of
/// its walk. After a refusal the rows are as they were.
pub(crate) fn enter(
    sessions: &mut Vec<Open>,
    active: &mut ActiveRow,
    walks: &mut IndexMap<AskedWalk, Walk>,
    at: usize,
    a: Activation,
    walk: &Walk,
) -> Result<(), Memory>
    requires { at < length sessions.old.items }
    ensures sessions { OnOk result
        (IfSome (slice_get sessions.old.items at)
        (λ o. sessions.new.items
        ≡ slice_set sessions.old.items at
        (record o { roles = with_member o.roles a.role }))) }
    ensures active { OnOk result (active.new.items ≡ active.old.items ++ a ∷ []) }
    ensures same { OnErr result (sessions.new.items ≡ sessions.old.items) }
    ensures same_active { OnErr result (active.new.items ≡ active.old.items) }
{
    let asked = AskedWalk {
        user: a.user,
        role: a.role,
    };
    remember(walks, asked, walk)?;
    active.reserve_one()?;
    add_role(sessions, at, a.role)?;
    active.push(a);
    Ok(())
}

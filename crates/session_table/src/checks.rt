//! Causes of refusals, in their order.
ghost use Rattle.std.specs.Prelude.{◌≡◌, ◌<◌, ◌≤◌, map, length, count_by, Some, None, IfOk, IfErr};
ghost use Rattle.std.specs.List.{list_any};
ghost use Rattle.gt_base.specs.Sets.{has};
ghost use Rattle.gt_base.specs.declared.requests.Refusal.TheVariants.{Already, Disabled, RoleFull, UserFull, DaySpent};
ghost use Rattle.gt_base.specs.declared.events.Fluent.TheVariants.{Enabled};
ghost use Rattle.gtrbac_model.specs.Same.{same_role};
ghost use Rattle.gtrbac_model.specs.Sessions.{Table, caps_of, reached, is_of};
ghost use Rattle.gtrbac_model.specs.Reply.{session_causes};
ghost use Rattle.session_table.specs.Opened.{opened, AreNumbered};
ghost use Rattle.session_table.specs.Charges.{charged_in};
ghost use Rattle.session_table.specs.NextDrops.{limits_minutes};
ghost use Rattle.session_table.specs.Causes.{first_cause, is_foreign, StandsAt, with_sessions, early_causes, late_causes, full_at};
ghost use Rattle.gt_base.specs.declared.limits.TheConstants.{MAX_SESSIONS};

use crate::active::ActiveRow;
use crate::charged_days::{ChargedDays, charged};
use crate::opened::{Open, owner_at, place};
use civil_time::day;
use gt_base::{Actor, Caps, Fluent, Instant, Refusal, RoleId, SessionId, Status, UserId};

/// Where the actor finds the session, or why it may not use it.
pub(crate) fn owned(sessions: &[Open], actor: Actor, session: SessionId) -> Result<usize, Refusal>
    requires { AreNumbered (map opened sessions.now) }
    ensures place { IfOk result (StandsAt sessions.now session) }
    ensures ok { IfOk result
        (λ _. (tb : Table)
        → first_cause (session_causes (with_sessions sessions.now tb) actor session)
        ≡ None) }
    ensures err { IfErr result
        (λ r. (tb : Table)
        → first_cause (session_causes (with_sessions sessions.now tb) actor session)
        ≡ Some r) }
{
    let Some(at) = place(sessions, session) else {
        return Err(Refusal::NoSession);
    };
    if is_foreign(owner_at(sessions, at), actor) {
        return Err(Refusal::NotYours);
    }
    Ok(at)
}

/// Whether the actor is a user other than the owner.
fn is_foreign(owner: UserId, actor: Actor) -> bool
    ensures { result ≡ is_foreign owner actor }
{
    match actor {
        Actor::User(user) => owner.0 != user.0,
        _ => false,
    }
}

/// What refuses an activation before a walk is asked.
pub(crate) fn early_refusal(is_active: bool, status: &Status, role: RoleId) -> Option<Refusal>
    ensures { result ≡ first_cause (early_causes (has status.now.set) is_active role) }
{
    if is_active {
        return Some(Refusal::Already);
    }
    if !status.is_on(Fluent::Enabled(role)) {
        return Some(Refusal::Disabled);
    }
    None
}

/// Whether the cap, if there is one, is reached.
pub(crate) fn is_reached(cap: Option<u32>, n: u32) -> bool
    ensures { result ≡ reached cap n }
{
    match cap {
        Some(most) => most <= n,
        None => false,
    }
}

/// The caps of the role; a role that the list does not name has none.
pub(crate) fn caps_of(caps: &[Caps], role: RoleId) -> Caps
    ensures { result ≡ caps_of caps.now role }
{
    match caps.get(role.0 as usize) {
        Some(caps) => *caps,
        None => Caps {
            total: None,
            user: None,
            length: None,
            day: None,
        },
    }
}

/// Whether a role has a cap on the minutes of an activation or of a day, which alone end
/// activations.
pub(crate) fn limit_minutes(caps: &[Caps]) -> bool
    ensures { result ≡ list_any limits_minutes caps.now }
{
    caps.iter().any(|c| c.length.is_some() || c.day.is_some())
}

/// Which cap refuses an activation of the role by the user on the civil day. What no cap asks for
/// is not counted.
pub(crate) fn late_refusal(
    caps: Caps,
    active: &ActiveRow,
    charges: &ChargedDays,
    user: UserId,
    role: RoleId,
    today: u32,
) -> Option<Refusal>
    requires all { count_by (λ a. same_role a.role role) active.now.items ≤ MAX_SESSIONS }
    requires own { count_by (is_of user role) active.now.items ≤ MAX_SESSIONS }
    ensures { result
        ≡ first_cause
        (late_causes caps (count_by (λ a. same_role a.role role) active.now.items)
        (count_by (is_of user role) active.now.items)
        (charged_in charges.now.charged user role today)) }
{
    if let Some(n) = full_role(caps.total, active, role) {
        return Some(Refusal::RoleFull { n });
    }
    if let Some(n) = full_user(caps.user, active, user, role) {
        return Some(Refusal::UserFull { n });
    }
    match spent_day(caps.day, charges, user, role, today) {
        Some(minutes) => Some(Refusal::DaySpent { minutes }),
        None => None,
    }
}

/// How many activations of the role stand, if they are as many as the cap allows.
fn full_role(cap: Option<u32>, active: &ActiveRow, role: RoleId) -> Option<u32>
    requires { count_by (λ a. same_role a.role role) active.now.items ≤ MAX_SESSIONS }
    ensures { result ≡ full_at cap (count_by (λ a. same_role a.role role) active.now.items) }
{
    match cap {
        Some(_) => if_reached(cap, active.count_role(role) as u32),
        None => None,
    }
}

/// How many activations of the user and the role stand, if they are as many as the cap allows.
fn full_user(cap: Option<u32>, active: &ActiveRow, user: UserId, role: RoleId) -> Option<u32>
    requires { count_by (is_of user role) active.now.items ≤ MAX_SESSIONS }
    ensures { result ≡ full_at cap (count_by (is_of user role) active.now.items) }
{
    match cap {
        Some(_) => if_reached(cap, active.count_of(user, role) as u32),
        None => None,
    }
}

/// How many minutes are charged to the user's role on the day, if they are as many as the cap
/// allows.
fn spent_day(
    cap: Option<u32>,
    charges: &ChargedDays,
    user: UserId,
    role: RoleId,
    today: u32,
) -> Option<u32>
    ensures { result ≡ full_at cap (charged_in charges.now.charged user role today) }
{
    match cap {
        Some(_) => if_reached(cap, charged(charges, user, role, today)),
        None => None,
    }
}

/// The number, if the cap is reached by it.
fn if_reached(cap: Option<u32>, n: u32) -> Option<u32>
    ensures { result ≡ full_at cap n }
{
    if is_reached(cap, n) { Some(n) } else { None }
}

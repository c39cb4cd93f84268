//! Which activations the close of an instant drops, and how they are taken out.
ghost use Rattle.std.specs.Prelude.{◌≡◌, ℕ, ◌+◌, ◌-◌, ◌*◌, ◌<◌, ◌&&◌, ◌||◌, [], ◌∷◌, ◌++◌, if◌then◌else◌, OnOk, not, true, false, Some, map, filter, length, count_by, is_none, nat_lt, IfOk, IfSome};
ghost use Rattle.std.specs.List.{list_any};
ghost use Rattle.gt_base.specs.Sets.{has};
ghost use Rattle.gt_base.specs.declared.events.RoleId.{RoleId};
ghost use Rattle.gt_base.specs.declared.events.UserId.{UserId};
ghost use Rattle.gt_base.specs.declared.events.SessionId.{SessionId};
ghost use Rattle.gt_base.specs.declared.events.Fluent.TheVariants.{Enabled, Assigned};
ghost use Rattle.gtrbac_model.specs.Same.{same_role, same_session};
ghost use Rattle.gtrbac_model.specs.Graph.{item_at};
ghost use Rattle.gtrbac_model.specs.Hierarchy.{activation_walk};
ghost use Rattle.gtrbac_model.specs.Sessions.{Activation as ActivationView, caps_of, reached, is_active_in, signal_of};
ghost use Rattle.session_table.specs.Opened.{opened, still_open, role_in, AreNumbered};
ghost use Rattle.session_table.specs.Dropping.{spent_by, AreBarred};
ghost use Rattle.session_table.specs.Closings.{drops_at};
ghost use Rattle.session_table.specs.NextDrops.{capped_in};

use crate::activations::{Activation, signal_of};
use crate::active::ActiveRow;
use crate::charged_days::charged;
use crate::charges::minutes_on;
use crate::checks::{caps_of, is_reached, limit_minutes};
use crate::closings::{Closing, Stretch};
use crate::opened::{Open, has_role, place, remove_role};
use civil_time::day;
use gt_base::{
    Caps, Fluent, Instant, List, MAX_ROLES, Memory, RoleId, SessionId, Signal, Status, UserId, Walk,
};
use hybrid_hierarchy::Hierarchy;
use indexmap::IndexMap;
use std::alloc::Global;

/// A user and a role of which it is asked whether a walk lets the one activate the other.
#[derive(Clone, Copy, PartialEq, Eq, Hash)]
pub(crate) struct AskedWalk {
    pub(crate) user: UserId,
    pub(crate) role: RoleId,
}

/// How many minutes are charged to the user's role on the civil day of the last instant, where the
/// minutes of the stretch are charged to each activation.
fn spent_by(over: &Stretch, user: UserId, role: RoleId) -> u64
    ensures { result
        ≡ spent_by over.now.charges.now.charged over.now.active.now.items over.now.after over.now.to
        user role }
{
    over.to.keeps();
    let today = day(over.to);
    let before = u64::from(charged(over.charges, user, role, today));
    let minutes = u64::from(minutes_on(over.after, over.to, today));
    before + minutes * over.active.count_of(user, role)
}

/// Whether the cap on the minutes of a day, if there is one, is reached at the close.
fn is_day_spent(cap: Option<u32>, over: &Stretch, user: UserId, role: RoleId) -> bool
    ensures { result
        ≡ reached cap
        (spent_by over.now.charges.now.charged over.now.active.now.items over.now.after over.now.to
        user role) }
{
    match cap {
        Some(most) => {
            let spent = spent_by(over, user, role);
            u64::from(most) <= spent
        }
        None => false,
    }
}

/// Whether the cap on the minutes of one activation, if there is one, is reached at the close of
/// `to`.
fn is_too_long(cap: Option<u32>, a: &Activation, to: Instant) -> bool
    ensures { result ≡ reached cap (to - a.now.begun) }
{
    is_reached(cap, age(a, to))
}

/// The minutes from its begin to the instant, 0 where the begin is after it.
fn age(a: &Activation, to: Instant) -> u32
    ensures { result ≡ to - a.now.begun }
{
    let begun = a.begun;
    to.minute().saturating_sub(begun.minute())
}

/// Whether the user is assigned to the role itself.
fn is_assigned(status: &Status, user: UserId, role: RoleId) -> bool
    ensures { result ≡ (nat_lt role.0 MAX_ROLES && has status.now.set (Assigned user role)) }
{
    role.0 < MAX_ROLES && status.is_on(Fluent::Assigned(user, role))
}

/// Whether the walk that was found before, if there is one, still lets the user activate the role.
fn has_stood(
    walks: &IndexMap<AskedWalk, Walk>,
    hierarchy: &Hierarchy,
    status: &Status,
    asked: AskedWalk,
) -> bool
    ensures { result ≡ true
        → is_none (activation_walk hierarchy.now (has status.now.set) asked.user asked.role)
        ≡ false }
{
    match walks.get(&asked) {
        Some(walk) => hierarchy.still_lets(status, asked.user, asked.role, walk),
        None => false,
    }
}

/// Keeps the walk for the minutes that follow.
fn keep(walks: &mut IndexMap<AskedWalk, Walk>, asked: AskedWalk, walk: Walk) -> Result<(), Memory> {
    walks.insert(asked, walk)?;
    Ok(())
}

/// Keeps a copy of the walk, unless it only stays where it begins.
pub(crate) fn remember(
    walks: &mut IndexMap<AskedWalk, Walk>,
    asked: AskedWalk,
    walk: &Walk,
) -> Result<(), Memory> {
    if walk.edges.len() > 0 {
        return keep(walks, asked, copied(walk)?);
    }
    Ok(())
}

/// An equal walk.
fn copied(walk: &Walk) -> Result<Walk, Memory> {
    Ok(Walk {
        start: walk.start,
        edges: walk.edges.copied()?,
    })
}

/// Forgets the walks where they have become many more than so many activations.
pub(crate) fn prune(walks: &mut IndexMap<AskedWalk, Walk>, active: usize) {
    if walks.len() / 2 > active {
        walks.clear();
    }
}

/// Whether no walk of usable edges lets the user activate the role. The hierarchy is asked where no
/// walk that was found before still does, and what it told is not asked again. For want of memory
/// it may refuse.
fn is_barred(
    alloc: Global,
    walks: &mut IndexMap<AskedWalk, Walk>,
    known: &mut IndexMap<AskedWalk, bool>,
    hierarchy: &Hierarchy,
    status: &Status,
    user: UserId,
    role: RoleId,
) -> Result<bool, Memory>
    requires { AreBarred hierarchy.now (has status.now.set) known.old.entries }
    ensures known { OnOk result
        (AreBarred hierarchy.now (has status.now.set) known.new.entries) }
    ensures barred { IfOk result
        (λ b. b ≡ is_none (activation_walk hierarchy.now (has status.now.set) user role)) }
{
    if is_assigned(status, user, role) {
        return Ok(false);
    }
    let asked = AskedWalk { user, role };
    if has_stood(walks, hierarchy, status, asked) {
        return Ok(false);
    }
    if let Some(barred) = known.get(&asked).copied() {
        return Ok(barred);
    }
    let barred = ask(alloc, walks, hierarchy, status, asked)?;
    known.insert(asked, barred)?;
    Ok(barred)
}

/// The same, told by the hierarchy alone. A walk that it finds is kept.
fn ask(
    alloc: Global,
    walks: &mut IndexMap<AskedWalk, Walk>,
    hierarchy: &Hierarchy,
    status: &Status,
    asked: AskedWalk,
) -> Result<bool, Memory>
    ensures { IfOk result
        (λ b. b
        ≡ is_none
        (activation_walk hierarchy.now (has status.now.set) asked.user asked.role)) }
{
    match hierarchy.may_activate(alloc, status, asked.user, asked.role)? {
        Some(walk) => {
            keep(walks, asked, walk)?;
            Ok(false)
        }
        None => Ok(true),
    }
}

/// Whether a cap of its role ends the activation at the close.
fn is_capped(a: &Activation, caps: Caps, over: &Stretch) -> bool
    ensures { result
        ≡ (reached caps.length (over.now.to - a.now.begun) || reached caps.day
        (spent_by over.now.charges.now.charged over.now.active.now.items over.now.after over.now.to
        a.now.user a.now.role)) }
{
    is_too_long(caps.length, a, over.to) || is_day_spent(caps.day, over, a.user, a.role)
}

/// Whether the role is on. Where it is the one that was found on before, the status is not asked.
fn is_on(status: &Status, before: Option<RoleId>, role: RoleId) -> bool
    requires { IfSome before (λ r. has status.now.set (Enabled r) ≡ true) }
    ensures { result ≡ has status.now.set (Enabled role) }
{
    match before {
        Some(known) if known.0 == role.0 => true,
        _ => status.is_on(Fluent::Enabled(role)),
    }
}

/// The role of the activation where it stays, for it is on; else the one found before.
fn found_on(before: Option<RoleId>, a: &Activation, is_gone: bool) -> Option<RoleId>
    ensures { result ≡ (if is_gone then before else Some a.now.role) }
{
    if is_gone { before } else { Some(a.role) }
}

/// Whether the close drops the activation. For want of memory it may refuse. A role that was found
/// on before is not asked again.
fn is_dropped(
    at: &Closing,
    walks: &mut IndexMap<AskedWalk, Walk>,
    known: &mut IndexMap<AskedWalk, bool>,
    before: Option<RoleId>,
    a: &Activation,
) -> Result<bool, Memory>
    requires known { AreBarred at.now.hierarchy.now (has at.now.status.now.set) known.old.entries }
    requires before { IfSome before (λ r. has at.now.status.now.set (Enabled r) ≡ true) }
    ensures known { OnOk result
        (AreBarred at.now.hierarchy.now (has at.now.status.now.set) known.new.entries) }
    ensures dropped { IfOk result (λ b. b ≡ drops_at at.now a.now) }
{
    let role = a.role;
    if !is_on(at.status, before, role) {
        return Ok(true);
    }
    let of_role = caps_of(at.caps.as_slice(), role);
    if is_capped(a, of_role, &at.stretch) {
        return Ok(true);
    }
    is_barred(
        at.alloc,
        walks,
        known,
        at.hierarchy,
        at.status,
        a.user,
        role,
    )
}

/// Adds the activation, if it is gone.
fn push_if(gone: &mut Vec<Activation>, a: &Activation, is_gone: bool) -> Result<(), Memory>
    ensures { OnOk result
        (gone.new.items ≡ gone.old.items ++ (if is_gone then a.now ∷ [] else [])) }
{
    if is_gone {
        gone.push(*a)?;
    }
    Ok(())
}

/// The activations that the close drops. No user and role is asked of the hierarchy twice, and none
/// where its walk of before stands; the status is not asked of a role again where the activation
/// before was of it and stays. For want of memory it may refuse.
pub(crate) fn dropped(
    at: &Closing,
    walks: &mut IndexMap<AskedWalk, Walk>,
) -> Result<Vec<Activation>, Memory>
    ensures { IfOk result
        (λ gone. gone.items ≡ filter (drops_at at.now) at.now.stretch.active.now.items) }
{
    let mut known = IndexMap::new(at.alloc);
    let mut gone = Vec::new(at.alloc);
    drop_each(at, walks, &mut known, &mut gone)?;
    Ok(gone)
}

/// Adds them to the row, where what is told of a user and a role is kept.
fn drop_each(
    at: &Closing,
    walks: &mut IndexMap<AskedWalk, Walk>,
    known: &mut IndexMap<AskedWalk, bool>,
    gone: &mut Vec<Activation>,
) -> Result<(), Memory>
    requires known { AreBarred at.now.hierarchy.now (has at.now.status.now.set) known.old.entries }
    requires none { gone.old.items ≡ [] }
    ensures { OnOk result
        (gone.new.items ≡ filter (drops_at at.now) at.now.stretch.active.now.items) }
{
    let active = at.stretch.active.as_slice();
    let mut before = None;
    for a in active {
        before = drop_one(at, walks, known, gone, before, a)?;
    }
    Ok(())
}

/// Adds the activation to the row where it is dropped, and tells which role was found on last.
fn drop_one(
    at: &Closing,
    walks: &mut IndexMap<AskedWalk, Walk>,
    known: &mut IndexMap<AskedWalk, bool>,
    gone: &mut Vec<Activation>,
    before: Option<RoleId>,
    a: &Activation,
) -> Result<Option<RoleId>, Memory>
    requires known { AreBarred at.now.hierarchy.now (has at.now.status.now.set) known.old.entries }
    requires before { IfSome before (λ r. has at.now.status.now.set (Enabled r) ≡ true) }
    ensures known { OnOk result
        (AreBarred at.now.hierarchy.now (has at.now.status.now.set) known.new.entries) }
    ensures gone { OnOk result
        (gone.new.items
        ≡ gone.old.items ++ (if drops_at at.now a.now then a.now ∷ [] else [])) }
    ensures on { IfOk result
        (λ before. IfSome before (λ r. has at.now.status.now.set (Enabled r) ≡ true)) }
{
    let is_gone = is_dropped(at, walks, known, before, a)?;
    push_if(gone, a, is_gone)?;
    Ok(found_on(before, a, is_gone))
}

/// The activations that a cap of their roles ends at the close. Where no role has a cap on minutes,
/// none is looked at. For want of memory it may refuse.
pub(crate) fn capped(
    alloc: Global,
    caps: &[Caps],
    over: &Stretch,
) -> Result<Vec<Activation>, Memory>
    ensures { IfOk result
        (λ gone. gone.items
        ≡ filter
        (capped_in caps.now over.now.charges.now.charged over.now.active.now.items
        over.now.after over.now.to)
        over.now.active.now.items) }
{
    let mut gone = Vec::new(alloc);
    if !limit_minutes(caps) {
        return Ok(gone);
    }
    let active = over.active.as_slice();
    for a in active {
        let is_gone = is_capped(a, caps_of(caps, a.role), over);
        push_if(&mut gone, a, is_gone)?;
    }
    Ok(gone)
}

/// Takes the role out of the session of this number, if it is there.
fn forget_one(sessions: &mut Vec<Open>, session: SessionId, role: RoleId)
    requires { AreNumbered (map opened sessions.old.items) }
    ensures opened { map opened sessions.new.items ≡ map opened sessions.old.items }
    ensures roles { (n : SessionId) (r : RoleId)
        → role_in sessions.new.items n r
        ≡ (not (same_session session n && same_role role r) && role_in sessions.old.items n
        r) }
    ensures standing { map opened (still_open sessions.new.items)
        ≡ map opened (still_open sessions.old.items) }
    ensures count { count_by (λ o. o.is_open) sessions.new.items
        ≡ count_by (λ o. o.is_open) sessions.old.items }
{
    if let Some(at) = place(sessions, session) {
        remove_role(sessions, at, role);
    }
}

/// Takes the roles of these activations out of their sessions.
fn forget(sessions: &mut Vec<Open>, gone: &[Activation])
    requires { AreNumbered (map opened sessions.old.items) }
    ensures opened { map opened sessions.new.items ≡ map opened sessions.old.items }
    ensures roles { (n : SessionId) (r : RoleId)
        → role_in sessions.new.items n r
        ≡ (not (list_any (is_active_in n r) gone.now) && role_in sessions.old.items n r) }
    ensures standing { map opened (still_open sessions.new.items)
        ≡ map opened (still_open sessions.old.items) }
    ensures count { count_by (λ o. o.is_open) sessions.new.items
        ≡ count_by (λ o. o.is_open) sessions.old.items }
{
    for a in gone {
        forget_one(sessions, a.session, a.role);
    }
}

/// Whether its role still stands in its session.
pub(crate) fn is_listed(sessions: &[Open], a: &Activation) -> bool
    requires { AreNumbered (map opened sessions.now) }
    ensures { result ≡ role_in sessions.now a.now.session a.now.role }
{
    let role = a.role;
    match place(sessions, a.session) {
        Some(at) => has_role(sessions, at, role),
        None => false,
    }
}

/// Keeps the activations whose roles still stand in their sessions.
pub(crate) fn keep_listed(active: &mut Vec<Activation>, sessions: &[Open])
    requires { AreNumbered (map opened sessions.now) }
    ensures { active.new.items
        ≡ filter (λ a. role_in sessions.now a.session a.role) active.old.items }
{
    active.retain(|a| is_listed(sessions, a));
}

/// Takes the roles of these activations out of their sessions, and keeps the activations whose
/// roles still stand there. Where there are none, nothing is looked at.
pub(crate) fn take_out(sessions: &mut Vec<Open>, active: &mut ActiveRow, gone: &[Activation])
    requires numbered { AreNumbered (map opened sessions.old.items) }
    requires listed { (i : ℕ) (a : ActivationView) → item_at active.old.items i ≡ Some a
        → role_in sessions.old.items a.session a.role ≡ true }
    ensures opened { map opened sessions.new.items ≡ map opened sessions.old.items }
    ensures roles { (n : SessionId) (r : RoleId)
        → role_in sessions.new.items n r
        ≡ (not (list_any (is_active_in n r) gone.now) && role_in sessions.old.items n r) }
    ensures standing { map opened (still_open sessions.new.items)
        ≡ map opened (still_open sessions.old.items) }
    ensures count { count_by (λ o. o.is_open) sessions.new.items
        ≡ count_by (λ o. o.is_open) sessions.old.items }
    ensures active { active.new.items
        ≡ filter (λ a. role_in sessions.new.items a.session a.role) active.old.items }
{
    match gone {
        [] => {}
        _ => {
            forget(sessions, gone);
            active.keep_listed(sessions);
        }
    }
}

/// The end signals of these activations.
pub(crate) fn signals_of(alloc: Global, gone: &[Activation]) -> Result<List<Signal>, Memory>
    ensures { IfOk result (λ signals. signals.items ≡ map (signal_of false) gone.now) }
{
    Ok(List::from(ended(alloc, gone)?))
}

/// The same as a row.
fn ended(alloc: Global, gone: &[Activation]) -> Result<Vec<Signal>, Memory>
    ensures { IfOk result (λ signals. signals.items ≡ map (signal_of false) gone.now) }
{
    gone.iter().map(|a| signal_of(false, a)).collect(alloc)
}

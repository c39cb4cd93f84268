//! Open sessions, in the order of their numbers, with gaps where others were closed.
ghost use Rattle.std.specs.Prelude.{◌≡◌, ℕ, ◌+◌, ◌<◌, [], ◌∷◌, ◌++◌, true, false, not, ◌&&◌, ◌||◌, length, map, filter, find, count_by, slice_get, slice_set, OnOk, OnErr, IfOk, IfSome, MatchOption, None};
ghost use Rattle.gt_base.specs.declared.events.RoleId.{RoleId};
ghost use Rattle.gt_base.specs.declared.events.SessionId.{SessionId};
ghost use Rattle.gt_base.specs.Sets.{has, members, none, with_member, without, Rises};
ghost use Rattle.session_table.specs.RoleSets.{role_cmp};
ghost use Rattle.gtrbac_model.specs.Same.{same_role, same_session};
ghost use Rattle.session_table.specs.Opened.{numbered, opened, still_open, NumberedFrom, AreNumbered, IsFirstFrom};
ghost use Rattle.session_table.specs.Causes.{StandsAt};

use crate::roles::Roles;
use gt_base::{Memory, RoleId, SessionId, UserId};
use std::alloc::Global;

/// A session: its number, its owner, and the roles that are active in it. Where it is no longer
/// open, it is a gap, and no role is.
#[derive(Drop)]
pub(crate) struct Open {
    pub(crate) number: SessionId,
    pub(crate) owner: UserId,
    pub(crate) roles: Roles,
    pub(crate) is_open: bool,
}

/// Where the open session stands. It is searched for by halves, since the numbers rise, those of
/// gaps too.
pub(crate) fn place(sessions: &[Open], number: SessionId) -> Option<usize>
    requires { AreNumbered (map opened sessions.now) }
    ensures { MatchOption result (find (numbered number) sessions.now ≡ None)
        (StandsAt sessions.now number) }
{
    let at = first_from(sessions, number.0);
    if at >= sessions.len() {
        return None;
    }
    if is_numbered(sessions, at, number) {
        Some(at)
    } else {
        None
    }
}

/// Whether the session at the place is open and of the number.
fn is_numbered(sessions: &[Open], at: usize, number: SessionId) -> bool
    requires { at < length sessions.now }
    ensures { IfSome (slice_get sessions.now at) (λ o. result ≡ numbered number o) }
{
    let session = &sessions[at];
    session.is_open && session.number.0 == number.0
}

/// How many sessions and gaps have lesser numbers.
fn first_from(sessions: &[Open], number: u32) -> usize
    requires { AreNumbered (map opened sessions.now) }
    ensures { IsFirstFrom sessions.now number result }
{
    let mut low = 0;
    let mut high = sessions.len();
    while low < high {
        let mid = low + (high - low) / 2;
        if number_at(sessions, mid) < number {
            low = mid + 1;
        } else {
            high = mid;
        }
    }
    low
}

/// The number of the session at the place.
fn number_at(sessions: &[Open], at: usize) -> u32
    requires { at < length sessions.now }
    ensures { IfSome (slice_get sessions.now at) (λ o. result ≡ o.number.0) }
{
    let session = &sessions[at];
    session.number.0
}

/// The owner of the session at the place.
pub(crate) fn owner_at(sessions: &[Open], at: usize) -> UserId
    requires { at < length sessions.now }
    ensures { IfSome (slice_get sessions.now at) (λ o. result ≡ o.owner) }
{
    let session = &sessions[at];
    session.owner
}

/// The roles of the session at the place, ascending.
pub(crate) fn roles_at(sessions: &[Open], at: usize) -> &[RoleId]
    requires { at < length sessions.now }
    ensures roles { IfSome (slice_get sessions.now at) (λ o. result.now ≡ members o.roles) }
    ensures rises { Rises role_cmp result.now }
{
    let session = &sessions[at];
    session.roles.as_slice()
}

/// Whether the role is active in the session at the place.
pub(crate) fn has_role(sessions: &[Open], at: usize, role: RoleId) -> bool
    requires { at < length sessions.now }
    ensures { IfSome (slice_get sessions.now at) (λ o. result ≡ has o.roles role) }
{
    let session = &sessions[at];
    session.roles.has(role)
}

/// Adds a role to the session at the place. After a refusal all is as it was.
pub(crate) fn add_role(sessions: &mut Vec<Open>, at: usize, role: RoleId) -> Result<(), Memory>
    requires { at < length sessions.old.items }
    ensures ok { OnOk result
        (IfSome (slice_get sessions.old.items at)
        (λ o. sessions.new.items
        ≡ slice_set sessions.old.items at
        (record o { roles = with_member o.roles role }))) }
    ensures err { OnErr result (sessions.new.items ≡ sessions.old.items) }
{
    let session = &mut sessions[at];
    session.roles.add(role)
}

/// Takes a role out of the session at the place.
pub(crate) fn remove_role(sessions: &mut Vec<Open>, at: usize, role: RoleId)
    requires { at < length sessions.old.items }
    ensures { IfSome (slice_get sessions.old.items at)
        (λ o. sessions.new.items
        ≡ slice_set sessions.old.items at (record o { roles = without o.roles role })) }
{
    let session = &mut sessions[at];
    session.roles.remove(role);
}

/// Leaves a gap in the place of the session there.
pub(crate) fn shut(alloc: Global, sessions: &mut Vec<Open>, at: usize)
    requires numbered { AreNumbered (map opened sessions.old.items) }
    requires inside { at < length sessions.old.items }
    ensures opened { map opened sessions.new.items ≡ map opened sessions.old.items }
    ensures standing { (n : SessionId) → StandsAt sessions.old.items n at
        → still_open sessions.new.items
        ≡ filter (λ o. not (numbered n o)) (still_open sessions.old.items) }
    ensures count { (n : SessionId) → StandsAt sessions.old.items n at
        → count_by (λ o. o.is_open) sessions.old.items
        ≡ count_by (λ o. o.is_open) sessions.new.items + 1 }
{
    leave_gap(alloc, sessions, at);
}

/// The same, whatever the numbers are.
fn leave_gap(alloc: Global, sessions: &mut Vec<Open>, at: usize)
    requires { at < length sessions.old.items }
    ensures { IfSome (slice_get sessions.old.items at)
        (λ o. sessions.new.items
        ≡ slice_set sessions.old.items at (record o { roles = none; is_open = false })) }
{
    let session = &mut sessions[at];
    session.roles = Roles::new(alloc);
    session.is_open = false;
}

/// Takes the gaps out where they are more than the sessions, of which so many are open.
pub(crate) fn close_up(sessions: &mut Vec<Open>, standing: usize)
    ensures standing { still_open sessions.new.items ≡ still_open sessions.old.items }
    ensures numbered { (top : ℕ) → NumberedFrom 0 (map opened sessions.old.items) top
        → NumberedFrom 0 (map opened sessions.new.items) top }
{
    if sessions.len() / 2 > standing {
        keep_open(sessions);
    }
}

/// Takes the gaps out.
fn keep_open(sessions: &mut Vec<Open>)
    ensures { sessions.new.items ≡ still_open sessions.old.items }
{
    sessions.retain(
        |session: &Open| -> bool
            ensures { result ≡ session.now.is_open }
        { session.is_open },
    );
}

/// Adds a session at the end. After a refusal all is as it was.
pub(crate) fn push(sessions: &mut Vec<Open>, session: Open) -> Result<(), Memory>
    ensures ok { OnOk result (sessions.new.items ≡ sessions.old.items ++ session ∷ []) }
    ensures err { OnErr result (sessions.new.items ≡ sessions.old.items) }
{
    sessions.push(session)?;
    Ok(())
}

/// The same sessions and gaps.
pub(crate) fn copied(alloc: Global, sessions: &[Open]) -> Result<Vec<Open>, Memory>
    ensures { IfOk result (λ copy. copy.items ≡ sessions.now) }
{
    let mut copy = Vec::new(alloc);
    for session in sessions {
        copy.push(Open {
            number: session.number,
            owner: session.owner,
            roles: session.roles.copied()?,
            is_open: session.is_open,
        })?;
    }
    Ok(copy)
}

//! Activations, in the order in which they were made.
ghost use Rattle.std.specs.Prelude.{◌≡◌, ◌+◌, ◌<◌, ◌≤◌, [], ◌∷◌, ◌++◌, not, map, filter, find, length, count_by, slice_get, take, true, false, Some, vec_len, vec_capacity};
ghost use Rattle.gtrbac_model.specs.Sessions.{is_of, is_active_in, signal_of};
ghost use Rattle.session_table.specs.Opened.{in_session};

use crate::active::{ActiveRow, behind};
use gt_base::{Instant, RoleId, SessionId, Signal, UserId};
use std::marker::Model;

/// A role that is active in a session, for the user who opened it, since the instant at which it
/// was activated.
#[derive(Clone, Copy)]
pub(crate) struct Activation {
    pub(crate) session: SessionId,
    pub(crate) user: UserId,
    pub(crate) role: RoleId,
    pub(crate) begun: Instant,
}

impl Model for Activation {
    ghost use Rattle.gtrbac_model.specs.Sessions.{Activation};

    ghost Value = { Activation };

    ghost view = { λ a. record {
      session = a.session;
      user = a.user;
      role = a.role;
      begun = a.begun;
    } };

    ghost inverse = { λ a. record {
      session = a.session;
      user = a.user;
      role = a.role;
      begun = a.begun;
    } };
}

/// Whether it is of this role in this session.
pub(crate) fn is_active_in(a: &Activation, session: SessionId, role: RoleId) -> bool
    ensures { result ≡ is_active_in session role a.now }
{
    a.session.0 == session.0 && a.role.0 == role.0
}

/// Whether it is of this session.
pub(crate) fn is_in_session(a: &Activation, session: SessionId) -> bool
    ensures { result ≡ in_session session a.now }
{
    a.session.0 == session.0
}

/// Whether it is of this user and role.
pub(crate) fn is_of(a: &Activation, user: UserId, role: RoleId) -> bool
    ensures { result ≡ is_of user role a.now }
{
    a.user.0 == user.0 && a.role.0 == role.0
}

/// The signal of its start or its end.
pub(crate) fn signal_of(start: bool, a: &Activation) -> Signal
    ensures { result ≡ signal_of start a.now }
{
    Signal {
        start,
        user: a.user,
        role: a.role,
    }
}

/// How many are of the session.
pub(crate) fn count_in(active: &[Activation], session: SessionId) -> usize
    ensures { result ≡ count_by (in_session session) active.now }
{
    active.iter().filter(|a| is_in_session(a, session)).count()
}

/// Takes out the activation of the role in the session.
pub(crate) fn end_role(active: &mut Vec<Activation>, session: SessionId, role: RoleId)
    ensures { active.new.items ≡ filter (λ a. not (is_active_in session role a)) active.old.items }
{
    active.retain(|a| !is_active_in(a, session, role));
}

/// The activation at the place.
pub(crate) fn activation_at(active: &[Activation], at: usize) -> Activation
    requires { at < length active.now }
    ensures { slice_get active.now at ≡ Some result }
{
    active[at]
}

/// Adds the end signal, into room that was made before.
fn tell(signals: &mut Vec<Signal>, a: &Activation)
    requires { vec_len signals.old < vec_capacity signals.old }
    ensures items { signals.new.items ≡ signals.old.items ++ signal_of false a.now ∷ [] }
    ensures len { vec_len signals.new ≡ vec_len signals.old + 1 }
    ensures capacity { vec_capacity signals.old ≤ vec_capacity signals.new }
{
    match signals.push(signal_of(false, a)) {
        Ok(()) => {}
        Err(_) => unreachable!(),
    }
}

/// Takes out the activations of the session, of which there are at most so many, and adds their end
/// signals, into room that was made before. Where all are found, nothing further is looked at.
pub(crate) fn end_session(
    active: &mut ActiveRow,
    session: SessionId,
    most: usize,
    signals: &mut Vec<Signal>,
)
    requires few { count_by (in_session session) active.old.items ≤ most }
    requires room { vec_len signals.old + most ≤ vec_capacity signals.old }
    ensures active { active.new.items ≡ filter (λ a. not (in_session session a)) active.old.items }
    ensures signals { signals.new.items
        ≡ signals.old.items
        ++ map (signal_of false) (filter (in_session session) active.old.items) }
{
    let mut left = most;
    let mut at = start(active.as_slice(), session, most);
    while at < active.len() {
        if left == 0 {
            return;
        }
        let a = activation_at(active.as_slice(), at);
        if is_in_session(&a, session) {
            active.remove(at);
            tell(signals, &a);
            left -= 1;
        } else {
            at += 1;
        }
    }
}

/// A place before which none of the session stands, where at most so many stand in all: the first
/// of its own where sessions were activated in the order of their numbers, else 0.
fn start(active: &[Activation], session: SessionId, most: usize) -> usize
    requires { count_by (in_session session) active.now ≤ most }
    ensures { count_by (in_session session) (take result active.now) ≤ 0 }
{
    let at = first_from(active, session);
    if at < active.len() && is_in_session(&activation_at(active, at), session) {
        if has_all(behind(active, at), session, most) {
            return at;
        }
    }
    0
}

/// Where the activations of the session and of later ones begin, if they stand in the order of
/// their sessions.
fn first_from(active: &[Activation], session: SessionId) -> usize
    ensures { result ≤ length active.now }
{
    let mut low = 0;
    let mut high = active.len();
    while low < high {
        let mid = low + (high - low) / 2;
        let a = activation_at(active, mid);
        if a.session.0 < session.0 {
            low = mid + 1;
        } else {
            high = mid;
        }
    }
    high
}

/// Whether so many of the session are found.
fn has_all(active: &[Activation], session: SessionId, most: usize) -> bool
    ensures { result ≡ true → most ≤ count_by (in_session session) active.now }
{
    let mut found = 0;
    for a in active {
        if found >= most {
            return true;
        }
        if is_in_session(a, session) {
            found += 1;
        }
    }
    found >= most
}

/// The activation of the role in the session.
pub(crate) fn find_active(
    active: &[Activation],
    session: SessionId,
    role: RoleId,
) -> Option<Activation>
    ensures { result ≡ find (is_active_in session role) active.now }
{
    for a in active {
        if is_active_in(a, session, role) {
            return Some(*a);
        }
    }
    None
}

//! How long replies are.
ghost use Rattle.std.specs.Prelude.{◌≡◌, ◌≤◌, ◌<◌, ◌^◌, length, IfOk};
ghost use Rattle.request_text.specs.Replies.{reply_line};
ghost use Rattle.request_text.specs.Sizes.{IsSmallSeen, IsSmallRefusal, IsSmall, IsBrief, edge_count};

use gt_base::{Decision, MAX_PRIO, Memory, Prio, Refusal, Reply, Seen, SessionId};
use policy_book::Policy;
use std::alloc::AllocError;

/// The most bytes of a reply's line, its line feed included, where a walk has at most 999 edges:
/// the words before a walk, 1,000 names of 32 bytes and the signs between them.
pub const LONGEST_REPLY: usize = 33_010;

/// What a number of four bytes keeps.
pub(crate) fn small_number(n: u32)
    ensures { n < 2 ^ 32 }
{
    let _ = n;
}

/// What a priority keeps.
fn small_prio(prio: Prio)
    ensures { prio ≤ MAX_PRIO }
{
    let _ = prio.get();
}

/// What the priority in an answer to `event` keeps.
fn small_seen(seen: Seen)
    ensures { IsSmallSeen seen }
{
    match seen {
        Seen::Unblocked(prio) | Seen::Blocked(prio) => small_prio(prio),
        Seen::Absent => {}
    }
}

/// What the number in a refusal keeps, where it has one.
fn small_refusal(refusal: Refusal)
    ensures { IsSmallRefusal refusal }
{
    match refusal {
        Refusal::Beyond { due } => small_number(due),
        Refusal::RoleFull { n } | Refusal::UserFull { n } => small_number(n),
        Refusal::DaySpent { minutes } => small_number(minutes),
        Refusal::NoUser
        | Refusal::NotAdmin
        | Refusal::SessionsFull
        | Refusal::NoSession
        | Refusal::NotYours
        | Refusal::NotActive
        | Refusal::Already
        | Refusal::Disabled
        | Refusal::NotAssigned => {}
    }
}

/// What the number of a session keeps.
fn small_session(session: SessionId)
    ensures { session.0 < 2 ^ 32 }
{
    small_number(session.0);
}

/// The numbers of a reply are those that its types hold.
pub(crate) fn small(reply: &Reply)
    ensures { IsSmall reply.now }
{
    match reply {
        Reply::Event(seen) => small_seen(*seen),
        Reply::Refused(refusal) => small_refusal(*refusal),
        Reply::Session(session) => small_session(*session),
        Reply::Now(_)
        | Reply::Truth(_)
        | Reply::Queued(_)
        | Reply::Done
        | Reply::Active(_)
        | Reply::Decided(_) => {}
    }
}

/// A reply whose walk has at most 999 edges has a line of at most `LONGEST_REPLY` bytes.
pub fn reply_fits(p: &Policy, r: &Reply)
    requires { IsBrief r.now }
    ensures { length (reply_line p.now r.now) ≤ LONGEST_REPLY }
{
    p.keeps();
    small(r);
}

/// How many edges the walk of a reply has, none where it has no walk.
fn walk_len(reply: &Reply) -> usize
    ensures { result ≡ edge_count reply.now }
{
    match reply {
        Reply::Active(walk) => walk.edges.len(),
        Reply::Decided(Decision::Permit { walk }) => walk.edges.len(),
        Reply::Now(_)
        | Reply::Truth(_)
        | Reply::Event(_)
        | Reply::Queued(_)
        | Reply::Session(_)
        | Reply::Done
        | Reply::Decided(Decision::NoActive | Decision::NoGrant | Decision::Shut { .. })
        | Reply::Refused(_) => 0,
    }
}

/// Room that the line of a reply surely fits into: an edge of its walk adds a sign and a name of 32
/// bytes.
#[tactic(auto, using(crate::proofs::Lengths::line_bounds))]
pub(crate) fn reply_room(p: &Policy, reply: &Reply) -> Result<usize, Memory>
    ensures { IfOk result (λ n. length (reply_line p.now reply.now) ≤ n) }
{
    p.keeps();
    small(reply);
    let Some(steps) = walk_len(reply).checked_mul(33) else {
        return Err(AllocError);
    };
    match steps.checked_add(81) {
        Some(room) => Ok(room),
        None => Err(AllocError),
    }
}

//! A link, from its first byte to its end.
ghost use Rattle.std.specs.Prelude.{◌≡◌, ◌+◌, ◌<◌, ◌≤◌, ◌^◌, true, false, None};
ghost use Rattle.gt_base.specs.declared.limits.TheConstants.{MAX_BYTES};
ghost use Rattle.turn_lock.specs.Holders.{site_of};
ghost use Rattle.locked_history.specs.Fronts.{by};
ghost use Rattle.connection_laws.specs.Services.{service_at};
ghost use Rattle.connection_laws.specs.Turns.{CanAsk, StaysIdle, IsRested};
ghost use Rattle.connection_laws.specs.Attending.{IsUnheard, spot, Attends};
ghost use Rattle.connection_laws.specs.Clerks.{clerk_view, WearsClerk, ClerkAsks};
ghost use Rattle.line_server.specs.Serving.{link_view, Serves};

use connection_laws::{Clerk, Hearing, LinkEnd, Report, Server, attend};
use gt_base::{Instant, Machine};
use gt_io::{Clock, Gate, Link};
use locked_history::Desk;
use policy_book::Policy;
use std::alloc::Global;
use std::sync::Wait;
use turn_lock::Pass;

/// Serves a link to its end at the desk, and lets it go.
fn attend_at<M: Machine, R: Wait, L: Link, C: Clock, G: Gate>(
    server: &Server<M, R, G>,
    pass: &mut Pass<M>,
    clock: &mut C,
    reached: &mut Option<Instant>,
    link: &mut L,
    hearing: &mut Hearing,
) -> LinkEnd
    requires ready { CanAsk M.named M.legal server.now.desk.now server.now.policy.now pass.old }
    requires reached { reached.old ≡ None }
    requires unheard { IsUnheard hearing.old (L.traffic link.old) }
    ensures attends { Attends server.now.policy.now
        (ClerkAsks
        (service_at M.list M.legal M.now_of server.now.desk.now server.now.policy.now)
        (by pass.old.number server.now.conn)) WearsClerk
        (spot (clerk_view pass.old (C.readings clock.old)) hearing.old.talk
        (L.traffic link.old).given)
        (spot (clerk_view pass.new (C.readings clock.new)) hearing.new.talk
        (L.traffic link.new).given) (L.traffic link.old) (L.traffic link.new) result }
    ensures pass { StaysIdle (site_of server.now.desk.now) pass.old pass.new }
    ensures calls { hearing.new.talk.calls ≤ hearing.old.talk.calls + MAX_BYTES }
    ensures finished { (L.traffic link.new).finished ≡ true }
    ensures rests { IsRested pass.old → IsRested pass.new }
{
    let mut clerk = Clerk {
        server,
        pass,
        clock,
        reached,
        held: 0,
    };
    attend(&mut clerk, link, hearing)
}

/// Serves one link of a connection, whose number is `conn`: line by line it passes the gate, reads
/// the clock, brings the history to that minute and asks. After the first read or write that fails
/// it makes no further one, nor a read behind the one that told the end. At the end it lets the
/// link go, which is the last call on it. A pass that was at rest is so again then: it keeps no
/// turn of the lock. `calls` counts the request lines of the worker. Want of memory shows in the
/// reply to a line.
pub fn serve_link<M: Machine, R: Wait, L: Link, C: Clock, G: Gate>(
    rt: &R,
    alloc: Global,
    desk: &Desk<M>,
    policy: &Policy,
    pass: &mut Pass<M>,
    conn: u32,
    link: &mut L,
    clock: &mut C,
    gate: &G,
    calls: &mut u64,
) -> Report
    requires ready { CanAsk M.named M.legal desk.now policy.now pass.old }
    requires calls { calls.old < 2 ^ 63 }
    requires open { (L.traffic link.old).finished ≡ false }
    ensures serves { Serves (service_at M.list M.legal M.now_of desk.now policy.now)
        (by pass.old.number conn)
        (link_view pass.old calls.old (C.readings clock.old) (L.traffic link.old))
        (link_view pass.new calls.new (C.readings clock.new) (L.traffic link.new)) result }
    ensures pass { StaysIdle (site_of desk.now) pass.old pass.new }
    ensures few { calls.new ≤ calls.old + MAX_BYTES }
    ensures rests { IsRested pass.old → IsRested pass.new }
{
    let server = Server {
        rt,
        alloc,
        desk,
        policy,
        conn,
        gate,
    };
    let mut hearing = Hearing::new(alloc, *calls);
    let mut reached = None;
    let outcome = attend_at(&server, pass, clock, &mut reached, link, &mut hearing);
    *calls = hearing.talk.calls;
    Report {
        asked: hearing.talk.asked,
        denied: hearing.talk.denied,
        outcome,
    }
}

//! The links of a door, one after the other.
ghost use Rattle.std.specs.Prelude.{◌≡◌, ◌+◌, ◌<◌, ◌≤◌, ◌^◌, ℕ, false, [], length, None, MatchOption};
ghost use Rattle.gt_base.specs.declared.limits.TheConstants.{MAX_BYTES};
ghost use Rattle.turn_lock.specs.Holders.{site_of};
ghost use Rattle.connection_laws.specs.Services.{service_at};
ghost use Rattle.connection_laws.specs.Turns.{CanAsk, StaysIdle};
ghost use Rattle.connection_laws.specs.Attending.{is_worn_out};
ghost use Rattle.line_server.specs.Working.{worker_spot, post_view, WorksOn, WorksThrough, HasWorkedAtPost};

use crate::ended::{Served, WorkEnd};
use crate::serve::serve_link;
use connection_laws::LinkEnd;
use gt_base::{List, MAX_LINKS, Machine};
use gt_io::{Clock, Door, Gate, make_room};
use locked_history::Desk;
use policy_book::Policy;
use std::alloc::Global;
use std::sync::Wait;
use turn_lock::Pass;

/// A worker with its door, clock and gate, and what became of its links.
pub struct Worker<D: Door, C: Clock, G: Gate> {
    pub door: D,
    pub clock: C,
    pub gate: G,
    pub served: List<Served<D::L>>,
    pub outcome: WorkEnd,
}

/// Whether the pass of a link is worn.
fn worn_of(end: LinkEnd) -> Option<WorkEnd>
    ensures { MatchOption result (is_worn_out end ≡ false)
        (λ worn. (n : ℕ) × (end ≡ LinkEnd.Worn n) × (worn ≡ WorkEnd.Worn n)) }
{
    match end {
        LinkEnd::Worn { draws } => Some(WorkEnd::Worn { draws }),
        _ => None,
    }
}

/// Serves the next link of the worker's door, for which there is room.
fn serve_next<M: Machine, R: Wait, D: Door, C: Clock, G: Gate>(
    rt: &R,
    alloc: Global,
    desk: &Desk<M>,
    policy: &Policy,
    pass: &mut Pass<M>,
    w: &mut Worker<D, C, G>,
    calls: &mut u64,
) -> Option<WorkEnd>
    requires ready { CanAsk M.named M.legal desk.now policy.now pass.old × (calls.old < 2 ^ 63) }
    requires room { 1 ≤ w.old.served.spare }
    requires few { length w.old.served.items < MAX_LINKS }
    ensures works { WorksOn D.L.traffic (service_at M.list M.legal M.now_of desk.now policy.now)
        pass.old.number
        (worker_spot pass.old (C.readings w.old.clock) (D.doorway w.old.door))
        (worker_spot pass.new (C.readings w.new.clock) (D.doorway w.new.door))
        w.old.served.items w.new.served.items result }
    ensures pass { StaysIdle (site_of desk.now) pass.old pass.new }
    ensures calls { calls.new ≤ calls.old + MAX_BYTES }
    ensures one { result ≡ None → length w.new.served.items ≡ length w.old.served.items + 1 }
{
    match w.door.next() {
        Err(_) => Some(WorkEnd::DoorFault),
        Ok(None) => Some(WorkEnd::Done),
        Ok(Some(mut link)) => {
            let conn = w.served.len() as u32 + 1;
            let report = serve_link(
                rt,
                alloc,
                desk,
                policy,
                pass,
                conn,
                &mut link,
                &mut w.clock,
                &w.gate,
                calls,
            );
            w.served.push(Served { link, report });
            worn_of(report.outcome)
        }
    }
}

/// Serves the links of the worker's door until it ends.
fn work_on<M: Machine, R: Wait, D: Door, C: Clock, G: Gate>(
    rt: &R,
    alloc: Global,
    desk: &Desk<M>,
    policy: &Policy,
    pass: &mut Pass<M>,
    w: &mut Worker<D, C, G>,
) -> WorkEnd
    requires ready { CanAsk M.named M.legal desk.now policy.now pass.old }
    requires empty { w.old.served.items ≡ [] }
    ensures works { WorksThrough D.L.traffic
        (service_at M.list M.legal M.now_of desk.now policy.now) pass.old.number
        (worker_spot pass.old (C.readings w.old.clock) (D.doorway w.old.door))
        (worker_spot pass.new (C.readings w.new.clock) (D.doorway w.new.door))
        w.new.served.items result }
    ensures pass { StaysIdle (site_of desk.now) pass.old pass.new }
{
    let mut calls = 0;
    while w.served.len() < MAX_LINKS {
        if make_room(&mut w.door, &mut w.served).is_err() {
            return WorkEnd::Memory;
        }
        if let Some(end) = serve_next(rt, alloc, desk, policy, pass, w, &mut calls) {
            return end;
        }
    }
    WorkEnd::Enough
}

/// Serves the links of the worker's door one after the other, numbered from 1, until the door has
/// none left or fails, 100,000 were served, the pass is worn, or there is no memory for a further
/// link. Then the door is closed.
pub fn work<M: Machine, R: Wait, D: Door, C: Clock, G: Gate>(
    rt: &R,
    alloc: Global,
    desk: &Desk<M>,
    policy: &Policy,
    pass: &mut Pass<M>,
    w: &mut Worker<D, C, G>,
)
    requires ready { CanAsk M.named M.legal desk.now policy.now pass.old }
    requires fresh { (w.old.outcome ≡ WorkEnd.Fresh) × (w.old.served.items ≡ []) }
    ensures { HasWorkedAtPost D.L.traffic (service_at M.list M.legal M.now_of desk.now policy.now)
        (site_of desk.now) (post_view C.readings D.doorway pass.old w.old)
        (post_view C.readings D.doorway pass.new w.new) }
{
    w.outcome = work_on(rt, alloc, desk, policy, pass, w);
    w.door.close();
}

//! Workers at their posts, each with a pass, all at the same time.
ghost use Rattle.std.specs.Prelude.{◌≡◌, ◌<◌, ℕ, [], length, All, slice_index_or};
ghost use Rattle.turn_lock.specs.Holders.{site_of};
ghost use Rattle.connection_laws.specs.Services.{service_at};
ghost use Rattle.connection_laws.specs.Turns.{IsIdle, CanAsk};
ghost use Rattle.connection_laws.specs.Desks.{MayBeAsked, RepliesCanBeTold};
ghost use Rattle.line_server.specs.Working.{at_post, HasWorkedAtPost};

use crate::ended::WorkEnd;
use crate::workers::{Worker, work};
use gt_base::Machine;
use gt_io::{Clock, Door, Gate};
use locked_history::Desk;
use policy_book::Policy;
use std::alloc::Global;
use std::sync::Wait;
use std::thread;
use std::thread::Threads;
use turn_lock::Pass;

/// A worker and its pass.
pub struct Post<M, D: Door, C: Clock, G: Gate> {
    pub worker: Worker<D, C, G>,
    pub pass: Pass<M>,
}

/// Serves the links of one post's door with its pass, as `work` does.
pub fn work_at<M: Machine, R: Wait, D: Door, C: Clock, G: Gate>(
    rt: &R,
    alloc: Global,
    desk: &Desk<M>,
    policy: &Policy,
    post: &mut Post<M, D, C, G>,
)
    requires ready { CanAsk M.named M.legal desk.now policy.now post.old.pass }
    requires fresh { (post.old.worker.outcome ≡ WorkEnd.Fresh)
        × (post.old.worker.served.items ≡ []) }
    ensures { HasWorkedAtPost D.L.traffic (service_at M.list M.legal M.now_of desk.now policy.now)
        (site_of desk.now) (at_post C.readings D.doorway post.old)
        (at_post C.readings D.doorway post.new) }
{
    work(rt, alloc, desk, policy, &mut post.pass, &mut post.worker);
}

/// Works at all posts at the same time. What `work` tells holds of the post at each place.
pub fn run_posts<
    R: Threads + Wait + Sync,
    M: Machine + Send,
    D: Door + Send,
    C: Clock + Send,
    G: Gate + Send,
>(rt: &R, alloc: Global, desk: &Desk<M>, policy: &Policy, posts: &mut Vec<Post<M, D, C, G>>)
where
    D::L: Send,
    requires idle { All
        (λ p. IsIdle (site_of desk.now) p.pass × (p.worker.outcome ≡ WorkEnd.Fresh)
        × (p.worker.served.items ≡ []))
        posts.old.items }
    requires named { MayBeAsked policy.now (M.named desk.now.root) }
    requires replies { RepliesCanBeTold policy.now (M.legal desk.now.root) }
    ensures length { length posts.new.items ≡ length posts.old.items }
    ensures works { (i : ℕ) (d : _) → i < length posts.old.items
        → HasWorkedAtPost D.L.traffic (service_at M.list M.legal M.now_of desk.now policy.now)
        (site_of desk.now)
        (at_post C.readings D.doorway (slice_index_or posts.old.items i d))
        (at_post C.readings D.doorway (slice_index_or posts.new.items i d)) }
{
    thread::for_each_mut(
        rt,
        posts.as_mut_slice(),
        8,
        &|_, post| { work_at(rt, alloc, desk, policy, post) },
    );
}

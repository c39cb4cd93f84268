//! Any number of posts, each with a pass, served at the same time.
ghost use Rattle.std.specs.Prelude.{◌≡◌, ◌+◌, ◌<◌, ◌≤◌, ℕ, length, All, slice_index_or};
ghost use Rattle.gt_base.specs.declared.requests.Actor.TheVariants.{Nobody};
ghost use Rattle.gt_base.specs.declared.requests.Request.TheVariants.{Now};
ghost use Rattle.turn_lock.specs.Holders.{site_of};
ghost use Rattle.desk_checks.specs.Posts.{IsFree, IsBack};

use crate::posts::DeskPost;
use gt_base::{Actor, Machine, Request};
use locked_history::Desk;
use std::sync::Wait;
use std::thread;
use std::thread::Threads;

/// Asks for the instant as often as the post says, and counts how often it was told.
pub fn serve<M: Machine, R: Wait>(rt: &R, desk: &Desk<M>, post: &mut DeskPost<M>)
    requires pass { IsFree (site_of desk.now) post.old.pass }
    requires named { M.named desk.now.root Nobody Now }
    ensures pass { IsBack (site_of desk.now) post.old.pass post.new.pass }
    ensures own { length post.new.pass.own ≡ length post.old.pass.own + post.new.told }
{
    if post.stays {
        post.pass.stay();
    }
    let mut told = 0;
    for _ in 0..post.asks {
        if desk
            .ask(rt, &mut post.pass, 1, Actor::Nobody, Request::Now)
            .is_ok()
        {
            told += 1;
        }
    }
    desk.rest(&mut post.pass);
    post.told = told;
}

/// Serves all posts at the same time. What `serve` tells holds of the post at each place.
pub fn run<M: Machine + Send, R: Threads + Wait + Sync>(
    rt: &R,
    desk: &Desk<M>,
    posts: &mut Vec<DeskPost<M>>,
)
    requires free { All (λ p. IsFree (site_of desk.now) p.pass) posts.old.items }
    requires named { M.named desk.now.root Nobody Now }
    ensures length { length posts.new.items ≡ length posts.old.items }
    ensures each { (i : ℕ) (d : _) → i < length posts.old.items
        → IsBack (site_of desk.now) (slice_index_or posts.old.items i d).pass
        (slice_index_or posts.new.items i d).pass
        × (length (slice_index_or posts.new.items i d).pass.own
        ≡ length (slice_index_or posts.old.items i d).pass.own
        + (slice_index_or posts.new.items i d).told) }
{
    let slice = posts.as_mut_slice();
    thread::for_each_mut(rt, slice, 8, &|_, post| serve(rt, desk, post));
}

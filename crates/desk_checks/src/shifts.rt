//! As many threads as there are passes, from the making of the desk to its close.
ghost use Rattle.std.specs.Prelude.{◌≡◌, ◌+◌, ◌<◌, ◌≤◌, ◌++◌, [], ℕ, length, drop, map, reverse, vec_len, vec_capacity, IfOk, All};
ghost use mathlib.Core.List.{IsPrefix};
ghost use Rattle.gt_base.specs.declared.requests.Actor.TheVariants.{Nobody};
ghost use Rattle.gt_base.specs.declared.requests.Request.TheVariants.{Now};
ghost use Rattle.turn_lock.specs.Turns.{part};
ghost use Rattle.desk_checks.specs.PostLists.{passes_of};

use crate::posts::DeskPost;
use crate::serving::run;
use gt_base::Machine;
use locked_history::Desk;
use std::alloc::Global;
use std::sync::Wait;
use std::thread::Threads;
use turn_lock::{NewFault, Passes};

/// Each pass gets a post, the last one first. The post of pass w is to ask `asks + w * more` times.
fn man<M>(passes: &mut Passes<M>, posts: &mut Vec<DeskPost<M>>, stays: bool, asks: u32, more: u32)
    requires empty { posts.old.items ≡ [] }
    requires room { length passes.old.items ≤ vec_capacity posts.old }
    ensures posts { reverse (passes_of posts.new.items) ≡ passes.old.items }
    ensures passes { (passes.new.items ≡ [])
        × (passes.new.spare ≡ passes.old.spare + length passes.old.items) }
{
    while let Some(pass) = passes.take() {
        let asks = asks.saturating_add(more.saturating_mul(pass.number()));
        posts.push_reserved(DeskPost {
            pass,
            stays,
            asks,
            told: 0,
        });
    }
}

/// The passes come back, the first one first.
fn relieve<M>(passes: &mut Passes<M>, mut posts: Vec<DeskPost<M>>)
    requires empty { passes.old.items ≡ [] }
    requires room { vec_len posts ≤ passes.old.spare }
    ensures { passes.new.items ≡ reverse (passes_of posts.items) }
{
    while let Some(post) = posts.pop() {
        let DeskPost {
            pass,
            stays: _,
            asks: _,
            told: _,
        } = post;
        passes.put(pass);
    }
    posts.destroy_empty();
}

/// As many threads as workers ask at one desk, worker w `asks + w * more` times, and the desk is
/// closed. Where they stay, each keeps its turn for many asks.
pub fn many<M: Machine + Send, R: Threads + Wait + Sync>(
    rt: &R,
    alloc: Global,
    machine: M,
    workers: u32,
    stays: bool,
    asks: u32,
    more: u32,
) -> Result<M, NewFault<M>>
    requires workers { (1 ≤ workers) × (workers ≤ 8) }
    requires named { M.named machine Nobody Now }
    ensures kept { IfOk result (λ m. M.same_root machine m × IsPrefix (M.list machine) (M.list m)) }
    ensures others { IfOk result
        (λ m. (n : ℕ) → workers ≤ n → part n (drop (length (M.list machine)) (M.list m)) ≡ []) }
{
    let (desk, mut passes) = Desk::new(alloc, machine, workers)?;
    let Ok(mut posts) = Vec::with_capacity(alloc, workers as usize) else {
        return Err(NewFault {
            value: desk.close(passes),
        });
    };
    man(&mut passes, &mut posts, stays, asks, more);
    run(rt, &desk, &mut posts);
    relieve(&mut passes, posts);
    Ok(desk.close(passes))
}

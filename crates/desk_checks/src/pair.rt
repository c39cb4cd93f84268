//! Two threads at one desk.
ghost use Rattle.std.specs.Prelude.{◌≡◌, ◌+◌, ◌<◌, ◌≤◌, [], ℕ, length, drop, IfOk, None};
ghost use mathlib.Core.List.{IsPrefix};
ghost use Rattle.gt_base.specs.declared.requests.Actor.TheVariants.{Nobody};
ghost use Rattle.gt_base.specs.declared.requests.Request.TheVariants.{Now};
ghost use Rattle.turn_lock.specs.Turns.{part};
ghost use Rattle.turn_lock.specs.Holders.{site_of};

use gt_base::{Actor, Machine, Request};
use locked_history::Desk;
use std::alloc::Global;
use std::sync::Wait;
use std::thread::{Threads, join};
use turn_lock::{NewFault, Pass};

/// Asks for the instant so many times, and says how often it was told.
pub fn ask_all<M: Machine, R: Wait>(
    rt: &R,
    desk: &Desk<M>,
    mut pass: Pass<M>,
    count: u32,
) -> (Pass<M>, u32)
    requires pass { (pass.site ≡ site_of desk.now) × (pass.turn ≡ None) }
    requires named { M.named desk.now.root Nobody Now }
    ensures pass { (result.0.site ≡ pass.site) × (result.0.turn ≡ None)
        × (result.0.number ≡ pass.number) }
    ensures own { length result.0.own ≡ length pass.own + result.1 }
{
    let mut asked = 0;
    for _ in 0..count {
        if desk
            .ask(rt, &mut pass, 1, Actor::Nobody, Request::Now)
            .is_ok()
        {
            asked += 1;
        }
    }
    (pass, asked)
}

/// Both passes ask at the same time.
fn ask_both<M: Machine + Send, R: Threads + Wait + Sync>(
    rt: &R,
    desk: &Desk<M>,
    zero: Pass<M>,
    one: Pass<M>,
    count: u32,
) -> ((Pass<M>, u32), (Pass<M>, u32))
    requires zero { (zero.site ≡ site_of desk.now) × (zero.turn ≡ None) }
    requires one { (one.site ≡ site_of desk.now) × (one.turn ≡ None) }
    requires named { M.named desk.now.root Nobody Now }
    ensures zero { (result.0.0.site ≡ zero.site) × (result.0.0.turn ≡ None)
        × (result.0.0.number ≡ zero.number)
        × (length result.0.0.own ≡ length zero.own + result.0.1) }
    ensures one { (result.1.0.site ≡ one.site) × (result.1.0.turn ≡ None)
        × (result.1.0.number ≡ one.number)
        × (length result.1.0.own ≡ length one.own + result.1.1) }
{
    join(
        rt,
        || ask_all(rt, desk, zero, count),
        || ask_all(rt, desk, one, count),
    )
}

/// Two threads ask. After what it kept at first the machine keeps as many entries of each as that
/// one was told of, and no others.
pub fn two<M: Machine + Send, R: Threads + Wait + Sync>(
    rt: &R,
    alloc: Global,
    machine: M,
    count: u32,
) -> Result<(M, u32, u32), NewFault<M>>
    requires { M.named machine Nobody Now }
    ensures root { IfOk result
        (λ t. M.same_root machine t.0 × IsPrefix (M.list machine) (M.list t.0)) }
    ensures zero { IfOk result
        (λ t. length (part 0 (drop (length (M.list machine)) (M.list t.0))) ≡ t.1) }
    ensures one { IfOk result
        (λ t. length (part 1 (drop (length (M.list machine)) (M.list t.0))) ≡ t.2) }
    ensures others { IfOk result
        (λ t. (n : ℕ) → 2 ≤ n → part n (drop (length (M.list machine)) (M.list t.0)) ≡ []) }
{
    let (desk, mut passes) = Desk::new(alloc, machine, 2)?;
    let last = passes.take();
    let Some(one) = last else { unreachable!() };
    let last = passes.take();
    let Some(zero) = last else { unreachable!() };
    let ((zero, a), (one, b)) = ask_both(rt, &desk, zero, one, count);
    passes.put(zero);
    passes.put(one);
    Ok((desk.close(passes), a, b))
}

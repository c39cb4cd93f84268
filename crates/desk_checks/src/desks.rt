//! What passes do at a desk.
ghost use Rattle.std.specs.Prelude.{◌≡◌, ◌≤◌, [], None};
ghost use Rattle.turn_lock.specs.Holders.{site_of};
ghost use Rattle.desk_checks.specs.Posts.{IsFree, IsBack};

use gt_base::{Actor, Instant, Keeps, Machine, Request};
use locked_history::{Asked, Desk};
use std::sync::Wait;
use turn_lock::{Pass, Passes};

/// Asks; none where nothing is answered.
pub(crate) fn hear<M: Machine, R: Wait>(
    rt: &R,
    desk: &Desk<M>,
    pass: &mut Pass<M>,
    actor: Actor,
    request: Request,
) -> Option<Asked<M>>
    requires pass { IsFree (site_of desk.now) pass.old }
    requires named { M.named desk.now.root actor request }
    ensures pass { IsBack (site_of desk.now) pass.old pass.new }
{
    match desk.ask(rt, pass, 1, actor, request) {
        Ok(told) => Some(told),
        Err(_) => None,
    }
}

/// Ticks to a minute; the number of entries up to then where now is this minute, else none.
pub(crate) fn go<M: Machine, R: Wait>(
    rt: &R,
    desk: &Desk<M>,
    pass: &mut Pass<M>,
    to: Instant,
) -> Option<u64>
    requires pass { IsFree (site_of desk.now) pass.old }
    ensures pass { IsBack (site_of desk.now) pass.old pass.new }
{
    match desk.tick(rt, pass, 1, to) {
        Ok(ticked) => {
            if ticked.now.minute() == to.minute() {
                Some(ticked.front.len())
            } else {
                None
            }
        }
        Err(_) => None,
    }
}

/// Closes a desk of two passes, whose numbers are 0 and 1; how many entries its machine keeps.
pub(crate) fn close_two<M: Machine + Drop>(
    desk: Desk<M>,
    mut passes: Passes<M>,
    zero: Pass<M>,
    one: Pass<M>,
) -> u64
    requires two { desk.passes ≡ 2 }
    requires taken { (passes.items ≡ []) × (2 ≤ passes.spare) }
    requires zero { IsFree (site_of desk) zero × (zero.number ≡ 0) }
    requires one { IsFree (site_of desk) one × (one.number ≡ 1) }
{
    passes.put(zero);
    passes.put(one);
    desk.close(passes).kept()
}

//! One request at the desk.
ghost use Rattle.turn_lock.specs.Holders.{site_of};
ghost use Rattle.locked_history.specs.Fronts.{by};
ghost use Rattle.connection_laws.specs.Turns.{IsIdle, IsReached, Reaches, AskedTurn};

use crate::server::Server;
use gt_base::{Actor, Instant, Machine, Reply, Request};
use locked_history::DeskFault;
use std::sync::Wait;
use turn_lock::Pass;

/// Ticks until now is at least the reading; not at all where it is known to be.
pub(crate) fn reach<M: Machine, R: Wait, G>(
    server: &Server<M, R, G>,
    pass: &mut Pass<M>,
    reading: Instant,
    reached: Option<Instant>,
) -> Result<(), DeskFault>
    requires idle { IsIdle (site_of server.now.desk.now) pass.old }
    requires reached { IsReached (M.legal server.now.desk.now.root)
        (M.now_of server.now.desk.now.root) pass.old.seen reached }
    ensures { Reaches (M.legal server.now.desk.now.root) (M.now_of server.now.desk.now.root)
        (by pass.old.number server.now.conn) reading pass.old pass.new result }
{
    if let Some(minute) = reached {
        if reading.minute() <= minute.minute() {
            return Ok(());
        }
    }
    for _ in server.rt.forever() {
        match server.desk.tick(server.rt, pass, server.conn, reading) {
            Ok(ticked) => {
                if reading.minute() <= ticked.now.minute() {
                    return Ok(());
                }
            }
            Err(fault) => return Err(fault),
        }
    }
    unreachable!()
}

/// Ticks until now is at least the reading, and then asks. What is known of now is told to it, and
/// what is known then is left.
pub(crate) fn ask_at<M: Machine, R: Wait, G>(
    server: &Server<M, R, G>,
    pass: &mut Pass<M>,
    reading: Instant,
    actor: Actor,
    request: Request,
    reached: &mut Option<Instant>,
) -> Result<Reply, DeskFault>
    requires idle { IsIdle (site_of server.now.desk.now) pass.old }
    requires named { M.named server.now.desk.now.root actor request }
    requires reached { IsReached (M.legal server.now.desk.now.root)
        (M.now_of server.now.desk.now.root) pass.old.seen reached.old }
    ensures reached { IsReached (M.legal server.now.desk.now.root)
        (M.now_of server.now.desk.now.root) pass.new.seen reached.new }
    ensures asked { AskedTurn (M.list server.now.desk.now.root) (M.legal server.now.desk.now.root)
        (M.now_of server.now.desk.now.root) (by pass.old.number server.now.conn) reading actor
        request pass.old pass.new result }
{
    let known = *reached;
    *reached = None;
    if let Err(fault) = reach(server, pass, reading, known) {
        return Err(fault);
    }
    let desk = server.desk;
    match desk.ask(server.rt, pass, server.conn, actor, request) {
        Ok(asked) => {
            *reached = Some(asked.at);
            Ok(asked.into_reply())
        }
        Err(fault) => Err(fault),
    }
}

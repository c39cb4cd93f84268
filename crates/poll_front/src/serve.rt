//! A link that is ready, until it is left for another: its bytes one by one, and its lines.
ghost use Rattle.std.specs.Prelude.{◌≡◌, ◌<◌, ◌≤◌, ◌+◌, OnOk, Err};
ghost use Rattle.connection_laws.specs.Desks.{IsNamedActor};
ghost use Rattle.connection_laws.specs.Turns.{CanAskFrom};
ghost use Rattle.connection_laws.specs.Rooms.{text_in, room_with, TakesBack};
ghost use Rattle.connection_laws.specs.Services.{service_at};
ghost use Rattle.poll_front.specs.Fronts.{front_spot, IsLive, CallsOn, IsReplyWritten, TellsLine, TakesUpToFeed, LinkComesTo, CanTalk, CountsOne, CanServe, StaysIdleFrom};
ghost use Rattle.poll_front.specs.declared.states.TheConstants.{MAX_READ};

use crate::bytes::{fill, write_out};
use crate::ends::PollEnd;
use crate::states::{LinkState, RunCounters, Yield};
use connection_laws::{Clerk, LineAnswer, Server, act_by, count, take_back};
use gt_base::{Actor, List, Machine};
use gt_io::{Clock, Framed, Gate, Ports};
use request_text::{LineFault, read_line};
use std::mem::replace;
use std::sync::Wait;
use turn_lock::Pass;

/// Takes the buffer of a link back from its last reply, which was written.
fn free_room(room: &mut List<u8>, last: &mut LineAnswer)
    ensures last { last.new ≡ LineAnswer.Silence }
    ensures back { TakesBack room.old room.new (text_in last.old) }
{
    take_back(room, replace(last, LineAnswer::Silence));
}

/// Tells a link what its last line is told.
fn tell<P: Ports>(
    ports: &mut P,
    link: u32,
    state: &mut LinkState,
    told: LineAnswer,
) -> Result<(), Yield>
    requires live { IsLive (P.harbour ports.old) link }
    ensures same { state.new ≡ record state.old { told = told; at = state.new.at } }
    ensures tells { TellsLine (P.harbour ports.old) (P.harbour ports.new) link told state.new.at
        result }
    ensures calls { CallsOn (P.harbour ports.old) (P.harbour ports.new) link result }
    ensures told { OnOk result (IsReplyWritten state.new) }
{
    state.told = told;
    state.at = 0;
    if let LineAnswer::Worn { draws } = state.told {
        return Err(Yield::End(PollEnd::Worn { draws }));
    }
    write_out(ports, link, state)
}

/// Takes the next byte, and acts on the line that it ends.
///
/// A line that asks needs room in the buffer of the link for the longest reply, which the first one
/// takes and later ones find. The reply goes out in it, and comes back before the next line. For
/// want of room the line is told `NoMemory` and is not accepted, and the next one tries again.
fn take_next<M: Machine, R: Wait, P: Ports, C: Clock, G: Gate>(
    server: &Server<M, R, G>,
    pass: &mut Pass<M>,
    ports: &mut P,
    clock: &mut C,
    counters: &mut RunCounters,
    state: &mut LinkState,
) -> Result<(), Yield>
    requires ready { CanAskFrom M.named M.legal M.now_of server.now.desk.now server.now.policy.now
        pass.old counters.old.reached }
    requires live { IsLive (P.harbour ports.old) server.now.conn }
    requires talk { CanTalk server.now.policy.now state.old.talk counters.old 1 }
    requires told { IsReplyWritten state.old }
    requires some { (state.old.from < state.old.upto) × (state.old.upto ≤ MAX_READ) }
    ensures steps { LinkComesTo
        (service_at M.list M.legal M.now_of server.now.desk.now server.now.policy.now)
        (front_spot pass.old (C.readings clock.old) counters.old)
        (front_spot pass.new (C.readings clock.new) counters.new) (P.harbour ports.old)
        (P.harbour ports.new) server.now.conn state.old state.new result }
    ensures ready { StaysIdleFrom M.legal M.now_of server.now.desk.now pass.old pass.new
        counters.new.reached }
    ensures actor { IsNamedActor server.now.policy.now state.new.talk.actor }
    ensures counts { CountsOne state.old.talk state.new.talk counters.old counters.new }
    ensures calls { CallsOn (P.harbour ports.old) (P.harbour ports.new) server.now.conn result }
    ensures told { OnOk result (IsReplyWritten state.new) }
    ensures one { (state.new.from ≡ state.old.from + 1) × (state.new.upto ≡ state.old.upto)
        × (state.new.left ≡ state.old.left) }
    ensures kept { room_with (text_in state.old.told) state.old.room
        ≤ room_with (text_in state.new.told) state.new.room }
{
    let byte = state.chunk[state.from];
    state.from += 1;
    match state.framer.push(byte) {
        Framed::More => Ok(()),
        Framed::Whole => {
            free_room(&mut state.room, &mut state.told);
            state.talk.calls = counters.calls;
            let said = read_line(server.policy, Actor::Nobody, false, state.framer.line());
            let mut clerk = Clerk {
                server: &*server,
                pass,
                clock,
                reached: &mut counters.reached,
                held: 0,
            };
            let told = act_by(&mut clerk, &mut state.talk, &mut state.room, said);
            counters.calls = state.talk.calls;
            count(&mut state.talk, &told);
            tell(ports, server.conn, state, told)
        }
        Framed::Long => {
            free_room(&mut state.room, &mut state.told);
            tell(ports, server.conn, state, LineAnswer::Bad(LineFault::Long))
        }
    }
}

/// Takes the bytes that wait up to a line feed, which is left.
fn take_front(state: &mut LinkState)
    requires { (state.old.from ≤ state.old.upto) × (state.old.upto ≤ MAX_READ) }
    ensures { TakesUpToFeed state.old state.new }
{
    let (some, _) = state.chunk.split_at(state.upto);
    let (_, rest) = some.split_at(state.from);
    state.from += state.framer.push_front(rest);
}

/// Serves a link that is ready: writes what is left of its last reply, acts on the bytes that wait,
/// and reads on, until there is nothing to do for it yet or it has ended.
pub(crate) fn serve_ready<M: Machine, R: Wait, P: Ports, C: Clock, G: Gate>(
    server: &Server<M, R, G>,
    pass: &mut Pass<M>,
    ports: &mut P,
    clock: &mut C,
    counters: &mut RunCounters,
    state: &mut LinkState,
) -> Yield
    requires ready { CanAskFrom M.named M.legal M.now_of server.now.desk.now server.now.policy.now
        pass.old counters.old.reached }
    requires state { CanServe server.now.policy.now (P.harbour ports.old) server.now.conn
        counters.old state.old }
    ensures steps { LinkComesTo
        (service_at M.list M.legal M.now_of server.now.desk.now server.now.policy.now)
        (front_spot pass.old (C.readings clock.old) counters.old)
        (front_spot pass.new (C.readings clock.new) counters.new) (P.harbour ports.old)
        (P.harbour ports.new) server.now.conn state.old state.new (Err result) }
    ensures ready { StaysIdleFrom M.legal M.now_of server.now.desk.now pass.old pass.new
        counters.new.reached }
    ensures calls { CallsOn (P.harbour ports.old) (P.harbour ports.new) server.now.conn
        (Err result) }
{
    if let Err(why) = write_out(ports, server.conn, state) {
        return why;
    }
    loop {
        take_front(state);
        if state.from < state.upto {
            if let Err(why) = take_next(server, pass, ports, clock, counters, state) {
                return why;
            }
        } else if state.left > 0 {
            if let Err(why) = fill(ports, server.conn, state) {
                return why;
            }
        } else {
            return Yield::End(PollEnd::Spent);
        }
    }
}

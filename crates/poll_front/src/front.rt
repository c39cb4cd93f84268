//! The links of a front: what happens next is told by the ports, and each link that is ready is
//! served until it is left for another.
ghost use Rattle.std.specs.Prelude.{◌≡◌, ◌≤◌, ◌<◌, ◌+◌, ◌++◌, ◌∷◌, [], length, vec_len, vec_capacity, OnOk};
ghost use Rattle.turn_lock.specs.Holders.{site_of};
ghost use Rattle.connection_laws.specs.Services.{service_at};
ghost use Rattle.connection_laws.specs.Turns.{IsIdle, CanAsk, CanAskFrom, StaysIdle};
ghost use Rattle.gt_io.specs.Ports.{IsOpen, IsUncalled, Finishes};
ghost use Rattle.poll_front.specs.declared.seats.LinkRow.{LinkRow};
ghost use Rattle.poll_front.specs.Fronts.{front_spot, StaysIdleFrom};
ghost use Rattle.poll_front.specs.Tables.{CanServeSeat, SeatServed, Went, Ran, IsOpenSeat, EndsSeat, AreOpenSeats, LetsGo, is_worn_end};

use crate::ends::{PollEnd, Polled};
use crate::seats::{LinkRow, fill_seat};
use crate::serve::serve_ready;
use crate::states::{LinkState, RunCounters, Yield};
use connection_laws::Server;
use gt_base::{List, MAX_LINKS, Machine, Memory};
use gt_io::{Clock, Gate, PortEvent, Ports};
use std::mem::replace;
use std::sync::Wait;
use turn_lock::Pass;

/// How many links are open at most.
pub(crate) const MAX_OPEN: usize = 1024;

/// Why a run ended.
#[derive(Clone, Copy, PartialEq, Eq)]
pub enum RunEnd {
    /// The ports have stopped.
    Stopped,
    /// The ports failed to tell what happens next.
    PortFault,
    /// 100,000 links were opened.
    Enough,
    /// The pass has drawn 2^40 turns.
    Worn,
    /// There was no memory for a further link.
    Memory,
}

/// Serves the link of a seat, which is ready, where it is open. It answers how the link ended, none
/// where it goes on or had ended before.
fn serve_seat<M: Machine, R: Wait, P: Ports, C: Clock, G: Gate>(
    server: &Server<M, R, G>,
    pass: &mut Pass<M>,
    ports: &mut P,
    clock: &mut C,
    counters: &mut RunCounters,
    spares: &mut Vec<Box<LinkState>>,
    seat: &mut LinkRow,
) -> Option<PollEnd>
    requires ready { CanAskFrom M.named M.legal M.now_of server.now.desk.now server.now.policy.now
        pass.old counters.old.reached }
    requires seat { CanServeSeat server.now.policy.now (P.harbour ports.old) server.now.conn
        counters.old seat.old }
    ensures served { SeatServed
        (service_at M.list M.legal M.now_of server.now.desk.now server.now.policy.now)
        (front_spot pass.old (C.readings clock.old) counters.old)
        (front_spot pass.new (C.readings clock.new) counters.new) (P.harbour ports.old)
        (P.harbour ports.new) server.now.conn seat.old seat.new result }
    ensures ready { StaysIdleFrom M.legal M.now_of server.now.desk.now pass.old pass.new
        counters.new.reached }
{
    let LinkRow::Open(state) = seat else {
        return None;
    };
    match serve_ready(server, pass, ports, clock, counters, state) {
        Yield::Later => None,
        Yield::End(outcome) => {
            let polled = state.polled(outcome);
            ports.finish(server.conn);
            if let LinkRow::Open(spare) = replace(seat, LinkRow::Over(polled)) {
                let _ = spares.push(spare);
            }
            Some(outcome)
        }
    }
}

/// Gives a link that was just opened its seat; lets it go at once where as many are open as may be.
fn seat_next<P: Ports>(link: u32, ports: &mut P, seats: &mut Vec<LinkRow>, busy: &mut usize)
    requires open { IsOpen (P.harbour ports.old) link }
    requires room { vec_len seats.old < vec_capacity seats.old }
    requires few { busy.old ≤ MAX_OPEN }
    ensures room { vec_capacity seats.new ≡ vec_capacity seats.old }
    ensures full { MAX_OPEN ≤ busy.old
        → Finishes (P.harbour ports.old) (P.harbour ports.new) link × (busy.new ≡ busy.old)
        × (seats.new.items
        ≡ seats.old.items
        ++ LinkRow.Over (record { asked = 0; denied = 0; outcome = PollEnd.Full })
        ∷ []) }
    ensures seated { busy.old < MAX_OPEN → (ports.new ≡ ports.old) × (busy.new ≡ busy.old + 1)
        × (seats.new.items ≡ seats.old.items ++ LinkRow.New ∷ []) }
{
    if *busy >= MAX_OPEN {
        ports.finish(link);
        seats.push_reserved(LinkRow::Over(Polled {
            asked: 0,
            denied: 0,
            outcome: PollEnd::Full,
        }));
        return;
    }
    seats.push_reserved(LinkRow::New);
    *busy += 1;
}

/// Takes the memory of the lists that grow with the links.
fn make_room(
    seats: &mut Vec<LinkRow>,
    spares: &mut Vec<Box<LinkState>>,
    ends: &mut List<Polled>,
) -> Result<(), Memory>
    ensures seats { seats.new.items ≡ seats.old.items }
    ensures ends { ends.new.items ≡ ends.old.items }
    ensures room { OnOk result
        ((MAX_LINKS ≤ vec_capacity seats.new) × (MAX_LINKS ≤ ends.new.spare)) }
{
    seats.reserve(MAX_LINKS)?;
    spares.reserve(MAX_OPEN)?;
    ends.reserve(MAX_LINKS)
}

/// How a link ended, or that it is let go now.
fn end_of<P: Ports>(link: u32, ports: &mut P, seat: &LinkRow) -> Polled
    requires { IsOpenSeat seat.now → IsOpen (P.harbour ports.old) link }
    ensures { EndsSeat (P.harbour ports.old) (P.harbour ports.new) link seat.now result }
{
    match seat {
        LinkRow::New => {
            ports.finish(link);
            Polled {
                asked: 0,
                denied: 0,
                outcome: PollEnd::Stopped,
            }
        }
        LinkRow::Open(state) => {
            ports.finish(link);
            state.polled(PollEnd::Stopped)
        }
        LinkRow::Over(polled) => *polled,
    }
}

/// Whether the pass of a link is worn.
fn is_worn(end: PollEnd) -> bool
    ensures { result ≡ is_worn_end end }
{
    matches!(end, PollEnd::Worn { .. })
}

/// Serves the links until the run ends.
fn serve_all<M: Machine, R: Wait, P: Ports, C: Clock, G: Gate>(
    server: &Server<M, R, G>,
    pass: &mut Pass<M>,
    ports: &mut P,
    clock: &mut C,
    seats: &mut Vec<LinkRow>,
    spares: &mut Vec<Box<LinkState>>,
) -> RunEnd
    requires ready { CanAsk M.named M.legal server.now.desk.now server.now.policy.now pass.old }
    requires none { seats.old.items ≡ [] }
    requires room { MAX_LINKS ≤ vec_capacity seats.old }
    requires ports { IsUncalled (P.harbour ports.old) }
    ensures went { Went
        (service_at M.list M.legal M.now_of server.now.desk.now server.now.policy.now)
        pass.old pass.new (C.readings clock.old) (C.readings clock.new) (P.harbour ports.old)
        (P.harbour ports.new) seats.new.items result }
    ensures few { length seats.new.items ≤ MAX_LINKS }
    ensures idle { StaysIdle (site_of server.now.desk.now) pass.old pass.new }
{
    let mut counters = RunCounters {
        calls: 0,
        reached: None,
    };
    let mut busy = 0;
    for _ in server.rt.forever() {
        match ports.next() {
            Ok(PortEvent::Opened(link)) => {
                seat_next(link, ports, seats, &mut busy);
                if seats.len() == MAX_LINKS {
                    return RunEnd::Enough;
                }
            }
            Ok(PortEvent::Ready(link)) => {
                let of = Server {
                    rt: server.rt,
                    alloc: server.alloc,
                    desk: server.desk,
                    policy: server.policy,
                    conn: link,
                    gate: server.gate,
                };
                let seat = &mut seats[link as usize - 1];
                if let Err(_) = fill_seat(server.alloc, spares, seat) {
                    return RunEnd::Memory;
                }
                if let Some(end) = serve_seat(
                    &of,
                    pass,
                    ports,
                    clock,
                    &mut counters,
                    spares,
                    seat,
                ) {
                    busy -= 1;
                    if is_worn(end) {
                        return RunEnd::Worn;
                    }
                }
            }
            Ok(PortEvent::Stop) => return RunEnd::Stopped,
            Err(_) => return RunEnd::PortFault,
        }
    }
    unreachable!()
}

/// Lets the links go that are open, and tells how each link ended.
fn let_go<P: Ports>(ports: &mut P, seats: &[LinkRow], ends: &mut List<Polled>)
    requires room { length seats.now ≤ ends.old.spare }
    requires none { ends.old.items ≡ [] }
    requires few { length seats.now ≤ MAX_LINKS }
    requires open { AreOpenSeats (P.harbour ports.old) 0 seats.now }
    ensures { LetsGo (P.harbour ports.old) (P.harbour ports.new) seats.now (length seats.now)
        ends.new.items }
{
    for i in 0..seats.len() {
        let polled = end_of(i as u32 + 1, ports, &seats[i]);
        ends.push(polled);
    }
}

/// Serves the links of the ports until these stop or fail, 100,000 were opened, the pass is worn,
/// or there is no memory for a further link; lets the links go that are then open; and tells how
/// each link ended, in their order. The pass is the only one of its desk. Each link is served as
/// the connection of its own number, whatever the number of the server that is handed in.
pub fn run<M: Machine, R: Wait, P: Ports, C: Clock, G: Gate>(
    server: &Server<M, R, G>,
    pass: &mut Pass<M>,
    ports: &mut P,
    clock: &mut C,
    ends: &mut List<Polled>,
) -> RunEnd
    requires ready { CanAsk M.named M.legal server.now.desk.now server.now.policy.now pass.old }
    requires none { ends.old.items ≡ [] }
    requires ports { IsUncalled (P.harbour ports.old) }
    ensures ran { Ran server.now.policy.now (M.list server.now.desk.now.root)
        (M.legal server.now.desk.now.root) (M.now_of server.now.desk.now.root) pass.old.number
        pass.old pass.new (C.readings clock.old) (C.readings clock.new) (P.harbour ports.old)
        (P.harbour ports.new) ends.new.items result }
    ensures pass { IsIdle (site_of server.now.desk.now) pass.new
        × (pass.new.number ≡ pass.old.number) }
{
    let mut seats = Vec::new(server.alloc);
    let mut spares = Vec::new(server.alloc);
    if make_room(&mut seats, &mut spares, ends).is_err() {
        return RunEnd::Memory;
    }
    let end = serve_all(server, pass, ports, clock, &mut seats, &mut spares);
    let_go(ports, &seats, ends);
    end
}

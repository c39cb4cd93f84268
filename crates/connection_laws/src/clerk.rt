//! A worker that answers the requests of a link at the desk.
ghost use Rattle.connection_laws.specs.Turns.{CanAskFrom};
ghost use Rattle.connection_laws.specs.Clerks.{WearsAt, KeepsLent, ClerkGets, rested_clerk};

use crate::acts::{decide, reply_of};
use crate::answerer::Answerer;
use crate::server::Server;
use crate::talk::LineAnswer;
use gt_base::{Actor, Instant, List, Machine, Request};
use gt_io::{Clock, Gate, MAX_HELD};
use policy_book::Policy;
use std::sync::Wait;
use turn_lock::Pass;

/// A worker that answers at the desk: it passes the gate, reads the clock, brings the history to
/// that minute and asks.
#[derive(Drop)]
pub struct Clerk<'a, M: Machine, R, C, G> {
    pub server: &'a Server<'a, M, R, G>,
    pub pass: &'a mut Pass<M>,
    pub clock: &'a mut C,
    /// A minute that the history has come to as far as the pass has seen it, where one is known.
    pub reached: &'a mut Option<Instant>,
    /// How many bytes of replies its link holds back.
    pub held: usize,
}

impl<'a, M: Machine, R: Wait, C: Clock, G: Gate> Answerer for Clerk<'a, M, R, C, G> {
    ghost named = { λ k. k.server.now.policy.now };

    ghost ready = { λ k. CanAskFrom M.named M.legal M.now_of k.server.now.desk.now
        k.server.now.policy.now k.pass.now k.reached.now };

    ghost asks = { ClerkGets M.list M.legal M.now_of C.readings };

    ghost rested = { rested_clerk };

    ghost wears = { λ k. WearsAt k.pass.now.draws };

    ghost use Rattle.std.proofs.Common.{refl, ◌∙◌};

    ghost keeps = { KeepsLent };

    ghost keeps_refl = { λ k. (refl, refl, refl, refl) };

    ghost keeps_trans = { λ i j k x y. (y.0 ∙ x.0, y.1 ∙ x.1, y.2 ∙ x.2, y.3 ∙ x.3) };

    ghost asks_keep = { λ j k actor request answer readings entries x. x.keeps };

    ghost rested_keep = { λ j k x. x };

    fn policy(&self) -> &Policy {
        self.server.policy
    }

    fn answer(
        &mut self,
        call: u64,
        actor: Actor,
        request: Request,
        room: &mut List<u8>,
    ) -> LineAnswer {
        self.server.gate.pass(self.pass.number(), call);
        let reading = self.clock.now();
        decide(
            self.server,
            self.pass,
            reading,
            actor,
            request,
            self.reached,
            room,
        )
    }

    /// Has the pass keep its turn from now on, unless its gate may wait for another worker. The link
    /// holds nothing back yet.
    fn begin_piece(&mut self) {
        if !self.server.gate.may_wait() {
            self.pass.stay();
        }
    }

    /// Gives a kept turn on where writing the reply may wait for the peer.
    fn before_reply(&mut self, told: &LineAnswer) {
        if self.held >= MAX_HELD {
            self.end_piece();
            self.begin_piece();
        }
        self.held = self.held.saturating_add(reply_of(told).len());
    }

    /// Gives a kept turn on; the link hands over what it holds back before it reads on.
    fn end_piece(&mut self) {
        self.server.desk.rest(self.pass);
        self.held = 0;
    }
}

//! A viewer that answers the requests of a link by glances.
ghost use Rattle.std.specs.Prelude.{◌≡◌};
ghost use Rattle.snapshot_readers.specs.Guides.{GuideGets};
ghost use Rattle.snapshot_readers.specs.Viewing.{CanShow};

use crate::glass::Glass;
use crate::server::ViewServer;
use connection_laws::{Answerer, LineAnswer};
use core_machine::only_looks;
use gt_base::{Actor, List, Request};
use gt_io::Gate;
use policy_book::Policy;
use request_text::{LONGEST_REPLY, put_reply, reply_fits};
use std::mem::replace;

/// A viewer that answers by its glass: it passes its gate, and answers what only looks. It records
/// of how many entries the history is that each reply is of.
#[derive(Drop)]
pub(crate) struct Guide<'a, G: Gate> {
    pub(crate) server: &'a ViewServer<'a, G>,
    pub(crate) policy: &'a Policy,
    pub(crate) glass: &'a mut Glass,
    pub(crate) lens: &'a mut List<u64>,
}

impl<'a, G: Gate> Answerer for Guide<'a, G> {
    ghost named = { λ k. k.policy.now };

    ghost ready = { λ k. CanShow k.policy.now k.glass.now };

    ghost asks = { GuideGets };

    ghost rested = { λ k. k };

    ghost wears = { λ k n. ⊥ };

    ghost use Rattle.std.proofs.Common.{refl, ◌∙◌};

    ghost keeps = { λ j k. (k.policy ≡ j.policy) × (k.glass.ghost_name ≡ j.glass.ghost_name)
        × (k.lens.ghost_name ≡ j.lens.ghost_name) };

    ghost keeps_refl = { λ k. (refl, refl, refl) };

    ghost keeps_trans = { λ i j k x y. (y.0 ∙ x.0, y.1 ∙ x.1, y.2 ∙ x.2) };

    ghost asks_keep = { λ j k actor request answer readings entries x. x.keeps };

    ghost rested_keep = { λ j k x. x };

    fn policy(&self) -> &Policy {
        self.policy
    }

    /// A request that only looks is answered by a glance, with room for the reply and its number
    /// made before. A reply goes out in the buffer, and one without room is left in its place.
    fn answer(
        &mut self,
        call: u64,
        actor: Actor,
        request: Request,
        room: &mut List<u8>,
    ) -> LineAnswer {
        self.server.gate.pass(self.server.number, call);
        if !only_looks(&request) {
            return LineAnswer::ViewOnly;
        }
        room.clear();
        if room.reserve(LONGEST_REPLY).is_err() || self.lens.reserve(1).is_err() {
            return LineAnswer::NoMemory;
        }
        match self.glass.glance(actor, request) {
            Ok(glanced) => {
                reply_fits(self.policy, &glanced.reply);
                put_reply(self.policy, &glanced.reply, room);
                self.lens.push(glanced.len);
                LineAnswer::Reply(replace(room, List::new(self.server.alloc)))
            }
            Err(_) => LineAnswer::NoMemory,
        }
    }

    /// Holds no turn.
    fn begin_piece(&mut self) {}

    /// Holds no turn.
    fn before_reply(&mut self, _told: &LineAnswer) {}

    /// Holds no turn.
    fn end_piece(&mut self) {}
}

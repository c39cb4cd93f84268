//! A board as a machine: its steps are those of its ledger. What they add is published behind what
//! may change an answer, behind the last tick of a line, and behind many other steps.

use crate::board::Board;
use core_machine::only_looks;
use gt_base::{Actor, Instant, Keeps, Machine, Reply, Request, StepFault, Who};
use std::sync::Wait;

impl<'a, R: Wait> Keeps for Board<'a, R> {
    ghost use Rattle.snapshot_readers.specs.Boards.{SameBoard, SameBoard-refl, SameBoard-sym, SameBoard-trans};

    ghost list = { λ b. b.ledger.entries };

    ghost same_root = { SameBoard };

    ghost same_refl = { SameBoard-refl };

    ghost same_sym = { SameBoard-sym };

    ghost same_trans = { SameBoard-trans };

    fn kept(&self) -> u64 {
        self.ledger.kept()
    }
}

impl<'a, R: Wait> Machine for Board<'a, R> {
    ghost use Rattle.core_machine.specs.Books.{now_after, IsNamedFor, IsNamedFor-by_root, now_after-by_root};
    ghost use Rattle.core_machine.specs.Ledgers.{IsLegalLedger, IsLegalLedger-by_root};

    ghost legal = { λ b. IsLegalLedger b.ledger };

    ghost named = { λ b. IsNamedFor b.ledger };

    ghost now_of = { λ b. now_after b.ledger };

    ghost legal_root = { λ a b h s. IsLegalLedger-by_root a.ledger b.ledger h s };

    ghost named_root = { λ a b actor request s. IsNamedFor-by_root a.ledger b.ledger actor request s };

    ghost now_root = { λ a b h s. now_after-by_root a.ledger b.ledger h s };

    fn now(&self) -> Instant {
        Machine::now(&self.ledger)
    }

    fn tick(&mut self, who: Who, upto: Instant) -> Result<Instant, StepFault> {
        let later = Machine::now(&self.ledger) < upto;
        match Machine::tick(&mut self.ledger, who, upto) {
            Ok(to) => {
                if later {
                    self.follow(to >= upto);
                }
                Ok(to)
            }
            Err(fault) => Err(fault),
        }
    }

    fn ask(&mut self, who: Who, actor: Actor, request: Request) -> Result<Reply, StepFault> {
        let still = only_looks(&request);
        match Machine::ask(&mut self.ledger, who, actor, request) {
            Ok(reply) => {
                self.follow(!still);
                Ok(reply)
            }
            Err(fault) => Err(fault),
        }
    }
}

//! A ledger as a machine: it is its book, and tells of each legal list that its moves are named.

use crate::ledgers::Ledger;
use gt_base::{Actor, Instant, Keeps, Machine, Reply, Request, StepFault, Who};

impl Keeps for Ledger {
    ghost use Rattle.core_machine.specs.Books.{SameRoot, SameRoot-refl, SameRoot-sym, SameRoot-trans};

    ghost list = { λ b. b.entries };

    ghost same_root = { SameRoot };

    ghost same_refl = { SameRoot-refl };

    ghost same_sym = { SameRoot-sym };

    ghost same_trans = { SameRoot-trans };

    fn kept(&self) -> u64 {
        Keeps::kept(&*self.book)
    }
}

impl Machine for Ledger {
    ghost use Rattle.core_machine.specs.Books.{now_after, IsNamedFor, IsNamedFor-by_root, now_after-by_root};
    ghost use Rattle.core_machine.specs.Ledgers.{IsLegalLedger, IsLegalLedger-by_root};

    ghost legal = { IsLegalLedger };

    ghost named = { IsNamedFor };

    ghost now_of = { now_after };

    ghost legal_root = { λ a b h s. IsLegalLedger-by_root a b h s };

    ghost named_root = { IsNamedFor-by_root };

    ghost now_root = { now_after-by_root };

    fn now(&self) -> Instant {
        self.keeps();
        Machine::now(&*self.book)
    }

    fn tick(&mut self, who: Who, upto: Instant) -> Result<Instant, StepFault> {
        Machine::tick(&mut *self.book, who, upto)
    }

    fn ask(&mut self, who: Who, actor: Actor, request: Request) -> Result<Reply, StepFault> {
        Machine::ask(&mut *self.book, who, actor, request)
    }
}

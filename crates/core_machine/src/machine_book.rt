//! A book as a machine whose root is its policy and its birth.

use crate::books::Book;
use gt_base::{Actor, Instant, Keeps, Machine, Reply, Request, StepFault, Who};

impl Keeps for Book {
    ghost use Rattle.core_machine.specs.Books.{SameRoot, SameRoot-refl, SameRoot-sym, SameRoot-trans};

    ghost list = { λ b. b.entries };

    ghost same_root = { SameRoot };

    ghost same_refl = { SameRoot-refl };

    ghost same_sym = { SameRoot-sym };

    ghost same_trans = { SameRoot-trans };

    fn kept(&self) -> u64 {
        self.entries().len() as u64
    }
}

impl Machine for Book {
    ghost use Rattle.core_machine.specs.Books.{now_after, IsLegalFor, IsNamedFor, IsLegalFor-by_root, IsNamedFor-by_root, now_after-by_root};

    ghost legal = { IsLegalFor };

    ghost named = { IsNamedFor };

    ghost now_of = { now_after };

    ghost legal_root = { λ a b h s. IsLegalFor-by_root a b h s };

    ghost named_root = { IsNamedFor-by_root };

    ghost now_root = { now_after-by_root };

    fn now(&self) -> Instant {
        self.keeps();
        Book::now(self)
    }

    fn tick(&mut self, who: Who, upto: Instant) -> Result<Instant, StepFault> {
        Book::tick(self, who, upto)
    }

    fn ask(&mut self, who: Who, actor: Actor, request: Request) -> Result<Reply, StepFault> {
        Book::ask(self, who, actor, request)
    }
}

//! A machine with which the desk is tried: its entries, its instant and how many users it has.
ghost use Rattle.std.specs.Prelude.{◌≡◌, [], ◌≤◌};

use crate::answers::answer;
use gt_base::{
    Actor, Entry, Instant, Keeps, MAX_STEPS, Machine, Reply, Request, Step, StepFault, Who,
};
use std::alloc::Global;
use std::marker::Model;

/// It is seen as its birth, the number of its users and its entries.
#[derive(Drop)]
pub struct CountingBook {
    birth: Instant,
    users: u32,
    instant: Instant,
    entries: Vec<Entry>,
}

impl Model for CountingBook {
    ghost use Rattle.desk_checks.specs.Tallies.{Held};

    ghost Value = { Held };

    ghost use Rattle.std.specs.Prelude.{◌≡◌, ◌≤◌, length};
    ghost use Rattle.desk_checks.specs.Tallies.{now_from, LegalFrom};
    ghost use Rattle.gt_base.specs.declared.limits.TheConstants.{MAX_STEPS};

    ghost view = { λ t. record { birth = t.birth; users = t.users; entries = t.entries.items } };

    ghost invariant = { λ t. (t.instant ≡ now_from t.birth t.entries.items)
        × LegalFrom t.birth 0 t.entries.items × (length t.entries.items ≤ MAX_STEPS) };
}

impl CountingBook {
    /// A machine with so many users and no entry.
    pub fn new(alloc: Global, birth: Instant, users: u32) -> CountingBook
        ensures { result ≡ record { birth = birth; users = users; entries = [] } }
    {
        CountingBook {
            birth,
            users,
            instant: birth,
            entries: Vec::new(alloc),
        }
    }

    /// The entries, in order.
    pub fn entries(&self) -> &[Entry]
        ensures { result.now ≡ self.now.entries }
    {
        self.entries.as_slice()
    }
}

impl Keeps for CountingBook {
    ghost use Rattle.std.specs.Prelude.{◌≡◌, refl};
    ghost use Rattle.std.proofs.Common.{sym, ◌∙◌};
    ghost use Rattle.desk_checks.specs.Tallies.{SameTallyRoot};

    ghost list = { λ t. t.entries };

    ghost same_root = { SameTallyRoot };

    fn kept(&self) -> u64 {
        self.entries.len() as u64
    }

    ghost same_refl = { λ x. (refl, refl) };

    ghost same_sym = { λ x y h. (sym h.0, sym h.1) };

    ghost same_trans = { λ x y z h k. (h.0 ∙ k.0, h.1 ∙ k.1) };
}

impl Machine for CountingBook {
    ghost use Rattle.std.specs.Prelude.{◌≡◌, ℕ, List, ◌<◌};
    ghost use Rattle.std.proofs.Common.{subst, ap};
    ghost use Rattle.gt_base.specs.declared.requests.Entry.{Entry};
    ghost use Rattle.desk_checks.specs.Tallies.{now_from, LegalFrom, IsTallied};

    ghost legal = { λ t l. LegalFrom t.birth 0 l };

    ghost named = { λ t actor request. IsTallied t.users actor };

    ghost now_of = { λ t l. now_from t.birth l };

    fn now(&self) -> Instant {
        self.instant
    }

    #[tactic(auto, using(crate::proofs::Pushes::now_push, crate::proofs::Pushes::legal_push))]
    fn tick(&mut self, who: Who, upto: Instant) -> Result<Instant, StepFault> {
        if upto.minute() <= self.instant.minute() {
            return Ok(self.instant);
        }
        if self.entries.len() >= MAX_STEPS {
            return Err(StepFault::StepsFull);
        }
        if self.entries.reserve(1).is_err() {
            return Err(StepFault::Memory);
        }
        self.entries.push_reserved(Entry {
            who,
            what: Step::Tick { upto, to: upto },
        });
        self.instant = upto;
        Ok(upto)
    }

    #[tactic(auto, using(crate::proofs::Pushes::now_push, crate::proofs::Pushes::legal_push))]
    fn ask(&mut self, who: Who, actor: Actor, request: Request) -> Result<Reply, StepFault> {
        let held = self.entries.len();
        if held >= MAX_STEPS {
            return Err(StepFault::StepsFull);
        }
        if self.entries.reserve(1).is_err() {
            return Err(StepFault::Memory);
        }
        let reply = answer(self.instant, held, &request);
        let kept = answer(self.instant, held, &request);
        self.entries.push_reserved(Entry {
            who,
            what: Step::Ask {
                actor,
                request,
                reply: kept,
            },
        });
        Ok(reply)
    }

    ghost legal_root = { λ x y l same legal. subst (λ (b : ℕ). LegalFrom b 0 l) same.0 legal };

    ghost named_root = { λ x y a r same named. subst (λ (u : ℕ). IsTallied u a) same.1 named };

    ghost now_root = { λ x y l same. ap (λ (b : ℕ). now_from b l) same.0 };
}

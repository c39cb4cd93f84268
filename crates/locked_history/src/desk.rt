//! The desk: many threads tick and ask one machine, each in a turn of its own.
ghost use Rattle.std.specs.Prelude.{◌≡◌, ◌⊎◌, ◌+◌, ◌^◌, ◌<◌, ◌≤◌, ◌++◌, [], ◌∷◌, ℕ, List, length, drop, IfOk, IfErr, OnErr, None, Err};
ghost use mathlib.Core.List.{IsPrefix};
ghost use Rattle.gt_base.specs.Machines.{ticked, asked};
ghost use Rattle.gt_base.specs.declared.requests.Entry.{Entry};
ghost use Rattle.gt_base.specs.declared.limits.TheConstants.{MAX_STEPS};
ghost use Rattle.turn_lock.specs.Turns.{Each, part};
ghost use Rattle.turn_lock.specs.Holders.{site_of, rested, newcomers, AreIdle, HasNumber, IsToldBy};
ghost use Rattle.locked_history.specs.Fronts.{by, Lands, Refuses};

use crate::faults::DeskFault;
use gt_base::{Actor, Instant, Keeps, Machine, Reply, Request, Who};
use std::alloc::Global;
use std::marker::Model;
use std::sync::Wait;
use turn_lock::{Front, NewFault, Pass, Passes, TurnLock};

/// A machine that threads share, each with a pass of its own. It is seen as its lock.
pub struct Desk<M: Machine> {
    lock: TurnLock<M>,
}

impl<M: Machine> Model for Desk<M> {
    ghost use Rattle.turn_lock.specs.Holders.{Lock};

    ghost Value = { Lock M };

    ghost view = { λ d. d.lock };
}

/// What a tick came to: the instant, and the history at its end.
pub struct Ticked<M: Keeps> {
    pub now: Instant,
    pub front: Front<M>,
}

/// What was answered, at which instant, and the history that ends with it.
pub struct Asked<M: Keeps> {
    pub reply: Reply,
    pub at: Instant,
    pub front: Front<M>,
}

impl<M: Machine> Desk<M> {
    /// A desk over the machine, with 1 to 8 passes, pass w with number w. An error is want of
    /// memory alone, and hands the machine back.
    pub fn new(alloc: Global, machine: M, passes: u32) -> Result<(Desk<M>, Passes<M>), NewFault<M>>
        requires { (1 ≤ passes) × (passes ≤ 8) }
        ensures desk { IfOk result (λ t. (t.0.root ≡ machine) × (t.0.passes ≡ passes)) }
        ensures passes { IfOk result (λ t. t.1.items ≡ newcomers t.0 (M.list machine) 0 passes) }
        ensures err { IfErr result (λ fault. fault.value ≡ machine) }
    {
        let (lock, passes) = TurnLock::new(alloc, machine, passes)?;
        Ok((Desk { lock }, passes))
    }

    /// Waits for a turn and asks, in one step of the history, whose own reply is answered. After an
    /// error the history has no entry of this call, and the pass at most knows more of it.
    pub fn ask<R: Wait>(
        &self,
        rt: &R,
        pass: &mut Pass<M>,
        conn: u32,
        actor: Actor,
        request: Request,
    ) -> Result<Asked<M>, DeskFault>
        requires pass { (pass.old.site ≡ site_of self.now) × (pass.old.turn ≡ None) }
        requires named { M.named self.now.root actor request }
        ensures ok { IfOk result
            (λ a. Lands (M.list self.now.root) pass.old pass.new a.front
            (asked (by pass.old.number conn) actor request a.reply ∷ [])) }
        ensures last { IfOk result
            (λ a. (before : List Entry)
            × (a.front
            ≡ before ++ asked (by pass.old.number conn) actor request a.reply ∷ [])) }
        ensures legal { IfOk result
            (λ a. M.legal self.now.root a.front × (length a.front ≤ MAX_STEPS)
            × (a.at ≡ M.now_of self.now.root a.front)) }
        ensures refused { OnErr result (Refuses pass.old pass.new) }
        ensures full { result ≡ Err DeskFault.StepsFull
            → (length pass.new.seen ≡ MAX_STEPS) × (pass.old.draws < 2 ^ 40)
            × (pass.new.draws ≡ pass.old.draws + 1) }
        ensures worn { (n : ℕ) → result ≡ Err (DeskFault.Worn n)
            → (n ≡ 2 ^ 40) × (pass.old.draws ≡ 2 ^ 40) × (pass.new ≡ pass.old) }
    {
        let mut machine = match self.lock.turn(rt, pass) {
            Ok(machine) => machine,
            Err(worn) => return Err(worn.into()),
        };
        // `now` promises that the list is legal and not too long.
        let _ = machine.now();
        let who = Who {
            worker: pass.number(),
            conn,
        };
        match machine.ask(who, actor, request) {
            Ok(reply) => {
                self.lock.step(pass, &machine);
                let at = machine.now();
                let front = self.lock.leave(pass, machine);
                Ok(Asked { reply, at, front })
            }
            Err(fault) => {
                let _ = self.lock.leave(pass, machine);
                Err(fault.into())
            }
        }
    }

    /// Waits for a turn and ticks once, up to the bound at most. A bound that is not after now adds
    /// no entry. After an error the history has no entry of this call, and the pass at most knows
    /// more of it.
    pub fn tick<R: Wait>(
        &self,
        rt: &R,
        pass: &mut Pass<M>,
        conn: u32,
        upto: Instant,
    ) -> Result<Ticked<M>, DeskFault>
        requires pass { (pass.old.site ≡ site_of self.now) × (pass.old.turn ≡ None) }
        ensures ok { IfOk result
            (λ t. ((upto ≤ t.now) × Lands (M.list self.now.root) pass.old pass.new t.front [])
            ⊎ Lands (M.list self.now.root) pass.old pass.new t.front
            (ticked (by pass.old.number conn) upto t.now ∷ [])) }
        ensures last { IfOk result
            (λ t. ((upto ≤ t.now) × (pass.new.own ≡ pass.old.own))
            ⊎ ((before : List Entry)
            × (t.front ≡ before ++ ticked (by pass.old.number conn) upto t.now ∷ []))) }
        ensures legal { IfOk result
            (λ t. M.legal self.now.root t.front × (length t.front ≤ MAX_STEPS)
            × (t.now ≡ M.now_of self.now.root t.front)) }
        ensures refused { OnErr result (Refuses pass.old pass.new) }
        ensures full { result ≡ Err DeskFault.StepsFull
            → (length pass.new.seen ≡ MAX_STEPS) × (M.now_of self.now.root pass.new.seen < upto)
            × (pass.old.draws < 2 ^ 40) × (pass.new.draws ≡ pass.old.draws + 1) }
        ensures worn { (n : ℕ) → result ≡ Err (DeskFault.Worn n)
            → (n ≡ 2 ^ 40) × (pass.old.draws ≡ 2 ^ 40) × (pass.new ≡ pass.old) }
    {
        let mut machine = match self.lock.turn(rt, pass) {
            Ok(machine) => machine,
            Err(worn) => return Err(worn.into()),
        };
        let before = machine.now();
        let who = Who {
            worker: pass.number(),
            conn,
        };
        match machine.tick(who, upto) {
            Ok(_) => {
                if before.minute() < upto.minute() {
                    self.lock.step(pass, &machine);
                }
                let now = machine.now();
                let front = self.lock.leave(pass, machine);
                Ok(Ticked { now, front })
            }
            Err(fault) => {
                let _ = self.lock.leave(pass, machine);
                Err(fault.into())
            }
        }
    }

    /// Gives the turn on where the pass has kept it since its last call, and has it keep none from
    /// now on. A pass that stays is to rest before its thread waits for anything but the desk.
    pub fn rest(&self, pass: &mut Pass<M>)
        requires pass { (pass.old.site ≡ site_of self.now) × (pass.old.turn ≡ None) }
        ensures { pass.new ≡ rested pass.old }
    {
        self.lock.rest(pass);
    }

    /// Ends the desk, once every pass is back, and answers the machine.
    pub fn close(self, passes: Passes<M>) -> M
        requires idle { AreIdle (site_of self) passes.items }
        requires all { (n : ℕ) → n < self.passes → HasNumber n passes.items }
        ensures root { M.same_root self.root result }
        ensures first { IsPrefix (M.list self.root) (M.list result) }
        ensures each { Each (IsToldBy (M.list self.root) (M.list result)) passes.items }
        ensures others { (n : ℕ) → self.passes ≤ n
            → part n (drop (length (M.list self.root)) (M.list result)) ≡ [] }
    {
        let Self { lock } = self;
        lock.close(passes)
    }
}

impl<M: Keeps> Drop for Ticked<M> {
    fn drop(self) {
        let Self { now: _, front: _ } = self;
    }
}

impl<M: Keeps> Asked<M> {
    /// The reply alone.
    pub fn into_reply(self) -> Reply
        ensures { result ≡ self.reply }
    {
        let Self {
            reply,
            at: _,
            front: _,
        } = self;
        reply
    }
}

impl<M: Keeps> Drop for Asked<M> {
    fn drop(self) {
        let Self {
            reply: _,
            at: _,
            front: _,
        } = self;
    }
}

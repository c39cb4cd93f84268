//! The book: a legal history of a safe policy with its execution model, and the calls that tick,
//! ask and show it.
ghost use Rattle.std.specs.Prelude.{◌≡◌, ◌<◌, ◌≤◌, ◌⊎◌, OnErr, IfOk, IfErr, OnOk, [], Ok, Err, true, length};
ghost use Rattle.dependency_graph.specs.Levelled.{IsLevelled};
ghost use Rattle.gtrbac_model.specs.Safety.{IsSafe};
ghost use Rattle.session_table.specs.Tables.{NotBefore, table_of};
ghost use Rattle.time_engine.specs.Histories.{Follows};
ghost use Rattle.time_engine.specs.Traces.{AreSome, Ascends};
ghost use Rattle.core_machine.specs.Books.{IsBook, now_in, model_in, reply_in, IsReplyAmongLooks, HasBases, HasOnlyModel, IsLegalBook, HasWaiting, IsNamedFor, IsTableIn, Ticks, Asks};
ghost use Rattle.history_laws.specs.Looks.{is_look};
ghost use Rattle.core_machine.specs.Steps.{as_step};

use crate::asking::answer;
use crate::looking::look;
use crate::prepared::Prepared;
use crate::states::State;
use crate::ticking::go_on;
use gt_base::{Actor, Entry, Instant, List, MAX_STEPS, Memory, Reply, Request, StepFault, Who};
use policy_book::Policy;
use policy_safety::Safe;
use session_table::Sessions;
use std::alloc::Global;
use std::marker::Model;
use time_engine::{Ground, GroundFault, Timeline, Trace};

/// Want of memory for a book, with the policy handed back.
#[derive(Drop)]
pub struct BookMemory {
    pub safe: Safe,
}

/// A history of a policy since its birth. It is seen as the policy with its names, the birth, the
/// entries and the trace; in each book the history is legal with the trace as its execution model.
pub struct Book {
    state: State,
}

impl Drop for Book {
    fn drop(self) {
        let Book { state: _ } = self;
    }
}

impl Model for Book {
    ghost use Rattle.core_machine.specs.Books.{BookView, book_code};

    ghost Value = { BookView };

    ghost coded = { book_code };

    ghost use Rattle.core_machine.specs.Coherent.{IsCoherent, view_of};

    ghost view = { λ b. view_of b.state };

    ghost invariant = { λ b. IsCoherent b.state };
}

impl Book {
    /// The book of a policy at its birth, with nothing in its history. A refusal, for want of
    /// memory alone, hands the policy back.
    pub fn new(alloc: Global, safe: Safe, birth: Instant) -> Result<Book, BookMemory>
        ensures root { IfOk result (λ b. (b.named ≡ safe) × (b.birth ≡ birth)) }
        ensures empty { IfOk result (λ b. (b.entries ≡ []) × (b.trace ≡ [])) }
        ensures handed_back { IfErr result (λ e. e.safe ≡ safe) }
    {
        safe.keeps();
        match grounded(alloc, safe) {
            Ok(ground) => Book::on(alloc, ground, birth),
            Err(safe) => Err(BookMemory { safe }),
        }
    }

    /// The book of a safe policy by its ground.
    fn on(alloc: Global, ground: Ground, birth: Instant) -> Result<Book, BookMemory>
        requires { IsSafe ground.policy.triggers }
        ensures root { IfOk result (λ b. (b.named ≡ ground) × (b.birth ≡ birth)) }
        ensures empty { IfOk result (λ b. (b.entries ≡ []) × (b.trace ≡ [])) }
        ensures handed_back { IfErr result (λ e. e.safe ≡ ground) }
    {
        ground.policy().keeps();
        let Ok(line) = Timeline::new(alloc, &ground, birth) else {
            return Err(BookMemory {
                safe: safe_again(ground),
            });
        };
        match Prepared::new(alloc, ground) {
            Ok(ground) => Ok(Book {
                state: State {
                    alloc,
                    ground,
                    birth,
                    line,
                    table: Sessions::new(alloc),
                    entries: List::new(alloc),
                },
            }),
            Err(ground) => Err(BookMemory {
                safe: safe_again(ground),
            }),
        }
    }

    /// The instant of the history: where its last tick went, or the birth.
    pub fn now(&self) -> Instant
        ensures { result ≡ now_in self.now }
    {
        self.state.line.now()
    }

    /// The birth instant.
    pub fn birth(&self) -> Instant
        ensures { result ≡ self.now.birth }
    {
        self.state.birth
    }

    /// What every book keeps. Its entries are legal, with the trace as their model, and no other
    /// list of sets is one; each is named for the policy, and there are at most 1,000,000. The
    /// policy is safe.
    pub fn keeps(&self)
        ensures kept { IsBook self.now }
        ensures only { HasOnlyModel self.now }
        ensures safe { IsSafe self.now.named.policy.triggers }
    {
        self.state.ground.policy().keeps();
        self.state.birth.keeps();
    }

    /// The policy.
    pub fn policy(&self) -> &Policy
        ensures value { result.now ≡ self.now.named }
    {
        self.state.ground.policy()
    }

    /// The entries.
    pub fn entries(&self) -> &List<Entry>
        ensures value { result.now.items ≡ self.now.entries }
    {
        &self.state.entries
    }

    /// The nonempty sets of the run by ascending instant, each with its instant and the base of
    /// that instant. At each other minute nothing happened.
    pub fn trace(&self) -> &Trace
        ensures value { result.now.items ≡ self.now.trace }
        ensures bases { HasBases self.now.named.policy self.now.birth (model_in self.now)
            self.now.entries self.now.trace }
        ensures ascends { Ascends self.now.birth self.now.trace }
        ensures some { AreSome self.now.trace }
    {
        self.state.line.keeps();
        self.state.line.trace()
    }

    /// The policy with what was made of it for its timelines.
    pub fn ground(&self) -> &Ground
        ensures value { result.now ≡ self.now.named }
    {
        self.state.ground.ground()
    }

    /// The timeline of now, which follows the history, with the signals that wait for the next
    /// minute.
    pub fn timeline(&self) -> &Timeline
        ensures trace { result.now.line.trace ≡ self.now.trace }
        ensures follows { Follows self.now.named.policy self.now.birth self.now.entries
            (model_in self.now) result.now.line }
        ensures waiting { HasWaiting self.now result.now.line }
    {
        &self.state.line
    }

    /// The sessions of now, charged up to no later instant.
    pub fn sessions(&self) -> &Sessions
        ensures table { IsTableIn self.now (table_of result.now) }
        ensures charged { NotBefore result.now.charged_to (now_in self.now) }
    {
        &self.state.table
    }

    /// Goes on to the least instant after now and up to the bound at which something is raised or
    /// an activation ends, or to the bound where there is none, and adds one entry. A bound that is
    /// not after now changes nothing. It takes its memory first: a refused tick leaves the book as
    /// it was. `StepsFull` comes exactly where the bound is after now and 1,000,000 entries are
    /// held.
    pub fn tick(&mut self, who: Who, upto: Instant) -> Result<Instant, StepFault>
        ensures ok { IfOk result (λ to. Ticks self.old who upto to self.new) }
        ensures legal { IsLegalBook self.new }
        ensures err { OnErr result (self.new ≡ self.old) }
        ensures full { result ≡ Err StepFault.StepsFull
            → (now_in self.old < upto) × (length self.old.entries ≡ MAX_STEPS) }
        ensures room { OnOk result
            ((upto ≤ now_in self.old) ⊎ (length self.old.entries < MAX_STEPS)) }
    {
        let now = self.state.line.now();
        if upto <= now {
            return Ok(now);
        }
        if self.state.entries.len() >= MAX_STEPS {
            return Err(StepFault::StepsFull);
        }
        or_memory(go_on(&mut self.state, who, upto))
    }

    /// Answers a request at now, and adds one entry with the reply. It takes its memory first: a
    /// refused step leaves the book as it was. `StepsFull` comes exactly where 1,000,000 entries
    /// are held.
    pub fn ask(&mut self, who: Who, actor: Actor, request: Request) -> Result<Reply, StepFault>
        requires { IsNamedFor self.old actor request }
        ensures ok { IfOk result (λ reply. Asks self.old who actor request reply self.new) }
        ensures legal { IsLegalBook self.new }
        ensures err { OnErr result (self.new ≡ self.old) }
        ensures full { result ≡ Err StepFault.StepsFull → length self.old.entries ≡ MAX_STEPS }
        ensures room { OnOk result (length self.old.entries < MAX_STEPS) }
    {
        if self.state.entries.len() >= MAX_STEPS {
            return Err(StepFault::StepsFull);
        }
        or_memory(answer(&mut self.state, who, actor, request))
    }

    /// Answers a request that only looks, as at now, without an entry. It gets the same at each
    /// history whose entries are the book's but for those that only look. For want of memory it may
    /// refuse.
    pub fn peek(&self, actor: Actor, request: Request) -> Result<Reply, Memory>
        requires { is_look request ≡ true }
        ensures now { IfOk result (λ reply. reply ≡ reply_in self.now actor request) }
        ensures alike { IfOk result (λ reply. IsReplyAmongLooks self.now actor request reply) }
    {
        self.keeps();
        look(&self.state, actor, &request)
    }
}

/// The ground of a safe policy, or the policy for want of memory.
fn grounded(alloc: Global, safe: Safe) -> Result<Ground, Safe>
    ensures ok { IfOk result (λ g. g ≡ safe) }
    ensures err { IfErr result (λ s. s ≡ safe) }
{
    let (policy, graph, strata) = safe.into_parts();
    match Ground::new(alloc, policy, graph, strata) {
        Ok(ground) => Ok(ground),
        Err(fault) => Err(safe_of(fault)),
    }
}

/// The safe policy of a ground that was not made.
fn safe_of(fault: GroundFault) -> Safe
    requires { IsLevelled fault.policy.policy.triggers fault.graph fault.strata }
    ensures { result ≡ fault.policy }
{
    let GroundFault {
        policy,
        graph,
        strata,
    } = fault;
    Safe::from_parts(policy, graph, strata)
}

/// The safe policy of a ground.
fn safe_again(ground: Ground) -> Safe
    ensures { result ≡ ground }
{
    let (policy, graph, strata) = ground.into_parts();
    Safe::from_parts(policy, graph, strata)
}

/// Want of memory as the fault of a step.
fn or_memory<T>(answer: Result<T, Memory>) -> Result<T, StepFault>
    ensures { result ≡ as_step answer }
{
    match answer {
        Ok(value) => Ok(value),
        Err(_) => Err(StepFault::Memory),
    }
}

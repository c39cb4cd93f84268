//! Entries of answers, and events that are queued.
ghost use Rattle.std.specs.Prelude.{◌≡◌, ◌<◌, ◌≤◌, ◌+◌, ◌++◌, ◌∷◌, [], true, length, OnOk, OnErr};
ghost use Rattle.gt_base.specs.Machines.{asked};
ghost use Rattle.gt_base.specs.declared.events.UserId.{UserId};
ghost use Rattle.gt_base.specs.declared.requests.Actor.TheVariants.{User};
ghost use Rattle.gt_base.specs.declared.requests.Request.TheVariants.{Raise};
ghost use Rattle.gtrbac_model.specs.Reply.{is_admin};
ghost use Rattle.core_machine.specs.Books.{Asks, reply_in};
ghost use Rattle.core_machine.specs.Coherent.{IsCoherent, IsReady, Same, view_of};
ghost use Rattle.core_machine.specs.Steps.{IsStep, IsStill, MayAsk, with_signals};

use crate::states::State;
use gt_base::{
    Actor, Entry, List, Memory, Prioritised, Refusal, Reply, Request, Signal, Step, Who,
};
use policy_book::Policy;
use std::alloc::AllocError;
use time_engine::{RequestFault, Timeline};

/// Adds the entry of a request with the reply that it gets at now, where it changes nothing else.
/// For want of memory the book is as it was.
pub(crate) fn note(
    s: &mut State,
    who: Who,
    actor: Actor,
    request: Request,
    reply: Reply,
) -> Result<(), Memory>
    requires ready { IsReady s.old actor request }
    requires told { reply ≡ reply_in (view_of s.old) actor request }
    requires still { IsStill actor request reply }
    ensures kept { IsCoherent s.new }
    ensures ok { OnOk result (Asks (view_of s.old) who actor request reply (view_of s.new)) }
    ensures err { OnErr result (view_of s.new ≡ view_of s.old) }
{
    s.line.keeps();
    s.entries.reserve(1)?;
    add_entry(&mut s.entries, who, actor, request, reply);
    Ok(())
}

/// Notes the reply, and gives it back.
pub(crate) fn tell(
    s: &mut State,
    who: Who,
    actor: Actor,
    request: Request,
    reply: Reply,
) -> Result<Reply, Memory>
    requires ready { IsReady s.old actor request }
    requires told { reply ≡ reply_in (view_of s.old) actor request }
    requires still { IsStill actor request reply }
    ensures { IsStep s.old s.new who actor request result }
{
    let answer = reply.copied()?;
    note(s, who, actor, request, reply)?;
    Ok(answer)
}

/// Adds the entry of an answered request, into room that was made before.
pub(crate) fn add_entry(
    entries: &mut List<Entry>,
    who: Who,
    actor: Actor,
    request: Request,
    reply: Reply,
)
    requires { 1 ≤ entries.old.spare }
    ensures { entries.new.items ≡ entries.old.items ++ asked who actor request reply ∷ [] }
{
    let what = Step::Ask {
        actor,
        request,
        reply,
    };
    entries.push(Entry { who, what });
}

/// Makes room for so many signals, and for an entry.
pub(crate) fn make_room(s: &mut State, signals: usize) -> Result<(), Memory>
    ensures same { Same s.old s.new }
    ensures room { OnOk result ((1 ≤ s.new.entries.spare) × (signals ≤ s.new.line.spare)) }
    ensures plans { (s.new.line.room ≡ s.old.line.room) × (s.new.table ≡ s.old.table) }
{
    s.line.reserve(signals)?;
    s.entries.reserve(1)
}

/// Adds the signals, into room that was made before.
pub(crate) fn add_signals(line: &mut Timeline, signals: &[Signal])
    requires { length signals.now ≤ line.old.spare }
    ensures { line.new.line ≡ with_signals line.old.line signals.now }
{
    for x in signals {
        line.signal(*x);
    }
}

/// Whether the actor may ask for events.
fn is_admin(policy: &Policy, actor: Actor) -> bool
    requires { (u : UserId) → actor ≡ User u → u.0 < policy.now.policy.users }
    ensures { result ≡ is_admin policy.now.policy actor }
{
    match actor {
        Actor::User(user) => policy.is_admin(user),
        Actor::Operator => true,
        Actor::Nobody => false,
    }
}

/// Queues an event for the minute after now and the delay, for an administrator or the operator.
pub(crate) fn raise(
    s: &mut State,
    who: Who,
    actor: Actor,
    head: Prioritised,
    delay: u32,
) -> Result<Reply, Memory>
    requires { MayAsk s.old actor (Raise head delay) }
    ensures { IsStep s.old s.new who actor (Raise head delay) result }
{
    if is_admin(s.ground.policy(), actor) {
        make_room(s, 0)?;
        queue(s, who, actor, head, delay)
    } else {
        let reply = Reply::Refused(Refusal::NotAdmin);
        tell(s, who, actor, Request::Raise { head, delay }, reply)
    }
}

/// Queues the event, with room for the entry made before.
fn queue(
    s: &mut State,
    who: Who,
    actor: Actor,
    head: Prioritised,
    delay: u32,
) -> Result<Reply, Memory>
    requires asks { MayAsk s.old actor (Raise head delay) }
    requires admin { is_admin s.old.ground.policy actor ≡ true }
    requires room { 1 ≤ s.old.entries.spare }
    ensures { IsStep s.old s.new who actor (Raise head delay) result }
{
    s.line.keeps();
    let event = head;
    let request = Request::Raise { head, delay };
    match s.line.request(event, delay) {
        Ok(due) => {
            add_entry(&mut s.entries, who, actor, request, Reply::Queued(due));
            Ok(Reply::Queued(due))
        }
        Err(RequestFault::Beyond { due }) => {
            let reply = Reply::Refused(Refusal::Beyond { due });
            tell(s, who, actor, request, reply)
        }
        Err(RequestFault::Memory) => Err(AllocError),
    }
}

//! Who answers the requests of a link, and what one of its lines comes to.
ghost use Rattle.std.specs.Prelude.{◌≡◌, ℕ, false, List};
ghost use Rattle.gt_base.specs.declared.requests.Actor.{Actor};
ghost use Rattle.gt_base.specs.declared.requests.Actor.TheVariants.{Nobody};
ghost use Rattle.gt_base.specs.declared.requests.Request.{Request};
ghost use Rattle.gt_base.specs.declared.requests.Entry.{Entry};
ghost use Rattle.gtrbac_model.specs.History.{IsNamedWish, ask};
ghost use Rattle.policy_words.specs.Naming.{NamedPolicy};
ghost use Rattle.request_text.specs.Phrases.{read_line};
ghost use Rattle.connection_laws.specs.Lines.{Answer};
ghost use Rattle.connection_laws.specs.Desks.{IsNamedActor};
ghost use Rattle.connection_laws.specs.Acting.{HasRoom};
ghost use Rattle.connection_laws.specs.Rooms.{text_in, LendsRoom};
ghost use Rattle.connection_laws.specs.Attending.{IsRead, IsPaced, AnswersOne, ActsBy};

use crate::talk::{LineAnswer, Talk};
use gt_base::{Actor, List, Request};
use policy_book::Policy;
use request_text::{Line, LineFault};

/// Who answers the requests of a link, one after the other: a worker at the desk, or a viewer at
/// its glass.
pub trait Answerer {
    /// The policy whose names are read.
    ghost named: { Self → NamedPolicy };

    /// It may be asked. This holds between two requests.
    ghost ready: { Self → Type 0 };

    /// What one request makes of it at rest, from before to after: by whom, which, what it got,
    /// with these readings of a clock and as these entries.
    ghost asks: { Self → Self → Actor → Request → Answer → List ℕ → List Entry → Type 0 };

    /// It, at rest: it keeps no turn of the lock, and is to keep none.
    ghost rested: { Self → Self };

    /// Its pass is worn, after so many draws.
    ghost wears: { Self → ℕ → Type 0 };

    /// It keeps what it was lent; so it does by each request.
    ghost keeps: { Self → Self → Type 0 };

    ghost keeps_refl: { (a : Self) → keeps a a };

    ghost keeps_trans: { (a b c : Self) → keeps a b → keeps b c → keeps a c };

    ghost asks_keep: { (a b : Self) (actor : Actor) (request : Request) (answer : Answer)
        (readings : List ℕ) (entries : List Entry)
        → asks a b actor request answer readings entries → keeps a b };

    ghost rested_keep: { (a b : Self) → keeps (rested a) (rested b) → keeps a b };

    /// The policy whose names are read.
    fn policy(&self) -> &Policy
        ensures { result.now ≡ named self.now };

    /// Answers one request, the last of so many calls. A reply goes out in the buffer, which has
    /// then taken the room along.
    fn answer(
        &mut self,
        call: u64,
        actor: Actor,
        request: Request,
        room: &mut List<u8>,
    ) -> LineAnswer
        requires asked { ready self.old × IsNamedWish (named self.old).policy (ask actor request) }
        ensures ready { ready self.new }
        ensures named { named self.new ≡ named self.old }
        ensures answers { AnswersOne (named self.old) (wears (rested self.new))
            (asks (rested self.old) (rested self.new) actor request) result }
        ensures lends { LendsRoom room.old room.new (text_in result) };

    /// A piece of lines begins, whose replies go out one after the other.
    fn begin_piece(&mut self)
        requires { ready self.old }
        ensures paced { IsPaced ready named rested self.old self.new };

    /// This is written next, which may wait for the peer.
    fn before_reply(&mut self, told: &LineAnswer)
        requires { ready self.old }
        ensures paced { IsPaced ready named rested self.old self.new };

    /// The piece is at its end, and the peer is waited for.
    fn end_piece(&mut self)
        requires { ready self.old }
        ensures paced { IsPaced ready named rested self.old self.new }
        ensures rests { rested self.new ≡ self.new };
}

/// Acts on a line by what it says, but for its reply: a line that asks is answered.
pub fn act_by<A: Answerer>(
    answerer: &mut A,
    talk: &mut Talk,
    room: &mut List<u8>,
    said: Result<Line, LineFault>,
) -> LineAnswer
    requires read { IsRead (A.named answerer.old) said }
    requires ready { A.ready answerer.old }
    requires actor { IsNamedActor (A.named answerer.old) talk.old.actor }
    requires room { HasRoom talk.old 1 }
    ensures keeps { A.keeps answerer.old answerer.new }
    ensures ready { A.ready answerer.new }
    ensures named { A.named answerer.new ≡ A.named answerer.old }
    ensures acts { (line : _) → read_line (A.named answerer.old) Nobody false line ≡ said
        → ActsBy (A.named answerer.old) A.asks (A.wears (A.rested answerer.new))
        (A.rested answerer.old) (A.rested answerer.new) talk.old talk.new line result }
    ensures lends { LendsRoom room.old room.new (text_in result) }
{
    match said {
        Ok(Line::Ask(request)) => {
            talk.calls += 1;
            answerer.answer(talk.calls, talk.actor, request, room)
        }
        Ok(Line::Be(actor)) => {
            talk.actor = actor;
            LineAnswer::Agreed
        }
        Ok(Line::Silent) => LineAnswer::Silence,
        Ok(Line::At(_)) => unreachable!(),
        Err(fault) => LineAnswer::Bad(fault),
    }
}

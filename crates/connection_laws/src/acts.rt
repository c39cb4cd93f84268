//! What one line comes to, but for the writing of its reply.
ghost use Rattle.std.specs.Prelude.{◌≡◌, ◌++◌, codes};
ghost use Rattle.turn_lock.specs.Holders.{site_of};
ghost use Rattle.locked_history.specs.Fronts.{by};
ghost use Rattle.policy_words.specs.Naming.{NamedPolicy};
ghost use Rattle.request_text.specs.Replies.{fault_word};
ghost use Rattle.connection_laws.specs.Lines.{Answer};
ghost use Rattle.connection_laws.specs.Desks.{RepliesCanBeTold};
ghost use Rattle.connection_laws.specs.Services.{service_at};
ghost use Rattle.connection_laws.specs.Turns.{IsIdle, IsReached};
ghost use Rattle.connection_laws.specs.Acting.{IsTold, Decides, counted_talk, CanCount, told_bytes};
ghost use Rattle.connection_laws.specs.Rooms.{text_in, LendsRoom, TakesBack};

use crate::asks::ask_at;
use crate::server::Server;
use crate::talk::{LineAnswer, Talk};
use gt_base::{Actor, Instant, List, Machine, Request};
use locked_history::DeskFault;
use request_text::{LONGEST_REPLY, LineFault, put_reply, reply_fits};
use std::mem::replace;
use std::sync::Wait;
use turn_lock::Pass;

/// The reply to a line that says nothing.
fn fault_reply(fault: LineFault) -> &'static [u8]
    ensures { result.now ≡ codes "bad " ++ fault_word fault ++ codes "\n" }
{
    match fault {
        LineFault::Long => b"bad long\n",
        LineFault::Syntax => b"bad syntax\n",
        LineFault::Name => b"bad name\n",
    }
}

/// The bytes of what a line is told.
pub fn reply_of(told: &LineAnswer) -> &[u8]
    ensures { result.now ≡ told_bytes told.now }
{
    match told {
        LineAnswer::Silence => b"",
        LineAnswer::Agreed => b"ok\n",
        LineAnswer::Bad(fault) => fault_reply(*fault),
        LineAnswer::Reply(text) => text.as_slice(),
        LineAnswer::NoMemory => b"no memory\n",
        LineAnswer::NoSteps => b"no steps\n",
        LineAnswer::ViewOnly => b"view only\n",
        LineAnswer::Worn { draws: _ } => b"",
    }
}

/// Counts what a line got.
pub fn count(talk: &mut Talk, told: &LineAnswer)
    requires { CanCount talk.old }
    ensures { (np : NamedPolicy) (answer : Answer) → IsTold np told.now answer
        → talk.new ≡ counted_talk talk.old answer }
{
    match told {
        LineAnswer::Reply(_) => talk.asked += 1,
        LineAnswer::NoMemory | LineAnswer::NoSteps => talk.denied += 1,
        _ => {}
    }
}

/// Takes the buffer of a connection back from a reply, which was written, and empties it. Where the
/// line was told no reply, the buffer has stayed, and stays as it is.
pub fn take_back(room: &mut List<u8>, told: LineAnswer)
    ensures { TakesBack room.old room.new (text_in told) }
{
    if let LineAnswer::Reply(mut text) = told {
        text.clear();
        *room = text;
    }
}

/// Makes room for the longest reply, where the buffer has less, brings the history to the reading,
/// and asks. A reply goes out in the buffer, and one without room is left in its place.
pub(crate) fn decide<M: Machine, R: Wait, G>(
    server: &Server<M, R, G>,
    pass: &mut Pass<M>,
    reading: Instant,
    actor: Actor,
    request: Request,
    reached: &mut Option<Instant>,
    room: &mut List<u8>,
) -> LineAnswer
    requires idle { IsIdle (site_of server.now.desk.now) pass.old }
    requires named { M.named server.now.desk.now.root actor request }
    requires replies { RepliesCanBeTold server.now.policy.now (M.legal server.now.desk.now.root) }
    requires reached { IsReached (M.legal server.now.desk.now.root)
        (M.now_of server.now.desk.now.root) pass.old.seen reached.old }
    ensures reached { IsReached (M.legal server.now.desk.now.root)
        (M.now_of server.now.desk.now.root) pass.new.seen reached.new }
    ensures decides { Decides
        (service_at M.list M.legal M.now_of server.now.desk.now server.now.policy.now)
        (by pass.old.number server.now.conn) reading actor request pass.old pass.new result }
    ensures lends { LendsRoom room.old room.new (text_in result) }
{
    room.clear();
    if room.reserve(LONGEST_REPLY).is_err() {
        return LineAnswer::NoMemory;
    }
    match ask_at(server, pass, reading, actor, request, reached) {
        Ok(reply) => {
            reply_fits(server.policy, &reply);
            put_reply(server.policy, &reply, room);
            LineAnswer::Reply(replace(room, List::new(server.alloc)))
        }
        Err(DeskFault::Memory) => LineAnswer::NoMemory,
        Err(DeskFault::StepsFull) => LineAnswer::NoSteps,
        Err(DeskFault::Worn { draws }) => LineAnswer::Worn { draws },
    }
}

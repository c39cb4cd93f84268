//! What the bytes of a link come to, whoever answers its requests.
ghost use Rattle.std.specs.Prelude.{◌≡◌, ◌+◌, ◌<◌, ◌≤◌, ◌^◌, ℕ, true, false, length, Err, IfOk, All};
ghost use Rattle.std.specs.Io.KnownBytes.{ReadConsumes, WriteAppends};
ghost use Rattle.gt_io.specs.Causes.{CountsEnd, HasCause, RisesOnce};
ghost use Rattle.gt_io.specs.Frames.{Frame, blank_frame};
ghost use Rattle.gt_io.specs.Links.{WritesNothing};
ghost use Rattle.policy_words.specs.Naming.{NamedPolicy};
ghost use Rattle.connection_laws.specs.Lines.{Answer};
ghost use Rattle.connection_laws.specs.Rooms.{text_in, TakesBack};
ghost use Rattle.connection_laws.specs.Acting.{IsTold, counted_talk, CanCount};
ghost use Rattle.connection_laws.specs.Attending.{IsRead, AreRead, IsStart, IsUnheard, CanTake, StaysReady, Sent, Spot, spot, HasReplied, TakesOn, TakesBytes, Attends};

use crate::acts::{count, reply_of, take_back};
use crate::ahead::{MAX_AHEAD, read_ahead};
use crate::answerer::{Answerer, act_by};
use crate::ends::LinkEnd;
use crate::talk::{LineAnswer, Talk};
use gt_base::{Actor, List, MAX_BYTES};
use gt_io::{Failed, Framer, Link, READ_PIECE, send_all};
use request_text::{Line, LineFault};
use std::alloc::Global;

/// The line that a link is in, what the link has come to, and the buffer in which its replies go
/// out, one after the other. The first request line takes its room, and later ones use it again.
#[derive(Drop)]
pub struct Hearing {
    pub framer: Framer,
    pub talk: Talk,
    pub room: List<u8>,
}

impl Hearing {
    /// Before the first byte of a link, with so many calls of who answers.
    pub fn new(alloc: Global, calls: u64) -> Hearing
        requires { calls < 2 ^ 63 }
        ensures start { IsStart result.talk }
        ensures frame { result.framer ≡ blank_frame }
        ensures calls { result.talk.calls ≡ calls }
    {
        Hearing {
            framer: Framer::new(),
            talk: Talk {
                actor: Actor::Nobody,
                asked: 0,
                denied: 0,
                calls,
            },
            room: List::new(alloc),
        }
    }
}

/// Counts what a line got, writes its reply, and takes the buffer of it back. A line at which the
/// pass is worn gets none.
fn settle<L: Link>(
    link: &mut L,
    talk: &mut Talk,
    room: &mut List<u8>,
    told: LineAnswer,
) -> Result<(), LinkEnd>
    requires count { CanCount talk.old }
    requires open { (L.traffic link.old).finished ≡ false }
    ensures talk { (np : NamedPolicy) (answer : Answer) → IsTold np told answer
        → talk.new ≡ counted_talk talk.old answer }
    ensures sent { (np : NamedPolicy) (answer : Answer) → IsTold np told answer
        → Sent np answer (L.traffic link.old) (L.traffic link.new) result }
    ensures worn { (n : ℕ) → result ≡ Err (LinkEnd.Worn n) → told ≡ LineAnswer.Worn n }
    ensures held { (L.traffic link.new).finished ≡ (L.traffic link.old).finished }
    ensures back { TakesBack room.old room.new (text_in told) }
{
    count(talk, &told);
    if let LineAnswer::Worn { draws } = &told {
        return Err(LinkEnd::Worn { draws: *draws });
    }
    let sent = send_all(link, reply_of(&told));
    take_back(room, told);
    match sent {
        Ok(()) => Ok(()),
        Err(_) => Err(LinkEnd::WriteFault),
    }
}

/// Acts on lines by what they say, one after the other, up to the one at which the service is cut
/// off.
fn act_on<A: Answerer, L: Link>(
    answerer: &mut A,
    link: &mut L,
    talk: &mut Talk,
    room: &mut List<u8>,
    said: &[Result<Line, LineFault>],
) -> Result<(), LinkEnd>
    requires read { All (IsRead (A.named answerer.old)) said.now }
    requires can { CanTake A.ready A.named answerer.old talk.old (L.traffic link.old)
        (length said.now) }
    ensures goes { (o : Spot A) (text bytes acted : _) (frame frame' : Frame)
        → HasReplied (A.named answerer.old) A.asks o
        (spot (A.rested answerer.old) talk.old (L.traffic link.old).given) frame text acted
        → AreRead (A.named answerer.old) text bytes frame' said.now
        → TakesOn (A.named answerer.old) A.asks A.wears o
        (spot (A.rested answerer.new) talk.new (L.traffic link.new).given) frame' text bytes
        (L.traffic link.old).write_faults (L.traffic link.new).write_faults result }
    ensures stays { StaysReady A.ready A.named answerer.old answerer.new talk.old talk.new room.old
        room.new (L.traffic link.old) (L.traffic link.new) (length said.now) result }
{
    for line in said {
        let told = act_by(answerer, talk, room, *line);
        answerer.before_reply(&told);
        if let Err(end) = settle(link, talk, room, told) {
            return Err(end);
        }
    }
    Ok(())
}

/// Takes on a piece of bytes, up to the line at which the service is cut off. Lines are framed and
/// read before the turn in which they are acted on.
fn take_bytes<A: Answerer, L: Link>(
    answerer: &mut A,
    link: &mut L,
    hearing: &mut Hearing,
    said: &mut [Result<Line, LineFault>],
    piece: &[u8],
) -> Result<(), LinkEnd>
    requires said { 0 < length said.old }
    requires can { CanTake A.ready A.named answerer.old hearing.old.talk (L.traffic link.old)
        (length piece.now) }
    ensures goes { TakesBytes (A.named answerer.old) A.asks A.wears
        (spot (A.rested answerer.old) hearing.old.talk (L.traffic link.old).given)
        (spot (A.rested answerer.new) hearing.new.talk (L.traffic link.new).given)
        hearing.old.framer hearing.new.framer piece.now (L.traffic link.old).write_faults
        (L.traffic link.new).write_faults result }
    ensures stays { StaysReady A.ready A.named answerer.old answerer.new hearing.old.talk
        hearing.new.talk hearing.old.room hearing.new.room (L.traffic link.old)
        (L.traffic link.new) (length piece.now) result }
    ensures rests { A.rested answerer.old ≡ answerer.old → A.rested answerer.new ≡ answerer.new }
{
    let mut at = 0;
    while at < piece.len() {
        let (_, rest) = piece.split_at(at);
        let ahead = read_ahead(answerer.policy(), &mut hearing.framer, rest, said);
        let (lines, _) = said.split_at(ahead.lines);
        answerer.begin_piece();
        let acted = act_on(answerer, link, &mut hearing.talk, &mut hearing.room, lines);
        answerer.end_piece();
        if let Err(end) = acted {
            return Err(end);
        }
        at += ahead.bytes;
    }
    Ok(())
}

/// Reads some bytes, `left` at most.
fn read_some<L: Link>(link: &mut L, buf: &mut [u8], left: usize) -> Result<usize, Failed>
    requires buf { 0 < length buf.old }
    requires left { 0 < left }
    requires open { (L.traffic link.old).finished ≡ false }
    ensures bound { IfOk result (λ n. (n ≤ left) × (n ≤ length buf.new)) }
    ensures bytes { ReadConsumes (L.traffic link.old).left (L.traffic link.new).left result
        buf.new }
    ensures taken { WriteAppends (L.traffic link.old).taken (L.traffic link.new).taken result
        buf.new }
    ensures cause { HasCause (L.traffic link.old).read_faults (L.traffic link.new).read_faults
        result }
    ensures once { RisesOnce (L.traffic link.old).read_faults (L.traffic link.new).read_faults
        result }
    ensures ends { CountsEnd (L.traffic link.old).ends (L.traffic link.new).ends result }
    ensures writes { WritesNothing (L.traffic link.old) (L.traffic link.new) }
    ensures held { (L.traffic link.new).finished ≡ (L.traffic link.old).finished }
{
    let room = left.min(buf.len());
    link.read(&mut buf[..room])
}

/// Takes the bytes of a link to its end.
fn take_all<A: Answerer, L: Link>(answerer: &mut A, link: &mut L, hearing: &mut Hearing) -> LinkEnd
    requires ready { A.ready answerer.old }
    requires unheard { IsUnheard hearing.old (L.traffic link.old) }
    ensures attends { Attends (A.named answerer.old) A.asks A.wears
        (spot (A.rested answerer.old) hearing.old.talk (L.traffic link.old).given)
        (spot (A.rested answerer.new) hearing.new.talk (L.traffic link.new).given)
        (L.traffic link.old) (L.traffic link.new) result }
    ensures ready { A.ready answerer.new }
    ensures named { A.named answerer.new ≡ A.named answerer.old }
    ensures calls { hearing.new.talk.calls ≤ hearing.old.talk.calls + MAX_BYTES }
    ensures held { (L.traffic link.new).finished ≡ (L.traffic link.old).finished }
    ensures rests { A.rested answerer.old ≡ answerer.old → A.rested answerer.new ≡ answerer.new }
{
    let mut buf = [0u8; READ_PIECE];
    let mut said = [Ok(Line::Silent); MAX_AHEAD];
    let mut left = MAX_BYTES;
    while left > 0 {
        let Ok(n) = read_some(link, &mut buf, left) else {
            return LinkEnd::ReadFault;
        };
        if n == 0 {
            return LinkEnd::Ended;
        }
        left -= n;
        if let Err(end) = take_bytes(answerer, link, hearing, &mut said, &buf[..n]) {
            return end;
        }
    }
    LinkEnd::Spent
}

/// Serves a link to its end, by who answers its requests. After the first read or write that fails
/// it makes no further one, nor a read behind the one that told the end. Then it lets the link go,
/// which is the last call on it. Who answers and was at rest is so again at the end.
pub fn attend<A: Answerer, L: Link>(
    answerer: &mut A,
    link: &mut L,
    hearing: &mut Hearing,
) -> LinkEnd
    requires ready { A.ready answerer.old }
    requires unheard { IsUnheard hearing.old (L.traffic link.old) }
    ensures keeps { A.keeps answerer.old answerer.new }
    ensures attends { Attends (A.named answerer.old) A.asks A.wears
        (spot (A.rested answerer.old) hearing.old.talk (L.traffic link.old).given)
        (spot (A.rested answerer.new) hearing.new.talk (L.traffic link.new).given)
        (L.traffic link.old) (L.traffic link.new) result }
    ensures ready { A.ready answerer.new }
    ensures calls { hearing.new.talk.calls ≤ hearing.old.talk.calls + MAX_BYTES }
    ensures finished { (L.traffic link.new).finished ≡ true }
    ensures rests { A.rested answerer.old ≡ answerer.old → A.rested answerer.new ≡ answerer.new }
{
    let end = take_all(answerer, link, hearing);
    link.finish();
    end
}

//! Connections, where they come from, and what a worker asks the outside between two requests.
ghost use Rattle.std.specs.Prelude.{◌≡◌, ◌<◌, ◌≤◌, ℕ, true, false, List, [], ◌∷◌, length, IfOk, IfSome, OnOk, OnErr, MatchResult, MatchOption};
ghost use Rattle.std.specs.declared.option.Option.{Option};
ghost use Rattle.std.specs.Io.{ReadsAtMost};
ghost use Rattle.std.specs.Io.KnownBytes.{ReadConsumes, WriteAppends, Appends};
ghost use Rattle.gt_io.specs.Causes.{CountsEnd, HasCause, RisesOnce, AppendsPart};
ghost use Rattle.gt_io.specs.Links.{Traffic, Doorway, tallied, ReadsNothing, WritesNothing, IsFresh, GivesFirst, GivesNone, Reads};

use crate::source::Failed;
use gt_base::{Instant, List, Memory};

/// How many bytes a link holds back before a write waits for the peer: one behind as many may wait,
/// and one behind fewer does not.
pub const MAX_HELD: usize = 4096;

/// A connection. It has two counts, of the reads and of the writes that failed; each call raises
/// its own by one where it fails, and nothing else does. `finish`, and no other call, lets it go,
/// and is the last call on it.
pub trait Link {
    /// What went over it and what is left, where it tells, how often it failed and told the end,
    /// and whether it was let go.
    ghost traffic: { Self → Traffic };

    /// Reads some bytes; none exactly at the end.
    fn read(&mut self, buf: &mut [u8]) -> Result<usize, Failed>
        requires room { 0 < length buf.old }
        requires open { (traffic self.old).finished ≡ false }
        ensures bound { ReadsAtMost result buf.new }
        ensures bytes { ReadConsumes (traffic self.old).left
            (traffic self.new).left result buf.new }
        ensures taken { WriteAppends (traffic self.old).taken
            (traffic self.new).taken result buf.new }
        ensures cause { HasCause (traffic self.old).read_faults
            (traffic self.new).read_faults result }
        ensures once { RisesOnce (traffic self.old).read_faults
            (traffic self.new).read_faults result }
        ensures ends { CountsEnd (traffic self.old).ends (traffic self.new).ends result }
        ensures writes { WritesNothing (traffic self.old) (traffic self.new) }
        ensures held { (traffic self.new).finished ≡ (traffic self.old).finished };

    /// Writes some of the piece, at least a byte.
    fn write(&mut self, piece: &[u8]) -> Result<usize, Failed>
        requires some { 0 < length piece.now }
        requires open { (traffic self.old).finished ≡ false }
        ensures bound { IfOk result (λ n. (0 < n) × (n ≤ length piece.now)) }
        ensures bytes { WriteAppends (traffic self.old).given
            (traffic self.new).given result piece.now }
        ensures cause { HasCause (traffic self.old).write_faults
            (traffic self.new).write_faults result }
        ensures once { RisesOnce (traffic self.old).write_faults
            (traffic self.new).write_faults result }
        ensures reads { ReadsNothing (traffic self.old) (traffic self.new) }
        ensures held { (traffic self.new).finished ≡ (traffic self.old).finished };

    /// Lets the connection go. No call follows it.
    fn finish(&mut self)
        requires open { (traffic self.old).finished ≡ false }
        ensures reads { ReadsNothing (traffic self.old) (traffic self.new) }
        ensures writes { WritesNothing (traffic self.old) (traffic self.new) }
        ensures finished { (traffic self.new).finished ≡ true };
}

/// Writes the whole text to a link, or up to the first failure.
pub fn send_all<L: Link>(link: &mut L, text: &[u8]) -> Result<(), Failed>
    requires { (L.traffic link.old).finished ≡ false }
    ensures all { OnOk result (Appends (L.traffic link.old).given
        (L.traffic link.new).given text.now) }
    ensures part { OnErr result (AppendsPart (L.traffic link.old).given
        (L.traffic link.new).given text.now) }
    ensures cause { HasCause (L.traffic link.old).write_faults
        (L.traffic link.new).write_faults result }
    ensures once { RisesOnce (L.traffic link.old).write_faults
        (L.traffic link.new).write_faults result }
    ensures reads { ReadsNothing (L.traffic link.old) (L.traffic link.new) }
    ensures held { (L.traffic link.new).finished ≡ (L.traffic link.old).finished }
{
    let mut rest = text;
    while !rest.is_empty() {
        let n = link.write(rest)?;
        rest = &rest[n..];
    }
    Ok(())
}

/// Where connections come from.
pub trait Door {
    /// The connections that it gives.
    type L: Link;

    /// The links to come, where it tells, how often it failed and gave none, and whether it was
    /// closed.
    ghost doorway: { Self → Doorway Self.L };

    /// The next link, from which nothing was read and to which nothing was written; none where
    /// there is none to come.
    fn next(&mut self) -> Result<Option<Self::L>, Failed>
        ensures links { MatchResult result
            (λ next. MatchOption next
            (GivesNone (doorway self.old).links (doorway self.new).links)
            (λ link. GivesFirst (doorway self.old).links (doorway self.new).links link))
            (λ _. (doorway self.new).links ≡ (doorway self.old).links) }
        ensures fresh { IfOk result (λ next. IfSome next (λ link. IsFresh (Self.L.traffic link))) }
        ensures tally { (doorway self.new).tally ≡ tallied result (doorway self.old).tally };

    /// Waits a little for what was short to come back, or not at all where no link is to come.
    fn rest(&mut self)
        ensures { doorway self.new ≡ doorway self.old };

    /// Listens no more, so that clients are refused.
    fn close(&mut self)
        ensures { doorway self.new ≡ record (doorway self.old) { closed = true } };
}

/// How often room for a link that is to come is asked for in vain, with a rest of the door between.
const MAX_TRIES: u32 = 200;

/// Makes room in the list for what will be told of the next link. The list grows once three
/// quarters of its room are taken; a refusal is passed over while there is room, and else room is
/// asked for 200 times, with a rest of the door before each further time.
pub fn make_room<D: Door, T>(door: &mut D, list: &mut List<T>) -> Result<(), Memory>
    ensures door { D.doorway door.new ≡ D.doorway door.old }
    ensures items { list.new.items ≡ list.old.items }
    ensures room { OnOk result (1 ≤ list.new.spare) }
{
    for _ in 1..MAX_TRIES {
        let early = list.len() / 3 + 1;
        if list.reserve(early).is_ok() || list.reserve(1).is_ok() {
            return Ok(());
        }
        door.rest();
    }
    list.reserve(1)
}

/// Tells the time.
pub trait Clock {
    /// The readings to come, where it tells.
    ghost readings: { Self → Option (ℕ → ℕ) };

    /// The minute now. It can't fail, and may go back.
    fn now(&mut self) -> Instant
        ensures { Reads (readings self.old) (readings self.new) (result ∷ []) };
}

/// What each request line of a worker passes before the clock is read.
pub trait Gate {
    /// `call` counts the worker's request lines from 1.
    fn pass(&self, worker: u32, call: u64);

    /// Whether `pass` may wait for another worker. Where it may, a worker keeps no turn of the lock
    /// from one line to the next, since the other one could wait for that turn.
    fn may_wait(&self) -> bool {
        true
    }
}

//! What a front keeps of an open link.
ghost use Rattle.std.specs.Prelude.{◌≡◌};
ghost use Rattle.poll_front.specs.Fronts.{polled_as};
ghost use Rattle.poll_front.specs.Tables.{IsFreshState};

use crate::ends::{PollEnd, Polled};
use connection_laws::{LineAnswer, Talk, take_back};
use gt_base::{Actor, Instant, List, MAX_BYTES};
use gt_io::Framer;
use std::alloc::Global;
use std::mem::replace;

/// How many bytes one read takes at most.
pub(crate) const MAX_READ: usize = 4096;

/// What is kept of an open link.
#[derive(Drop)]
pub struct LinkState {
    pub framer: Framer,
    pub talk: Talk,
    /// What its last line is told, and how many bytes of that were written.
    pub told: LineAnswer,
    pub at: usize,
    /// The buffer in which its replies go out, one after the other. The first request line takes
    /// its room, and later ones use it again. A reply in `told` has it until the next line ends.
    pub room: List<u8>,
    /// How many bytes may still be taken from it.
    pub left: usize,
    /// The bytes of the last read; those from `from` up to `upto` wait to be acted on.
    pub chunk: [u8; MAX_READ],
    pub from: usize,
    pub upto: usize,
}

/// How many request lines there were over all links, and a minute that the history has come to as
/// far as the pass has seen it, where one is known.
#[derive(Clone, Copy)]
pub struct RunCounters {
    pub calls: u64,
    pub reached: Option<Instant>,
}

/// Why a link is left for another.
#[derive(Clone, Copy)]
pub enum Yield {
    /// There is nothing to do for it yet.
    Later,
    /// It has ended.
    End(PollEnd),
}

impl LinkState {
    /// Before the first byte, with a buffer for its replies.
    pub(crate) fn new(room: List<u8>) -> LinkState
        ensures { IsFreshState result }
    {
        LinkState {
            framer: Framer::new(),
            talk: Talk {
                actor: Actor::Nobody,
                asked: 0,
                denied: 0,
                calls: 0,
            },
            told: LineAnswer::Silence,
            at: 0,
            room,
            left: MAX_BYTES,
            chunk: [0; MAX_READ],
            from: 0,
            upto: 0,
        }
    }

    /// Makes it that of a further link, with the buffer for its replies.
    pub(crate) fn renew(&mut self, alloc: Global)
        ensures { IsFreshState self.new }
    {
        let mut room = replace(&mut self.room, List::new(alloc));
        take_back(&mut room, replace(&mut self.told, LineAnswer::Silence));
        *self = LinkState::new(room);
    }

    /// What the link has come to that ends so.
    pub(crate) fn polled(&self, outcome: PollEnd) -> Polled
        ensures { result ≡ polled_as self.now outcome }
    {
        Polled {
            asked: self.talk.asked,
            denied: self.talk.denied,
            outcome,
        }
    }
}

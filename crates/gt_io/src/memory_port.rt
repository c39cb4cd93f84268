//! Ports in memory.
ghost use Rattle.std.specs.Prelude.{◌≡◌, ◌<◌, ◌≤◌, ◌+◌, ◌-◌, ◌++◌, ◌^◌, ◌↔◌, ℕ, min, IsSome, [], length, take, drop, slice_get, vec_capacity, false, All, IfOk, IfSome, OnOk, OnErr, IsOk, Some, None, if◌then◌else◌};
ghost use Rattle.std.specs.Io.KnownBytes.{Appends, Consumes, IsAtEnd};
ghost use Rattle.gt_io.specs.Links.{IsNothing};
ghost use Rattle.gt_io.specs.Memory.{is_listed};
ghost use Rattle.gt_io.specs.Ports.{PortReads, PortWrites, FitsGot, FitsTook, newly, readied, is_none, open_among, got_bytes, took_bytes, Happens, Nexts, ReadsPort, WritesPort, Finishes, IsOpen, told_in};
ghost use Rattle.gt_io.specs.MemoryPorts.{port_of, port_in, harbour_of, IsUnused, wire_of, no_wire, come_of, coming, is_at_end, got_of, got_count, read_answer, read_from, fitting, took_of, write_answer, written_to, woken, plan_of, plan_by, opening, waking, GivesEvent, GivesGot, GivesTook};

use crate::calls::is_listed;
use crate::memory_ports::{Hitches, MemEvent, MemPort, MemPorts};
use crate::port::{Called, Got, PortEvent, Ports, Took, count_fault, count_finished};
use crate::source::Failed;
use gt_base::{List, Memory};
use std::alloc::Global;

/// Copies the bytes from `at` up to `upto`, as far as the buffer goes, and answers how many.
fn give(bytes: &[u8], at: usize, upto: usize, buf: &mut [u8]) -> usize
    requires { at ≤ length bytes.now }
    ensures number { result ≡ min (length (drop at bytes.now)) (min (length buf.new) (upto - at)) }
    ensures fits { (result ≤ length buf.new) × (at + result ≤ length bytes.now) }
    ensures given { drop at bytes.now ≡ take result buf.new ++ drop (at + result) bytes.now }
    ensures taken { take (at + result) bytes.now ≡ take at bytes.now ++ take result buf.new }
{
    let (_, rest) = bytes.split_at(at);
    let n = rest.len().min(buf.len()).min(upto.max(at) - at);
    let (front, _) = rest.split_at(n);
    buf[..n].copy_from_slice(front);
    n
}

impl MemPort {
    /// A link that sends these bytes and takes at most `room`, `most` of them in one write. `marks`
    /// tells how many bytes have come each time that it is ready, and `ends` whether its peer ends
    /// it once they all have.
    pub fn new(
        alloc: Global,
        bytes: List<u8>,
        marks: List<usize>,
        ends: bool,
        room: usize,
        most: usize,
        hitches: Hitches,
    ) -> Result<MemPort, Memory>
        requires { 0 < most }
        ensures unused { IfOk result IsUnused }
        ensures bytes { IfOk result (λ p. (port_of p).left ≡ Some bytes.items) }
        ensures wire { IfOk result (λ p. wire_of p
            ≡ record {
              bytes = bytes.items;
              at = 0;
              marks = marks.items;
              readies = 0;
              ends = ends;
              given = [];
              room = room;
              most = most;
              reads = 0;
              writes = 0;
              hitches = hitches;
            }) }
    {
        Ok(MemPort {
            bytes,
            at: 0,
            marks,
            readies: 0,
            ends,
            given: Vec::with_capacity(alloc, room)?,
            room,
            most,
            reads: 0,
            writes: 0,
            hitches,
            last: Called::Nothing,
            owed: false,
            others: 0,
            finished: None,
        })
    }

    /// What was written to it so far.
    pub fn given(&self) -> &[u8]
        ensures { Some result.now ≡ (port_of self.now).given }
    {
        &self.given
    }

    /// How many bytes have come.
    fn come(&self) -> usize
        ensures { result ≡ come_of (wire_of self.now) }
    {
        if self.readies == 0 {
            return 0;
        }
        match self.marks.get(self.readies - 1) {
            Some(mark) => *mark,
            None => self.bytes.len(),
        }
    }

    /// Whether its bytes were taken, and its peer has ended it.
    fn is_at_end(&self) -> bool
        ensures { result ≡ is_at_end (wire_of self.now) }
    {
        self.at == self.bytes.len() && self.ends && self.readies > self.marks.len()
    }

    /// What a read gives that does not fail and is not late.
    fn pass_on(&mut self, buf: &mut [u8]) -> Got
        requires { 0 < length buf.old }
        ensures answer { result
            ≡ got_of (wire_of self.old) (coming (wire_of self.old) (length buf.old)) }
        ensures wire { wire_of self.new ≡ record (wire_of self.old)
            { at = self.old.at + got_count (Ok result) } }
        ensures bound { FitsGot (length buf.new) result }
        ensures taken { Appends (port_of self.old).taken (port_of self.new).taken
            (got_bytes (Ok result) buf.new) }
        ensures left { Consumes (port_of self.old).left (port_of self.new).left
            (got_bytes (Ok result) buf.new) }
        ensures end { result ≡ Got.Finished → IsAtEnd (port_of self.new).left }
        ensures rest { port_of self.new
            ≡ record (port_of self.old) {
              left = (port_of self.new).left;
              taken = (port_of self.new).taken;
            } }
    {
        let upto = self.come();
        let n = give(self.bytes.as_slice(), self.at, upto, buf);
        if n > 0 {
            self.at += n;
            return Got::Bytes(n);
        }
        if self.is_at_end() {
            return Got::Finished;
        }
        Got::NotYet
    }

    /// Gives the bytes that have come by now; a failing and a late call are numbered from 1.
    fn draw(&mut self, buf: &mut [u8]) -> Result<Got, Failed>
        requires { 0 < length buf.old }
        ensures answer { result ≡ read_answer (wire_of self.old) (length buf.old) }
        ensures wire { wire_of self.new ≡ read_from (wire_of self.old) result }
        ensures bound { IfOk result (FitsGot (length buf.new)) }
        ensures taken { Appends (port_of self.old).taken (port_of self.new).taken
            (got_bytes result buf.new) }
        ensures left { Consumes (port_of self.old).left (port_of self.new).left
            (got_bytes result buf.new) }
        ensures end { result ≡ Ok Got.Finished → IsAtEnd (port_of self.new).left }
        ensures rest { port_of self.new
            ≡ record (port_of self.old) {
              left = (port_of self.new).left;
              taken = (port_of self.new).taken;
            } }
    {
        let made = self.reads;
        self.reads = made.saturating_add(1);
        if is_listed(&self.hitches.bad_reads, made) {
            return Err(Failed);
        }
        if is_listed(&self.hitches.late_reads, made) {
            return Ok(Got::NotYet);
        }
        Ok(self.pass_on(buf))
    }

    /// Reads, and notes the answer; whatever is not bytes leaves no reading owed.
    fn read(&mut self, buf: &mut [u8]) -> Result<Got, Failed>
        requires { 0 < length buf.old }
        ensures answer { result ≡ read_answer (wire_of self.old) (length buf.old) }
        ensures wire { wire_of self.new ≡ read_from (wire_of self.old) result }
        ensures bound { IfOk result (FitsGot (length buf.new)) }
        ensures port { PortReads (port_of self.old) (port_of self.new) buf.new result }
    {
        let answer = self.draw(buf);
        self.last = Called::Read(answer);
        match answer {
            Ok(Got::Bytes(_)) => {}
            Ok(Got::Finished) => self.owed = false,
            Ok(Got::NotYet) => self.owed = false,
            Err(_) => self.owed = false,
        }
        answer
    }

    /// What a write takes that is neither listed to fail nor late.
    fn take_up(&mut self, piece: &[u8]) -> Result<Took, Failed>
        requires { 0 < length piece.now }
        ensures answer { result ≡ took_of (fitting (wire_of self.old) (length piece.now)) }
        ensures wire { wire_of self.new ≡ record (wire_of self.old)
            { given = self.old.given.items ++ took_bytes result piece.now } }
        ensures bound { IfOk result (FitsTook (length piece.now)) }
        ensures rest { port_of self.new
            ≡ record (port_of self.old) { given = (port_of self.new).given } }
    {
        let n = piece
            .len()
            .min(self.most.min(self.room.saturating_sub(self.given.len())));
        if n == 0 {
            return Err(Failed);
        }
        let (front, _) = piece.split_at(n);
        self.given.extend_from_slice(front).unwrap();
        Ok(Took::Bytes(n))
    }

    /// Takes at most `most` bytes and what room is left; none left is a fault.
    fn take(&mut self, piece: &[u8]) -> Result<Took, Failed>
        requires { 0 < length piece.now }
        ensures answer { result ≡ write_answer (wire_of self.old) (length piece.now) }
        ensures wire { wire_of self.new ≡ written_to (wire_of self.old) piece.now result }
        ensures bound { IfOk result (FitsTook (length piece.now)) }
        ensures given { Appends (port_of self.old).given (port_of self.new).given
            (took_bytes result piece.now) }
        ensures rest { port_of self.new
            ≡ record (port_of self.old) { given = (port_of self.new).given } }
    {
        let made = self.writes;
        self.writes = made.saturating_add(1);
        if is_listed(&self.hitches.bad_writes, made) {
            return Err(Failed);
        }
        if is_listed(&self.hitches.late_writes, made) {
            return Ok(Took::NotYet);
        }
        self.take_up(piece)
    }

    /// Writes, and notes the answer; whatever is not bytes leaves no writing owed.
    fn write(&mut self, piece: &[u8]) -> Result<Took, Failed>
        requires { 0 < length piece.now }
        ensures answer { result ≡ write_answer (wire_of self.old) (length piece.now) }
        ensures wire { wire_of self.new ≡ written_to (wire_of self.old) piece.now result }
        ensures bound { IfOk result (FitsTook (length piece.now)) }
        ensures port { PortWrites (port_of self.old) (port_of self.new) piece.now result }
    {
        let answer = self.take(piece);
        self.last = Called::Wrote(answer);
        match answer {
            Ok(Took::Bytes(_)) => {}
            Ok(Took::NotYet) => self.owed = false,
            Err(_) => self.owed = false,
        }
        answer
    }

    /// A link that begins beside so many others, with nothing called and nothing owed.
    fn begin(&mut self, others: u64)
        ensures port { port_of self.new ≡ newly others (port_of self.old) }
        ensures wire { wire_of self.new ≡ wire_of self.old }
    {
        self.last = Called::Nothing;
        self.owed = false;
        self.others = others;
        self.finished = None;
    }

    /// The link is ready: it is owed a call, unless it is finished.
    fn wake(&mut self)
        ensures port { port_of self.new ≡ readied (port_of self.old) }
        ensures wire { wire_of self.new ≡ woken (wire_of self.old) }
    {
        self.readies = self.readies.saturating_add(1);
        self.owed = self.finished.is_none();
    }

    /// The link is finished after so many events; nothing is owed any more.
    fn end(&mut self, nexts: u64)
        ensures port { port_of self.new ≡ record (port_of self.old)
            { owed = false; finished = Some nexts } }
        ensures wire { wire_of self.new ≡ wire_of self.old }
    {
        self.owed = false;
        self.finished = Some(nexts);
    }
}

impl MemPorts {
    /// Ports of these links, in the order in which they are opened. The calls of `next` are
    /// numbered from 1, and those of `bad_nexts` fail.
    pub fn new(events: List<MemEvent>, ports: Vec<MemPort>, bad_nexts: List<u64>) -> MemPorts
        requires few { length ports.items < 2 ^ 32 }
        requires unused { All IsUnused ports.items }
        ensures harbour { ⟦<MemPorts as Ports>⟧.harbour result
            ≡ record {
              told = None;
              nexts = 0;
              opened = 0;
              port = port_in ports.items;
              faults = 0;
              ends = 0;
            } }
        ensures plan { plan_of result
            ≡ record {
              left = events.items;
              bad_nexts = bad_nexts.items;
              count = length ports.items;
              wire = told_in wire_of no_wire ports.items;
            } }
    {
        MemPorts {
            events,
            at: 0,
            ports,
            opened: 0,
            busy: 0,
            told: None,
            nexts: 0,
            bad_nexts,
            faults: 0,
            ends: 0,
        }
    }

    /// What was written to a link, none where there is no such link.
    pub fn given(&self, link: u32) -> Option<&[u8]>
        ensures there { IsSome result ↔ ((1 ≤ link) × (link ≤ (plan_of self.now).count)) }
        ensures given { IfSome result (λ text. text.now ≡ ((plan_of self.now).wire link).given) }
    {
        if link == 0 || link as usize > self.ports.len() {
            return None;
        }
        Some(self.ports[link as usize - 1].given())
    }
}

impl MemPorts {
    /// Opens the next link; stops where none is left.
    fn open(&mut self) -> PortEvent
        ensures answer { result ≡ opening (length self.old.ports.items) self.old.opened }
        ensures plan { plan_of self.new ≡ plan_by result (plan_of self.old) }
        ensures kept { (self.new.told ≡ self.old.told) × (self.new.nexts ≡ self.old.nexts) }
        ensures happens { Happens (⟦<MemPorts as Ports>⟧.harbour self.old)
            (⟦<MemPorts as Ports>⟧.harbour self.new) (Ok result) }
    {
        let i = self.opened as usize;
        if i == self.ports.len() {
            return PortEvent::Stop;
        }
        self.ports[i].begin(self.busy as u64);
        self.opened += 1;
        self.busy += 1;
        PortEvent::Opened(self.opened)
    }

    /// Has a link be ready; stops where it is not opened.
    fn wake(&mut self, link: u32) -> PortEvent
        ensures answer { result ≡ waking self.old.opened link }
        ensures plan { plan_of self.new ≡ plan_by result (plan_of self.old) }
        ensures kept { (self.new.told ≡ self.old.told) × (self.new.nexts ≡ self.old.nexts) }
        ensures happens { Happens (⟦<MemPorts as Ports>⟧.harbour self.old)
            (⟦<MemPorts as Ports>⟧.harbour self.new) (Ok result) }
    {
        if link == 0 || link > self.opened {
            return PortEvent::Stop;
        }
        self.ports[link as usize - 1].wake();
        PortEvent::Ready(link)
    }

    /// The answer to the call behind so many.
    fn answer(&mut self, made: u64) -> Result<PortEvent, Failed>
        ensures event { GivesEvent (plan_of self.old) (plan_of self.new)
            made self.old.opened result }
        ensures kept { (self.new.told ≡ self.old.told) × (self.new.nexts ≡ self.old.nexts) }
        ensures happens { Happens (⟦<MemPorts as Ports>⟧.harbour self.old)
            (⟦<MemPorts as Ports>⟧.harbour self.new) result }
    {
        if is_listed(&self.bad_nexts, made) {
            let fault = Err(Failed);
            self.faults = count_fault(self.faults, &fault);
            return fault;
        }
        if self.at >= self.events.len() {
            return Ok(PortEvent::Stop);
        }
        let event = self.events.as_slice()[self.at];
        self.at += 1;
        match event {
            MemEvent::Open => Ok(self.open()),
            MemEvent::Ready(link) => Ok(self.wake(link)),
        }
    }
}

impl Ports for MemPorts {
    ghost harbour = { λ p. harbour_of p.told p.nexts p.opened p.ports.items p.faults p.ends };

    fn next(&mut self) -> Result<PortEvent, Failed>
        ensures next { Nexts (⟦<MemPorts as Ports>⟧.harbour self.old)
            (⟦<MemPorts as Ports>⟧.harbour self.new) result }
        ensures event { GivesEvent (plan_of self.old) (plan_of self.new)
            self.old.nexts self.old.opened result }
    {
        let made = self.nexts;
        self.nexts = made.saturating_add(1);
        let answer = self.answer(made);
        self.told = Some(answer);
        answer
    }

    fn read(&mut self, link: u32, buf: &mut [u8]) -> Result<Got, Failed>
        requires open { IsOpen (⟦<MemPorts as Ports>⟧.harbour self.old) link }
        requires buf { 0 < length buf.old }
        ensures reads { ReadsPort (⟦<MemPorts as Ports>⟧.harbour self.old)
            (⟦<MemPorts as Ports>⟧.harbour self.new) link buf.new result }
        ensures gives { GivesGot (plan_of self.old) (plan_of self.new)
            link (length buf.old) result }
    {
        let answer = self.ports[link as usize - 1].read(buf);
        self.faults = count_fault(self.faults, &answer);
        self.ends = count_finished(self.ends, answer);
        answer
    }

    fn write(&mut self, link: u32, piece: &[u8]) -> Result<Took, Failed>
        requires open { IsOpen (⟦<MemPorts as Ports>⟧.harbour self.old) link }
        requires piece { 0 < length piece.now }
        ensures writes { WritesPort (⟦<MemPorts as Ports>⟧.harbour self.old)
            (⟦<MemPorts as Ports>⟧.harbour self.new) link piece.now result }
        ensures takes { GivesTook (plan_of self.old) (plan_of self.new) link piece.now result }
    {
        let answer = self.ports[link as usize - 1].write(piece);
        self.faults = count_fault(self.faults, &answer);
        answer
    }

    fn finish(&mut self, link: u32)
        requires { IsOpen (⟦<MemPorts as Ports>⟧.harbour self.old) link }
        ensures finished { Finishes (⟦<MemPorts as Ports>⟧.harbour self.old)
            (⟦<MemPorts as Ports>⟧.harbour self.new) link }
        ensures plan { plan_of self.new ≡ plan_of self.old }
    {
        self.ports[link as usize - 1].end(self.nexts);
        self.busy -= 1;
    }
}

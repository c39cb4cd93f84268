//! Links over TCP that are served side by side on one thread, on this machine alone.
ghost use Rattle.std.specs.Prelude.{◌≡◌, ◌<◌, ◌≤◌, length, vec_capacity, IfOk, IfSome};
ghost use Rattle.std.specs.Prelude.{[], None, Some, Ok, true, false};
ghost use Rattle.gt_base.specs.declared.limits.TheConstants.{MAX_LINKS};
ghost use Rattle.gt_host.specs.declared.ports.TheConstants.{MAX_OPEN};
ghost use Rattle.gt_io.specs.Ports.{PortReads, PortWrites, FitsGot, FitsTook, readied};
ghost use Rattle.gt_io.specs.Ports.{open_among, Happens, IsUncalled};
ghost use Rattle.gt_host.specs.HostPorts.{host_port, host_port_in, host_harbour};
ghost use Rattle.gt_host.specs.Lookouts.{FitsTask, MayOpen};

use crate::conn::{Conn, Sign};
use crate::lookout::{Lookout, NextTask};
use crate::port::HostPort;
use gt_base::MAX_LINKS;
use gt_io::{Called, Failed, Got, PortEvent, Ports, Took, count_fault, count_finished};
use mio::Registry;
use std::alloc::Global;
use std::io;
use std::net::Net;
use std::rt::{self, Files};

/// How many links are open at most.
pub(crate) const MAX_OPEN: u64 = 1024;

impl HostPort {
    /// Whether it has a stream whose client was silent for too long.
    pub(crate) fn is_late(&self, looks: u64) -> bool {
        match &self.conn {
            Some(conn) => conn.is_late(looks),
            None => false,
        }
    }

    /// Reads what is there; a connection that failed or was let go is not asked again.
    fn draw(
        &mut self,
        registry: Option<&Registry>,
        link: u32,
        buf: &mut [u8],
    ) -> Result<Got, Failed>
        requires { 0 < length buf.old }
        ensures bound { IfOk result (FitsGot (length buf.new)) }
        ensures same { host_port self.new ≡ host_port self.old }
    {
        let Some(conn) = &mut self.conn else {
            return Ok(Got::Finished);
        };
        match conn.draw(registry, link, buf) {
            Ok(got) => Ok(got),
            Err(_) => {
                self.conn = None;
                Err(Failed)
            }
        }
    }

    /// Reads, and notes the answer; whatever is not bytes leaves no reading owed.
    fn read(
        &mut self,
        registry: Option<&Registry>,
        link: u32,
        buf: &mut [u8],
    ) -> Result<Got, Failed>
        requires { 0 < length buf.old }
        ensures bound { IfOk result (FitsGot (length buf.new)) }
        ensures port { PortReads (host_port self.old) (host_port self.new) buf.new result }
    {
        let answer = self.draw(registry, link, buf);
        self.last = Called::Read(answer);
        match answer {
            Ok(Got::Bytes(_)) => {}
            Ok(Got::Finished) => self.owed = false,
            Ok(Got::NotYet) => self.owed = false,
            Err(_) => self.owed = false,
        }
        answer
    }

    /// Gives what the system takes; a connection that failed is let go.
    fn take(&mut self, piece: &[u8]) -> Result<Took, Failed>
        requires { 0 < length piece.now }
        ensures bound { IfOk result (FitsTook (length piece.now)) }
        ensures same { host_port self.new ≡ host_port self.old }
    {
        let Some(conn) = &mut self.conn else {
            return Err(Failed);
        };
        match conn.take(piece) {
            Ok(took) => Ok(took),
            Err(_) => {
                self.conn = None;
                Err(Failed)
            }
        }
    }

    /// Writes, and notes the answer; whatever is not bytes leaves no writing owed.
    fn write(&mut self, piece: &[u8]) -> Result<Took, Failed>
        requires { 0 < length piece.now }
        ensures bound { IfOk result (FitsTook (length piece.now)) }
        ensures port { PortWrites (host_port self.old) (host_port self.new) piece.now result }
    {
        let answer = self.take(piece);
        self.last = Called::Wrote(answer);
        match answer {
            Ok(Took::Bytes(_)) => {}
            Ok(Took::NotYet) => self.owed = false,
            Err(_) => self.owed = false,
        }
        answer
    }

    /// A sign of the system: the link is owed a call, unless its port is finished.
    fn wake(&mut self, sign: Sign)
        ensures { host_port self.new ≡ readied (host_port self.old) }
    {
        if let Some(conn) = &mut self.conn {
            conn.wake(sign);
        }
        self.owed = self.finished.is_none();
    }

    /// Hands over what the stream takes at once, and drops it.
    fn end(&mut self, nexts: u64)
        ensures { host_port self.new
            ≡ record (host_port self.old) { owed = false; finished = Some nexts } }
    {
        if let Some(conn) = &mut self.conn {
            conn.end();
        }
        self.conn = None;
        self.owed = false;
        self.finished = Some(nexts);
    }
}

/// A listener on a port of this machine with its connections, as ports. They tell no bytes. They
/// begin to listen as they are first asked what happens. They stop where the stop file stands,
/// which is looked for four times in a second and as a connection comes, which is then dropped.
/// Where the listener could not be made, or fails for good, they fail. Replies are held back until
/// bytes are next read from their link, or many are held; those that a stream does not take as its
/// link is let go are lost. A link that broke fails alone, and one whose client is silent for ten
/// minutes is at its end. Where 1,024 links are open, or their list finds no memory, the next
/// client waits in the system's queue.
pub struct HostPorts<'a, R> {
    pub(crate) lookout: Lookout<'a, R>,
    pub(crate) ports: Vec<HostPort>,
    /// How many links are open.
    busy: u64,
    told: Option<Result<PortEvent, Failed>>,
    nexts: u64,
    faults: u64,
    ends: u64,
    ghost few: { length ports.items ≤ MAX_LINKS },
    ghost low: { busy ≤ MAX_OPEN },
    ghost counted: { busy ≡ open_among (host_port_in ports.items) (length ports.items) },
}

impl<'a, R> Drop for HostPorts<'a, R> {
    fn drop(self) {
        let HostPorts {
            lookout: _,
            ports: _,
            busy: _,
            told: _,
            nexts: _,
            faults: _,
            ends: _,
        } = self;
    }
}

impl<'a, R: Files + rt::Clock + Net> HostPorts<'a, R> {
    /// Ports on 127.0.0.1 at the port.
    pub fn new(rt: &'a R, alloc: Global, port: u16) -> Self
        ensures port { result.lookout.port ≡ Some port }
        ensures harbour { ⟦<HostPorts<'a, R> as Ports>⟧.harbour result
            ≡ host_harbour None 0 [] 0 0 }
        ensures uncalled { IsUncalled (⟦<HostPorts<'a, R> as Ports>⟧.harbour result) }
    {
        HostPorts {
            lookout: Lookout::new(rt, alloc, port),
            ports: Vec::new(alloc),
            busy: 0,
            told: None,
            nexts: 0,
            faults: 0,
            ends: 0,
        }
    }

    /// Opens the link of a connection.
    fn begin(&mut self, conn: Box<Conn>) -> PortEvent
        requires free { MayOpen (length self.old.ports.items) self.old.busy
            (vec_capacity self.old.ports) }
        ensures kept { (self.new.told ≡ self.old.told) × (self.new.nexts ≡ self.old.nexts) }
        ensures happens { Happens (⟦<HostPorts<'a, R> as Ports>⟧.harbour self.old)
            (⟦<HostPorts<'a, R> as Ports>⟧.harbour self.new) (Ok result) }
    {
        self.ports.push_reserved(HostPort {
            conn: Some(conn),
            last: Called::Nothing,
            owed: false,
            others: self.busy,
            finished: None,
        });
        self.busy = self.busy.saturating_add(1);
        PortEvent::Opened(self.ports.len() as u32)
    }

    /// Has a link be ready.
    fn wake(&mut self, link: u32, sign: Sign) -> PortEvent
        requires known { (1 ≤ link) × (link ≤ length self.old.ports.items) }
        ensures kept { (self.new.told ≡ self.old.told) × (self.new.nexts ≡ self.old.nexts) }
        ensures happens { Happens (⟦<HostPorts<'a, R> as Ports>⟧.harbour self.old)
            (⟦<HostPorts<'a, R> as Ports>⟧.harbour self.new) (Ok result) }
    {
        self.ports[link as usize - 1].wake(sign);
        PortEvent::Ready(link)
    }

    /// Whether a further link can be opened now. The room for all that ever are is taken at the
    /// first call.
    fn is_free(&mut self) -> bool
        ensures same { ⟦<HostPorts<'a, R> as Ports>⟧.harbour self.new
            ≡ ⟦<HostPorts<'a, R> as Ports>⟧.harbour self.old }
        ensures free { result ≡ true → MayOpen (length self.new.ports.items) self.new.busy
            (vec_capacity self.new.ports) }
    {
        if self.busy >= MAX_OPEN || self.ports.len() >= MAX_LINKS {
            return false;
        }
        self.ports.reserve(MAX_LINKS - self.ports.len()).is_ok()
    }

    /// One step, which opens a link where it can be opened.
    fn step(&mut self) -> io::Result<Option<NextTask>>
        ensures same { ⟦<HostPorts<'a, R> as Ports>⟧.harbour self.new
            ≡ ⟦<HostPorts<'a, R> as Ports>⟧.harbour self.old }
        ensures fits { IfOk result (λ found. IfSome found (FitsTask
            (MayOpen (length self.new.ports.items) self.new.busy (vec_capacity self.new.ports))
            (length self.new.ports.items))) }
    {
        let free = self.is_free();
        self.lookout.step(&self.ports, free)
    }

    /// What is to be done next.
    fn found(&mut self) -> io::Result<NextTask>
        ensures same { ⟦<HostPorts<'a, R> as Ports>⟧.harbour self.new
            ≡ ⟦<HostPorts<'a, R> as Ports>⟧.harbour self.old }
        ensures fits { IfOk result (FitsTask
            (MayOpen (length self.new.ports.items) self.new.busy (vec_capacity self.new.ports))
            (length self.new.ports.items)) }
    {
        self.lookout.listen()?;
        for _ in 0..u64::MAX {
            if let Some(found) = self.step()? {
                return Ok(found);
            }
        }
        Ok(NextTask::Stop)
    }

    /// The answer to a call that was counted.
    pub(crate) fn answer(&mut self) -> Result<PortEvent, Failed>
        ensures kept { (self.new.told ≡ self.old.told) × (self.new.nexts ≡ self.old.nexts) }
        ensures happens { Happens (⟦<HostPorts<'a, R> as Ports>⟧.harbour self.old)
            (⟦<HostPorts<'a, R> as Ports>⟧.harbour self.new) result }
    {
        match self.found() {
            Ok(NextTask::Fresh(conn)) => Ok(self.begin(conn)),
            Ok(NextTask::Link(link, sign)) => Ok(self.wake(link, sign)),
            Ok(NextTask::Stop) => {
                self.lookout.close();
                Ok(PortEvent::Stop)
            }
            Err(_) => {
                self.lookout.close();
                let fault = Err(Failed);
                self.faults = count_fault(self.faults, &fault);
                fault
            }
        }
    }
}

impl<'a, R: Files + rt::Clock + Net> Ports for HostPorts<'a, R> {
    ghost harbour = { λ p. host_harbour p.told p.nexts p.ports.items p.faults
        p.ends };

    fn next(&mut self) -> Result<PortEvent, Failed> {
        self.nexts = self.nexts.saturating_add(1);
        let answer = self.answer();
        self.told = Some(answer);
        answer
    }

    fn read(&mut self, link: u32, buf: &mut [u8]) -> Result<Got, Failed> {
        let answer = self.ports[link as usize - 1].read(self.lookout.registry(), link, buf);
        self.faults = count_fault(self.faults, &answer);
        self.ends = count_finished(self.ends, answer);
        answer
    }

    fn write(&mut self, link: u32, piece: &[u8]) -> Result<Took, Failed> {
        let answer = self.ports[link as usize - 1].write(piece);
        self.faults = count_fault(self.faults, &answer);
        answer
    }

    fn finish(&mut self, link: u32) {
        self.ports[link as usize - 1].end(self.nexts);
        self.busy = self.busy.saturating_sub(1);
    }
}

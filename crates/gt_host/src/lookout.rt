//! What many links wait for together: connections, bytes, room for bytes, and the stop file.
ghost use Rattle.std.specs.Prelude.{◌≡◌, ◌<◌, ◌≤◌, true, false, length, Some, IfOk, IfSome};
ghost use Rattle.gt_host.specs.Lookouts.{FitsTask};

use crate::conn::{Conn, Sign, all_ways};
use crate::port::HostPort;
use crate::stop::{StopWatcher, WAIT_MILLIS, is_lasting, is_stopped};
use gt_base::MAX_LINKS;
use mio::net::{TcpListener, TcpStream};
use mio::{Events, Interest, Poll, Registry, Token};
use std::alloc::Global;
use std::io;
use std::io::ErrorKind;
use std::net::{IpAddr, Ipv4Addr, Net, SocketAddr};
use std::rt::{self, Files};
use std::time::Duration;

/// How many events one wait tells at most.
const MAX_EVENTS: usize = 1024;

/// How many connections are taken between two waits at most.
const MAX_ACCEPTED: u32 = 64;

/// How many links are looked at for silence at each look for the stop file.
const MAX_SWEPT: usize = 1024;

/// How many milliseconds pass before an accept that failed is tried again, where nothing else is to
/// be done.
const PAUSE_MILLIS: u64 = 20;

/// The token of the listener; links have their numbers.
const DOOR: Token = Token(0);

/// Whether a connection waits.
#[derive(Clone, Copy, PartialEq, Eq)]
enum Queue {
    Empty,
    Waiting,
    /// One does, and an accept has failed since the last wait.
    Stuck,
}

/// What the system tells of a link or of the listener.
#[derive(Clone, Copy)]
struct Told {
    token: Token,
    /// The peer has ended.
    ended: bool,
    /// An urgent byte is not passed yet.
    urgent: bool,
}

/// How long a wait lasts at most, in milliseconds. It is none where a connection waits for nothing
/// else than to be taken; where its link can't be opened it waits on.
fn wait_millis(queue: Queue, free: bool) -> u64
    ensures { free ≡ false → 0 < result }
{
    match queue {
        Queue::Waiting if free => 0,
        Queue::Stuck => PAUSE_MILLIS,
        _ => WAIT_MILLIS,
    }
}

/// What is to be done next.
#[derive(Drop)]
pub(crate) enum NextTask {
    /// A link is to be opened over this.
    Fresh(Box<Conn>),
    /// A link has something to do.
    Link(u32, Sign),
    /// The stop file stands.
    Stop,
}

/// A listener on a port of this machine, and the readiness that the system tells of it and of the
/// links. It begins to listen as it is first asked, and listens no more once the stop file stands
/// or 100,000 links were opened.
pub(crate) struct Lookout<'a, R> {
    watch: StopWatcher<'a, R>,
    alloc: Global,
    /// The port, before it listens.
    pub(crate) port: Option<u16>,
    poll: Option<Poll>,
    pub(crate) listener: Option<TcpListener>,
    events: Option<Events>,
    /// Which event of the last wait is next.
    at: usize,
    queue: Queue,
    /// How many connections were taken since the last wait.
    accepted: u32,
    /// How many looks for the stop file there were.
    looks: u64,
    /// How many links are still to be looked at for silence, and behind which number.
    unswept: usize,
    swept: usize,
}

impl<'a, R> Drop for Lookout<'a, R> {
    fn drop(self) {
        let Lookout {
            watch: _,
            alloc: _,
            port: _,
            poll: _,
            listener: _,
            events: _,
            at: _,
            queue: _,
            accepted: _,
            looks: _,
            unswept: _,
            swept: _,
        } = self;
    }
}

impl<'a, R: Files + rt::Clock + Net> Lookout<'a, R> {
    /// On 127.0.0.1 at the port.
    pub(crate) fn new(rt: &'a R, alloc: Global, port: u16) -> Self
        ensures { result.port ≡ Some port }
    {
        Lookout {
            watch: StopWatcher::new(rt),
            alloc,
            port: Some(port),
            poll: None,
            listener: None,
            events: None,
            at: 0,
            queue: Queue::Empty,
            accepted: 0,
            looks: 0,
            unswept: 0,
            swept: 0,
        }
    }

    /// Begins to listen, where it has not yet.
    pub(crate) fn listen(&mut self) -> io::Result<()> {
        let Some(port) = self.port.take() else {
            return Ok(());
        };
        let mut listener = TcpListener::bind(
            self.watch.rt,
            SocketAddr::new(IpAddr::V4(Ipv4Addr::LOCALHOST), port),
        )?;
        let poll = Poll::new(self.watch.rt)?;
        poll.registry()
            .register(&mut listener, DOOR, Interest::READABLE)?;
        let Ok(events) = Events::with_capacity(self.alloc, MAX_EVENTS) else {
            return Err(io::Error::from(ErrorKind::OutOfMemory));
        };
        self.poll = Some(poll);
        self.listener = Some(listener);
        self.events = Some(events);
        Ok(())
    }

    /// Where the streams of links are registered.
    pub(crate) fn registry(&self) -> Option<&Registry> {
        match &self.poll {
            Some(poll) => Some(poll.registry()),
            None => None,
        }
    }

    /// The next of the links to be looked at whose client was silent for too long.
    fn next_late(&mut self, ports: &[HostPort]) -> Option<u32>
        requires { length ports.now ≤ MAX_LINKS }
        ensures { IfSome result (λ k. (1 ≤ k) × (k ≤ length ports.now)) }
    {
        for _ in 0..MAX_SWEPT {
            if self.unswept == 0 || ports.is_empty() {
                return None;
            }
            self.unswept -= 1;
            let i = if self.swept < ports.len() {
                self.swept
            } else {
                0
            };
            self.swept = i + 1;
            if ports[i].is_late(self.looks) {
                return Some(i as u32 + 1);
            }
        }
        None
    }

    /// The next event of the last wait.
    fn take_event(&mut self) -> Option<Told> {
        let Some(events) = &self.events else {
            return None;
        };
        let event = events.iter().as_slice().get(self.at)?;
        self.at = self.at.saturating_add(1);
        Some(Told {
            token: event.token(),
            ended: event.is_read_closed() || event.is_write_closed() || event.is_error(),
            urgent: event.is_priority(),
        })
    }

    /// The link that has something to do by an event, if any has, and what is told of it.
    fn told_by(&mut self, told: Told, ports: &[HostPort]) -> Option<(u32, Sign)>
        requires { length ports.now ≤ MAX_LINKS }
        ensures { IfSome result (λ to. (1 ≤ to.0) × (to.0 ≤ length ports.now)) }
    {
        let link = told.token.0;
        if link == 0 {
            self.queue = Queue::Waiting;
            return None;
        }
        if link > ports.len() || ports[link - 1].conn.is_none() {
            return None;
        }
        let sign = Sign {
            ended: told.ended,
            urgent: told.urgent,
            late: false,
            looks: self.looks,
        };
        Some((link as u32, sign))
    }

    /// Has the system tell of a stream under a number.
    fn welcome(&mut self, mut stream: TcpStream, number: usize) -> io::Result<Box<Conn>> {
        let Some(poll) = &self.poll else {
            return Err(io::Error::from(ErrorKind::NotConnected));
        };
        // What is handed over is not to wait for more; a stream that can't be told so serves all
        // the same.
        let _ = stream.set_nodelay(true);
        poll.registry()
            .register(&mut stream, Token(number), all_ways())?;
        Conn::new(self.alloc, stream, self.looks)
    }

    /// The connection that waits, under a number; none where none does or enough were taken, and
    /// where one had to be dropped. An accept that failed for a reason that passes is tried again
    /// behind the next wait.
    fn next_conn(&mut self, number: usize) -> io::Result<Option<Box<Conn>>> {
        if self.queue != Queue::Waiting || self.accepted >= MAX_ACCEPTED {
            return Ok(None);
        }
        let Some(listener) = &self.listener else {
            self.queue = Queue::Empty;
            return Ok(None);
        };
        match listener.accept() {
            Ok((stream, _)) => {
                self.accepted += 1;
                Ok(self.welcome(stream, number).ok())
            }
            Err(fault) if fault.kind() == ErrorKind::WouldBlock => {
                self.queue = Queue::Empty;
                Ok(None)
            }
            Err(fault) if is_lasting(&fault) => Err(fault),
            Err(_) => {
                self.queue = Queue::Stuck;
                Ok(None)
            }
        }
    }

    /// Opens the link of a connection that waits, where it can be opened and the stop file does not
    /// stand. Where it can't, the connection waits on.
    fn next_fresh(&mut self, opened: usize, free: bool) -> io::Result<Option<NextTask>>
        requires { free ≡ true → opened < MAX_LINKS }
        ensures { IfOk result (λ found. IfSome found (FitsTask (free ≡ true) opened)) }
    {
        if !free {
            return Ok(None);
        }
        let Some(conn) = self.next_conn(opened + 1)? else {
            return Ok(None);
        };
        if is_stopped(self.watch.rt)? {
            return Ok(Some(NextTask::Stop));
        }
        if opened + 1 == MAX_LINKS {
            self.listener = None;
        }
        Ok(Some(NextTask::Fresh(conn)))
    }

    /// Waits for events, for a moment at most.
    fn wait(&mut self, free: bool) -> io::Result<()> {
        let (Some(poll), Some(events)) = (&mut self.poll, &mut self.events) else {
            return Err(io::Error::from(ErrorKind::NotConnected));
        };
        let millis = wait_millis(self.queue, free);
        poll.poll(events, Some(Duration::from_millis(millis)))?;
        self.at = 0;
        self.accepted = 0;
        if self.queue == Queue::Stuck {
            self.queue = Queue::Waiting;
        }
        Ok(())
    }

    /// One step: a look for the stop file where it is time, a link that was silent for too long, an
    /// event of the last wait, a connection where a link can be opened, or a wait.
    pub(crate) fn step(&mut self, ports: &[HostPort], free: bool) -> io::Result<Option<NextTask>>
        requires few { length ports.now ≤ MAX_LINKS }
        requires free { free ≡ true → length ports.now < MAX_LINKS }
        ensures { IfOk result
            (λ found. IfSome found (FitsTask (free ≡ true) (length ports.now))) }
    {
        if self.watch.is_due() {
            if is_stopped(self.watch.rt)? {
                return Ok(Some(NextTask::Stop));
            }
            self.looks = self.looks.saturating_add(1);
            self.unswept = ports.len().min(MAX_SWEPT);
        }
        if let Some(link) = self.next_late(ports) {
            let sign = Sign {
                ended: false,
                urgent: false,
                late: true,
                looks: self.looks,
            };
            return Ok(Some(NextTask::Link(link, sign)));
        }
        if let Some(told) = self.take_event() {
            return match self.told_by(told, ports) {
                Some((link, sign)) => Ok(Some(NextTask::Link(link, sign))),
                None => Ok(None),
            };
        }
        let fresh = self.next_fresh(ports.len(), free)?;
        if fresh.is_none() {
            self.wait(free)?;
        }
        Ok(fresh)
    }

    /// Listens no more.
    pub(crate) fn close(&mut self) {
        self.listener = None;
    }
}

//! Links and doors over TCP, on this machine alone.
ghost use Rattle.std.specs.Prelude.{◌≡◌, ◌<◌, ◌≤◌, None, Some, true, false, length, IfOk, IfSome};
ghost use Rattle.std.specs.Io.{ReadsAtMost};
ghost use Rattle.gt_io.specs.Links.{ReadsNothing, WritesNothing};

use crate::stop::{StopWatcher, is_lasting, is_over, is_stopped, must_stop, one_wait};
use gt_base::MAX_LINKS;
use gt_io::{Door, Failed, Link, MAX_HELD, count_end};
use std::alloc::Global;
use std::io;
use std::io::{ErrorKind, Read, Write};
use std::net::{Ipv4Addr, Net, Shutdown, TcpListener, TcpStream};
use std::os::fd::OwnedFd;
use std::rt::{self, Files};
use std::time::Duration;

/// How many waits in a row may bring no byte: the link of a client that is silent for ten minutes
/// is at its end.
const MAX_SILENT_WAITS: u32 = 2400;

/// How many waits in a row may take no byte: the link of a client that takes nothing for a minute
/// fails.
const MAX_STILL_WAITS: u32 = 240;

/// How many milliseconds pass before an accept that failed is tried again.
const PAUSE_MILLIS: u64 = 20;

/// How many milliseconds a door rests.
const REST_MILLIS: u64 = 50;

/// Reads some bytes. None come at the end, which is also where the stop file stands or the client
/// is silent for too long.
fn read_some<R: Files + rt::Clock>(
    rt: &R,
    stream: &mut TcpStream,
    buf: &mut [u8],
) -> io::Result<usize>
    ensures { ReadsAtMost result buf.new }
{
    for _ in 0..MAX_SILENT_WAITS {
        match stream.read(buf) {
            Ok(count) => return Ok(count),
            Err(fault) if is_over(&fault) => {
                if must_stop(rt) {
                    return Ok(0);
                }
            }
            Err(fault) => return Err(fault),
        }
    }
    Ok(0)
}

/// Writes some of the piece, at least a byte. It fails where the stop file stands, or where the
/// client takes nothing for too long.
fn write_some<R: Files + rt::Clock>(
    rt: &R,
    stream: &mut TcpStream,
    piece: &[u8],
) -> io::Result<usize>
    ensures { IfOk result (λ n. (0 < n) × (n ≤ length piece.now)) }
{
    for _ in 0..MAX_STILL_WAITS {
        match stream.write(piece) {
            Ok(0) => return Err(io::Error::from(ErrorKind::WriteZero)),
            Ok(count) => return Ok(count),
            Err(fault) if is_over(&fault) => {
                if must_stop(rt) {
                    return Err(fault);
                }
            }
            Err(fault) => return Err(fault),
        }
    }
    Err(io::Error::from(ErrorKind::TimedOut))
}

/// Writes the whole text. A write that takes a part has waited for the rest, so it looks for the
/// stop file then too.
fn write_text<R: Files + rt::Clock>(rt: &R, stream: &mut TcpStream, text: &[u8]) -> io::Result<()> {
    let mut rest = text;
    while !rest.is_empty() {
        let n = write_some(rt, stream, rest)?;
        rest = &rest[n..];
        if !rest.is_empty() && must_stop(rt) {
            return Err(io::Error::from(ErrorKind::TimedOut));
        }
    }
    Ok(())
}

/// A stream as a link. It tells nothing. What is written to it is held back and handed to the
/// stream in one piece before the link next waits for bytes, so that replies to lines that arrive
/// together leave together; and before, where much is held. A link that asks for bytes while the
/// stop file stands, or whose client is silent for ten minutes, is at its end. A stream that takes
/// nothing, fails to take what was held, or stands still for a minute or while the stop file
/// stands, is let go, which is a fault of the call that found it; what is left of a link that was
/// let go is nothing, and a write to it is a fault.
pub struct HostLink<'a, R> {
    watch: StopWatcher<'a, R>,
    stream: Option<TcpStream>,
    held: Vec<u8>,
    read_faults: u64,
    write_faults: u64,
    ends: u64,
    /// Whether it was let go.
    pub(crate) finished: bool,
}

impl<'a, R> Drop for HostLink<'a, R> {
    fn drop(self) {
        let HostLink {
            watch: _,
            stream: _,
            held: _,
            read_faults: _,
            write_faults: _,
            ends: _,
            finished: _,
        } = self;
    }
}

impl<'a, R: Files + rt::Clock> HostLink<'a, R> {
    /// A link over the stream, which holds nothing and takes no memory yet. Its waits are as long
    /// as the stream's.
    pub fn new(rt: &'a R, alloc: Global, stream: TcpStream) -> Self
        ensures stream { result.stream ≡ Some stream }
        ensures left { (⟦<HostLink<'a, R> as Link>⟧.traffic result).left ≡ None }
        ensures taken { (⟦<HostLink<'a, R> as Link>⟧.traffic result).taken ≡ None }
        ensures given { (⟦<HostLink<'a, R> as Link>⟧.traffic result).given ≡ None }
        ensures read_faults { (⟦<HostLink<'a, R> as Link>⟧.traffic result).read_faults ≡ 0 }
        ensures write_faults { (⟦<HostLink<'a, R> as Link>⟧.traffic result).write_faults ≡ 0 }
        ensures open { result.finished ≡ false }
    {
        HostLink {
            watch: StopWatcher::new(rt),
            stream: Some(stream),
            held: Vec::new(alloc),
            read_faults: 0,
            write_faults: 0,
            ends: 0,
            finished: false,
        }
    }

    /// Hands what is held to the stream. Where that fails, the stream is let go.
    fn hand_over(&mut self) -> Result<(), Failed>
        ensures read_faults { self.new.read_faults ≡ self.old.read_faults }
        ensures ends { self.new.ends ≡ self.old.ends }
        ensures write_faults { self.new.write_faults ≡ self.old.write_faults }
        ensures held { self.new.finished ≡ self.old.finished }
    {
        let handed = match &mut self.stream {
            Some(stream) => write_text(self.watch.rt, stream, &self.held).is_ok(),
            None => self.held.is_empty(),
        };
        self.held.clear();
        if handed {
            return Ok(());
        }
        self.stream = None;
        Err(Failed)
    }

    /// Hands over what is held, and waits for bytes. A client that is never silent sees the stop
    /// too.
    fn draw(&mut self, buf: &mut [u8]) -> Result<usize, Failed>
        ensures bound { IfOk result (λ n. n ≤ length buf.new) }
        ensures read_faults { self.new.read_faults ≡ self.old.read_faults }
        ensures ends { self.new.ends ≡ self.old.ends }
        ensures write_faults { self.new.write_faults ≡ self.old.write_faults }
        ensures held { self.new.finished ≡ self.old.finished }
    {
        self.hand_over()?;
        let Some(stream) = &mut self.stream else {
            return Ok(0);
        };
        if self.watch.sees_stop() {
            return Ok(0);
        }
        match read_some(self.watch.rt, stream, buf) {
            Ok(count) => Ok(count),
            Err(_) => Err(Failed),
        }
    }

    /// Holds the piece back, or hands it over with what is held where there is no room for it.
    fn take(&mut self, piece: &[u8]) -> Result<(), Failed>
        ensures read_faults { self.new.read_faults ≡ self.old.read_faults }
        ensures ends { self.new.ends ≡ self.old.ends }
        ensures write_faults { self.new.write_faults ≡ self.old.write_faults }
        ensures held { self.new.finished ≡ self.old.finished }
    {
        if self.stream.is_none() {
            return Err(Failed);
        }
        if self.held.len() >= MAX_HELD {
            self.hand_over()?;
        }
        match self.held.extend_from_slice(piece) {
            Ok(()) => Ok(()),
            Err(_) => self.pass_on(piece),
        }
    }

    /// Hands over what is held, and then the piece.
    fn pass_on(&mut self, piece: &[u8]) -> Result<(), Failed>
        ensures read_faults { self.new.read_faults ≡ self.old.read_faults }
        ensures ends { self.new.ends ≡ self.old.ends }
        ensures write_faults { self.new.write_faults ≡ self.old.write_faults }
        ensures held { self.new.finished ≡ self.old.finished }
    {
        self.hand_over()?;
        if let Some(stream) = &mut self.stream {
            if write_text(self.watch.rt, stream, piece).is_ok() {
                return Ok(());
            }
        }
        self.stream = None;
        Err(Failed)
    }
}

impl<'a, R: Files + rt::Clock> Link for HostLink<'a, R> {
    ghost traffic = { λ l. record {
      left = None;
      taken = None;
      given = None;
      read_faults = l.read_faults;
      write_faults = l.write_faults;
      ends = l.ends;
      finished = l.finished;
    } };

    fn read(&mut self, buf: &mut [u8]) -> Result<usize, Failed> {
        match self.draw(buf) {
            Ok(count) => {
                self.ends = count_end(self.ends, count);
                Ok(count)
            }
            Err(fault) => {
                self.read_faults = self.read_faults.saturating_add(1);
                Err(fault)
            }
        }
    }

    fn write(&mut self, piece: &[u8]) -> Result<usize, Failed> {
        match self.take(piece) {
            Ok(()) => Ok(piece.len()),
            Err(fault) => {
                self.write_faults = self.write_faults.saturating_add(1);
                Err(fault)
            }
        }
    }

    /// Hands over what is held, tells the client that no more comes, and drops the stream.
    fn finish(&mut self)
        ensures reads { ReadsNothing (⟦<HostLink<'a, R> as Link>⟧.traffic self.old)
            (⟦<HostLink<'a, R> as Link>⟧.traffic self.new) }
        ensures writes { WritesNothing (⟦<HostLink<'a, R> as Link>⟧.traffic self.old)
            (⟦<HostLink<'a, R> as Link>⟧.traffic self.new) }
        ensures dropped { self.new.stream ≡ None }
        ensures finished { self.new.finished ≡ true }
    {
        let _ = self.hand_over();
        if let Some(stream) = &self.stream {
            // Where bytes of the client are left unread, it would else be told of a reset before it
            // has read its last replies.
            let _ = stream.shutdown(Shutdown::Write);
        }
        self.stream = None;
        self.held = Vec::new(*self.held.allocator());
        self.finished = true;
    }
}

/// Has each wait of a socket end soon.
fn limit(stream: &TcpStream) -> io::Result<()> {
    stream.set_read_timeout(Some(one_wait()))?;
    stream.set_write_timeout(Some(one_wait()))
}

/// Has each wait of a listener end soon; an accept has the time that a read has.
fn limited(listener: TcpListener) -> io::Result<TcpListener> {
    let socket = TcpStream::from(OwnedFd::from(listener));
    limit(&socket)?;
    Ok(TcpListener::from(OwnedFd::from(socket)))
}

/// The next connection; none once the stop file stands. An accept that failed for a reason that
/// passes is tried again.
fn accept<R: Files + rt::Clock>(rt: &R, listener: &TcpListener) -> io::Result<Option<TcpStream>> {
    for _ in 0..u64::MAX {
        if is_stopped(rt)? {
            return Ok(None);
        }
        match listener.accept() {
            Ok((stream, _)) => {
                if is_stopped(rt)? {
                    return Ok(None);
                }
                // A stream whose waits can't be limited would hold up a stop, and is dropped.
                if limit(&stream).is_ok() {
                    return Ok(Some(stream));
                }
            }
            Err(fault) if is_over(&fault) => {}
            Err(fault) if is_lasting(&fault) => return Err(fault),
            Err(_) => rt.sleep(Duration::from_millis(PAUSE_MILLIS)),
        }
    }
    Ok(None)
}

/// A listener on a port of this machine as a door. It tells nothing. It begins to listen as it is
/// first asked, so a door that nobody asks has no clients. It gives none where the stop file stands
/// as it begins to wait, as it waits, or as a connection has come, which is then dropped. Where the
/// listener could not be made, it fails. A door that gave none, has failed, gave its 100,000th
/// connection or was closed listens no more, so that clients are refused. It rests for 50 ms, or
/// not at all where the stop file stands.
#[derive(Drop)]
pub struct HostDoor<'a, R> {
    rt: &'a R,
    alloc: Global,
    /// The port, before it listens.
    port: Option<u16>,
    pub(crate) listener: Option<TcpListener>,
    given: usize,
    faults: u64,
    ends: u64,
    closed: bool,
}

impl<'a, R: Files + rt::Clock + Net<Listener = TcpListener, Stream = TcpStream>> HostDoor<'a, R> {
    /// A door on 127.0.0.1 at the port.
    pub fn new(rt: &'a R, alloc: Global, port: u16) -> Self
        ensures port { result.port ≡ Some port }
        ensures doorway { ⟦<HostDoor<'a, R> as Door>⟧.doorway result
            ≡ record {
              links = None;
              tally = record { faults = 0; ends = 0 };
              closed = false;
            } }
    {
        HostDoor {
            rt,
            alloc,
            port: Some(port),
            listener: None,
            given: 0,
            faults: 0,
            ends: 0,
            closed: false,
        }
    }

    /// Begins to listen, where it has not yet.
    pub(crate) fn listen(&mut self) -> io::Result<()>
        ensures same { ⟦<HostDoor<'a, R> as Door>⟧.doorway self.new
            ≡ ⟦<HostDoor<'a, R> as Door>⟧.doorway self.old }
    {
        if let Some(port) = self.port.take() {
            let listener = TcpListener::bind(self.rt, (Ipv4Addr::LOCALHOST, port))?;
            self.listener = Some(limited(listener)?);
        }
        Ok(())
    }

    /// The next connection; none where the stop file stands before the wait, in it or after it.
    fn accepted(&mut self) -> io::Result<Option<HostLink<'a, R>>>
        ensures same { ⟦<HostDoor<'a, R> as Door>⟧.doorway self.new
            ≡ ⟦<HostDoor<'a, R> as Door>⟧.doorway self.old }
        ensures open { IfOk result (λ next. IfSome next (λ link. link.finished ≡ false)) }
    {
        if is_stopped(self.rt)? {
            return Ok(None);
        }
        self.listen()?;
        let Some(listener) = &self.listener else {
            return Err(io::Error::from(ErrorKind::NotConnected));
        };
        let Some(stream) = accept(self.rt, listener)? else {
            return Ok(None);
        };
        // What is handed over is not to wait for more; a stream that can't be told so serves all
        // the same.
        let _ = stream.set_nodelay(true);
        Ok(Some(HostLink::new(self.rt, self.alloc, stream)))
    }

    /// Counts a connection, and listens no more where it is the last.
    fn count(&mut self)
        ensures same { ⟦<HostDoor<'a, R> as Door>⟧.doorway self.new
            ≡ ⟦<HostDoor<'a, R> as Door>⟧.doorway self.old }
    {
        self.given = self.given.saturating_add(1);
        if self.given >= MAX_LINKS {
            self.listener = None;
        }
    }
}

impl<'a, R: Files + rt::Clock + Net<Listener = TcpListener, Stream = TcpStream>> Door
    for HostDoor<'a, R> {
    type L = HostLink<'a, R>;

    ghost doorway = { λ d. record {
      links = None;
      tally = record { faults = d.faults; ends = d.ends };
      closed = d.closed;
    } };

    /// The next connection; none where the server is to stop, after which the port is closed.
    fn next(&mut self) -> Result<Option<HostLink<'a, R>>, Failed> {
        match self.accepted() {
            Ok(Some(link)) => {
                self.count();
                Ok(Some(link))
            }
            Ok(None) => {
                self.listener = None;
                self.ends = self.ends.saturating_add(1);
                Ok(None)
            }
            Err(_) => {
                self.listener = None;
                self.faults = self.faults.saturating_add(1);
                Err(Failed)
            }
        }
    }

    fn rest(&mut self) {
        if !must_stop(self.rt) {
            self.rt.sleep(Duration::from_millis(REST_MILLIS));
        }
    }

    fn close(&mut self)
        ensures doorway { ⟦<HostDoor<'a, R> as Door>⟧.doorway self.new
            ≡ record (⟦<HostDoor<'a, R> as Door>⟧.doorway self.old) { closed = true } }
        ensures dropped { (self.new.port ≡ None) × (self.new.listener ≡ None) }
    {
        self.port = None;
        self.listener = None;
        self.closed = true;
    }
}

//! The stream of a link that is served beside others: no call on it waits.
ghost use Rattle.std.specs.Prelude.{◌≡◌, ◌<◌, ◌≤◌, true, false, length, vec_len, IfOk};
ghost use Rattle.gt_io.specs.Ports.{FitsGot, FitsTook};
ghost use Rattle.mio.specs.Interest.{is_readable, is_writable, is_priority};

use gt_io::{Got, Took};
use mio::net::TcpStream;
use mio::{Interest, Registry, Token};
use std::alloc::Global;
use std::io;
use std::io::{ErrorKind, Read, Write};
use std::net::Shutdown;

/// How many bytes of replies are held back at most, but for the last one.
const MOST_HELD: usize = 16_384;

/// How many bytes are read from a link before the others have their turn.
const MAX_AT_ONCE: usize = 4096;

/// How many looks for the stop file a client may be silent for, four in a second: the link of one
/// that is silent for ten minutes is at its end.
const MAX_LOOKS: u64 = 2400;

/// What is told of a link that has something to do.
#[derive(Clone, Copy)]
pub(crate) struct Sign {
    /// Its peer has ended it, in one direction at least, or it broke.
    pub(crate) ended: bool,
    /// An urgent byte of its client is not passed yet, and a read ends before that.
    pub(crate) urgent: bool,
    /// Its client was silent for too long.
    pub(crate) late: bool,
    /// How many looks there were.
    pub(crate) looks: u64,
}

/// A stream, and the replies that are held back. They are handed over before bytes are read, so
/// that replies to lines that arrive together leave together; and before, where much is held.
pub(crate) struct Conn {
    stream: TcpStream,
    held: Vec<u8>,
    /// How many bytes of those held were handed over.
    handed: usize,
    /// How many bytes were read in this turn.
    read: usize,
    /// The last read took all that had come, so whatever comes then is told anew. One that came
    /// short has, unless the link has ended or an urgent byte was told.
    dry: bool,
    ended: bool,
    urgent: bool,
    late: bool,
    /// How many looks there were as it last had something to do.
    heard: u64,
    ghost within: { handed ≤ vec_len held },
    ghost sure: { dry ≡ true → (ended ≡ false) × (urgent ≡ false) },
}

impl Drop for Conn {
    fn drop(self) {
        let Conn {
            stream: _,
            held: _,
            handed: _,
            read: _,
            dry: _,
            ended: _,
            urgent: _,
            late: _,
            heard: _,
        } = self;
    }
}

/// Reading and writing, and urgent bytes.
pub(crate) fn all_ways() -> Interest
    ensures reads { is_readable result ≡ true }
    ensures writes { is_writable result ≡ true }
    ensures urgent { is_priority result ≡ true }
{
    Interest::READABLE | Interest::WRITABLE | Interest::PRIORITY
}

/// Writes what the stream takes at once, and answers how many bytes that were.
fn write_now(stream: &mut TcpStream, text: &[u8]) -> io::Result<usize>
    ensures { IfOk result (λ n. n ≤ length text.now) }
{
    let mut rest = text;
    while !rest.is_empty() {
        match stream.write(rest) {
            Ok(0) => return Err(io::Error::from(ErrorKind::WriteZero)),
            Ok(n) => rest = &rest[n..],
            Err(fault) if fault.kind() == ErrorKind::WouldBlock => break,
            Err(fault) => return Err(fault),
        }
    }
    Ok(text.len() - rest.len())
}

impl Conn {
    /// Of a stream that just came, which holds nothing.
    pub(crate) fn new(alloc: Global, stream: TcpStream, looks: u64) -> io::Result<Box<Conn>> {
        let conn = Conn {
            stream,
            held: Vec::new(alloc),
            handed: 0,
            read: 0,
            dry: false,
            ended: false,
            urgent: false,
            late: false,
            heard: looks,
        };
        match Box::new(alloc, conn) {
            Ok(conn) => Ok(conn),
            Err(_) => Err(io::Error::from(ErrorKind::OutOfMemory)),
        }
    }

    /// Whether its client was silent for too long.
    pub(crate) fn is_late(&self, looks: u64) -> bool {
        looks.saturating_sub(self.heard) > MAX_LOOKS
    }

    /// Begins a turn.
    pub(crate) fn wake(&mut self, sign: Sign) {
        self.read = 0;
        self.dry = false;
        self.ended = self.ended || sign.ended;
        self.urgent = sign.urgent;
        self.late = self.late || sign.late;
        self.heard = sign.looks;
    }

    /// Hands over what is held, as far as the stream takes it, and answers whether that was all.
    fn hand_over(&mut self) -> io::Result<bool> {
        let (_, rest) = self.held.split_at(self.handed);
        self.handed += write_now(&mut self.stream, rest)?;
        if self.handed < self.held.len() {
            return Ok(false);
        }
        self.held.clear();
        self.handed = 0;
        Ok(true)
    }

    /// Reads some bytes, behind the replies that are held.
    pub(crate) fn draw(
        &mut self,
        registry: Option<&Registry>,
        link: u32,
        buf: &mut [u8],
    ) -> io::Result<Got>
        requires { 0 < length buf.old }
        ensures { IfOk result (FitsGot (length buf.new)) }
    {
        let clear = self.hand_over()?;
        if self.late {
            return Ok(Got::Finished);
        }
        if !clear || self.dry {
            return Ok(Got::NotYet);
        }
        if self.read >= MAX_AT_ONCE {
            return self.give_way(registry, link);
        }
        match self.stream.read(buf) {
            Ok(0) => Ok(Got::Finished),
            Ok(n) => {
                self.read = self.read.saturating_add(n);
                self.dry = n < buf.len() && !self.ended && !self.urgent;
                Ok(Got::Bytes(n))
            }
            Err(fault) if fault.kind() == ErrorKind::WouldBlock => Ok(Got::NotYet),
            Err(fault) => Err(fault),
        }
    }

    /// Ends a turn in which much was read: what is left is told anew behind what others have to do.
    fn give_way(&mut self, registry: Option<&Registry>, link: u32) -> io::Result<Got>
        ensures { IfOk result (FitsGot 1) }
    {
        let Some(registry) = registry else {
            return Err(io::Error::from(ErrorKind::NotConnected));
        };
        registry.reregister(&mut self.stream, Token(link as usize), all_ways())?;
        Ok(Got::NotYet)
    }

    /// Holds the piece back, where there is room for it.
    pub(crate) fn take(&mut self, piece: &[u8]) -> io::Result<Took>
        requires { 0 < length piece.now }
        ensures { IfOk result (FitsTook (length piece.now)) }
    {
        if self.held.len() >= MOST_HELD && !self.hand_over()? {
            return self.not_yet();
        }
        match self.held.extend_from_slice(piece) {
            Ok(()) => Ok(Took::Bytes(piece.len())),
            Err(_) => self.pass_on(piece),
        }
    }

    /// The stream takes nothing now. One whose client was silent for too long fails.
    fn not_yet(&self) -> io::Result<Took>
        ensures { IfOk result (λ took. took ≡ Took.NotYet) }
    {
        if self.late {
            return Err(io::Error::from(ErrorKind::TimedOut));
        }
        Ok(Took::NotYet)
    }

    /// Hands over what is held, and then the piece.
    fn pass_on(&mut self, piece: &[u8]) -> io::Result<Took>
        requires { 0 < length piece.now }
        ensures { IfOk result (FitsTook (length piece.now)) }
    {
        if !self.hand_over()? {
            return self.not_yet();
        }
        match write_now(&mut self.stream, piece)? {
            0 => self.not_yet(),
            n => Ok(Took::Bytes(n)),
        }
    }

    /// Hands over what the stream takes at once, and tells the client that no more comes.
    pub(crate) fn end(&mut self) {
        let _ = self.hand_over();
        // Where bytes of the client are left unread, it would else be told of a reset before it has
        // read its last replies.
        let _ = self.stream.shutdown(Shutdown::Write);
    }
}

//! Many connections at one place: which of them has something to do, and what goes over each.
ghost use Rattle.std.specs.Prelude.{◌≡◌, ◌<◌, length};
ghost use Rattle.gt_io.specs.Causes.{FailsOnce};
ghost use Rattle.gt_io.specs.Ports.{Harbour, IsOpen, NoneOwed, AreFinished, Nexts, ReadsPort, WritesPort, Finishes, ends_by};

use crate::source::Failed;

/// What happens next.
#[derive(Clone, Copy, PartialEq, Eq)]
pub enum PortEvent {
    /// A link was opened. Links are numbered from 1 in this order.
    Opened(u32),
    /// A link may have something to read, or room to write. It may have neither.
    Ready(u32),
    /// There is nothing more to do.
    Stop,
}

/// What a read gave.
#[derive(Clone, Copy, PartialEq, Eq)]
pub enum Got {
    /// So many bytes, at least one.
    Bytes(usize),
    /// The link has no bytes left.
    Finished,
    /// Nothing yet; the link will be ready again.
    NotYet,
}

/// What a write took.
#[derive(Clone, Copy, PartialEq, Eq)]
pub enum Took {
    /// So many bytes, at least one.
    Bytes(usize),
    /// Nothing yet; the link will be ready again.
    NotYet,
}

/// The last read or write of a link, with its answer.
#[derive(Clone, Copy, PartialEq, Eq)]
pub enum Called {
    /// Neither was called.
    Nothing,
    Read(Result<Got, Failed>),
    Wrote(Result<Took, Failed>),
}

/// How often calls have failed, behind one with this answer, up to the end of its type.
pub fn count_fault<T>(faults: u64, answer: &Result<T, Failed>) -> u64
    ensures { FailsOnce faults result answer.now }
{
    match answer {
        Ok(_) => faults,
        Err(_) => faults.saturating_add(1),
    }
}

/// How often reads have told the end of a link, behind one with this answer, up to the end of its
/// type.
pub fn count_finished(ends: u64, answer: Result<Got, Failed>) -> u64
    ensures { result ≡ ends_by answer ends }
{
    match answer {
        Ok(Got::Bytes(_)) => ends,
        Ok(Got::Finished) => ends.saturating_add(1),
        Ok(Got::NotYet) => ends,
        Err(_) => ends,
    }
}

/// Links that are served side by side. There is one count of faults, and each call raises it by one
/// where it fails, and nothing else does. So does a read that tells the end of a link, and nothing
/// else, with the one count of ends.
pub trait Ports {
    /// What is told of the links.
    ghost harbour: { Self → Harbour };

    /// What happens next. A link that was ready was read or written until it answered that there is
    /// nothing yet, and one that has come to its end was let go.
    fn next(&mut self) -> Result<PortEvent, Failed>
        requires unowed { NoneOwed (harbour self.old) }
        requires finished { AreFinished (harbour self.old) }
        ensures { Nexts (harbour self.old) (harbour self.new) result };

    /// Reads some bytes of an open link.
    fn read(&mut self, link: u32, buf: &mut [u8]) -> Result<Got, Failed>
        requires open { IsOpen (harbour self.old) link }
        requires buf { 0 < length buf.old }
        ensures { ReadsPort (harbour self.old) (harbour self.new) link buf.new result };

    /// Writes some of the piece to an open link.
    fn write(&mut self, link: u32, piece: &[u8]) -> Result<Took, Failed>
        requires open { IsOpen (harbour self.old) link }
        requires piece { 0 < length piece.now }
        ensures { WritesPort (harbour self.old) (harbour self.new) link piece.now result };

    /// Lets an open link go.
    fn finish(&mut self, link: u32)
        requires { IsOpen (harbour self.old) link }
        ensures { Finishes (harbour self.old) (harbour self.new) link };
}

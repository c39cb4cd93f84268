//! Playing the cases of a text, and the report on them.
ghost use Rattle.std.specs.Prelude.{◌≡◌, ◌↔◌, IsTrue};

use crate::cases::{Case, CaseLine, Fault, read_line, take_in};
use gt_text::{Lines, push_number};
use std::alloc::{AllocError, Global};

/// The most bytes of a text that a report shows.
const SHOWN: usize = 2_000;

/// How a run ended.
#[derive(Drop)]
pub struct Ended {
    pub status: u8,
    pub text: Vec<u8>,
}

/// Runs cases.
pub trait Player {
    /// Runs a case to its end. An error is want of memory for the case itself.
    fn play(&mut self, alloc: Global, case: &Case) -> Result<Ended, AllocError>;
}

/// What was said so far, how many cases were played, and how many of them did not end as they were
/// to.
#[derive(Drop)]
pub struct CaseReport {
    pub text: Vec<u8>,
    pub played: u64,
    pub failed: u64,
}

/// Whether a run ended with the status and the text that were wanted.
pub(crate) fn agrees(wanted: u8, replies: &[u8], status: u8, text: &[u8]) -> bool
    ensures { IsTrue result ↔ ((status ≡ wanted) × (text.now ≡ replies.now)) }
{
    status == wanted && text == replies
}

/// Adds a line.
fn put_line(into: &mut Vec<u8>, begin: &[u8], line: &[u8]) -> Result<(), AllocError> {
    into.extend_from_slice(begin)?;
    into.extend_from_slice(line)?;
    into.extend_from_slice(b"\n")
}

/// Adds a status with the front of a text, each line of it behind four spaces.
fn put_end(into: &mut Vec<u8>, what: &[u8], status: u8, text: &[u8]) -> Result<(), AllocError> {
    into.extend_from_slice(what)?;
    push_number(into, u64::from(status))?;
    into.extend_from_slice(b"\n")?;
    for line in text[..text.len().min(SHOWN)].split(|b| *b == b'\n') {
        put_line(into, b"    ", line)?;
    }
    Ok(())
}

/// Adds what is said of a case that ended: its name, and where it did not end as it was to, what
/// was wanted and what came.
fn put_verdict(
    into: &mut Vec<u8>,
    case: &Case,
    ended: &Ended,
    good: bool,
) -> Result<(), AllocError> {
    if good {
        return put_line(into, b"ok ", &case.name);
    }
    put_line(into, b"FAILED ", &case.name)?;
    put_end(into, b"  wanted status ", case.status, &case.replies)?;
    put_end(into, b"  got status ", ended.status, &ended.text)
}

impl CaseReport {
    /// A report on nothing.
    pub fn new(alloc: Global) -> CaseReport {
        CaseReport {
            text: Vec::new(alloc),
            played: 0,
            failed: 0,
        }
    }

    /// Reports on how a case ended.
    fn judge(&mut self, case: &Case, ended: &Ended) -> Result<(), AllocError> {
        let good = agrees(case.status, &case.replies, ended.status, &ended.text);
        self.played = self.played.saturating_add(1);
        if !good {
            self.failed = self.failed.saturating_add(1);
        }
        put_verdict(&mut self.text, case, ended, good)
    }

    /// Plays the case that was read, where one was begun, and reports on it.
    fn close<P: Player>(
        &mut self,
        alloc: Global,
        player: &mut P,
        case: &Case,
    ) -> Result<(), AllocError> {
        if case.name.is_empty() {
            return Ok(());
        }
        let ended = player.play(alloc, case)?;
        self.judge(case, &ended)
    }

    /// Takes a line of a file in: it begins a new case, or says more of the case that was begun
    /// last.
    fn go_on<P: Player>(
        &mut self,
        alloc: Global,
        player: &mut P,
        case: &mut Case,
        line: &[u8],
    ) -> Result<(), Fault> {
        match read_line(line) {
            CaseLine::Case(name) => {
                self.close(alloc, player, case)?;
                *case = Case::new(alloc, name)?;
                Ok(())
            }
            said => take_in(case, said),
        }
    }

    /// Reports that a line of a file, or with the number 0 the file, could not be read; it counts
    /// as a case that failed.
    pub fn put_unread(&mut self, file: &[u8], number: u64) -> Result<(), AllocError> {
        self.failed = self.failed.saturating_add(1);
        self.text.extend_from_slice(b"UNREAD line ")?;
        push_number(&mut self.text, number)?;
        put_line(&mut self.text, b" of ", file)
    }

    /// Plays the cases of a text, the contents of a file.
    pub fn play_text<P: Player>(
        &mut self,
        alloc: Global,
        player: &mut P,
        file: &[u8],
        text: &[u8],
    ) -> Result<(), AllocError> {
        let mut case = Case::new(alloc, b"")?;
        let mut number: u64 = 0;
        for line in Lines::new(text) {
            number = number.saturating_add(1);
            match self.go_on(alloc, player, &mut case, line) {
                Ok(()) => {}
                Err(Fault::Line) => self.put_unread(file, number)?,
                Err(Fault::Memory) => return Err(AllocError),
            }
        }
        self.close(alloc, player, &case)
    }

    /// Says at the end how many cases were played, and how many of them failed.
    pub fn put_count(&mut self) -> Result<(), AllocError> {
        push_number(&mut self.text, self.played)?;
        self.text.extend_from_slice(b" cases, ")?;
        push_number(&mut self.text, self.failed)?;
        self.text.extend_from_slice(b" failed\n")
    }
}

//! Cases of runs, as they stand in a file of text.
//!
//! A case begins with a line `case NAME`, and these lines say more of it, in any order:
//!
//! - `words WORD ..`: the words of the command, `run P` where they are left out; `''` is an empty
//!   word;
//! - `status N`: the status that is wanted, 0 where it is left out;
//! - `policy`, `script`, `replies`: the lines behind belong to the policy with the name `P`, to the
//!   script, or to the text that is wanted; each is empty where it is left out;
//! - a line that begins with four spaces: a line of that text;
//! - `lines FROM TO TEXT`: a line of that text for each number from FROM to TO, up or down, with
//!   the number in place of `{i}`, and so much more or less in place of `{i+1}` to `{i+9}` and
//!   `{i-1}` to `{i-9}`;
//! - `joined FROM TO TEXT`: the same without line ends; `text TEXT`: the text of number 1 alone,
//!   without a line end;
//! - `room N`: the output takes N bytes; `shelf fails N`, `input fails N`, `output fails N`: its
//!   call number N fails.
//!
//! In these texts a backslash names a byte (`texts.rt`). Lines that are empty or begin with `#` say
//! nothing.

use crate::texts::{Repeated, add_repeated, add_text};
use gt_text::{Words, read_between};
use std::alloc::{AllocError, Global};

/// A line says nothing of a case, or there was no memory.
#[derive(Clone, Copy)]
pub(crate) enum Fault {
    Memory,
    Line,
}

impl From<AllocError> for Fault {
    fn from(_: AllocError) -> Fault {
        Fault::Memory
    }
}

/// The text of a case to which lines are added.
#[derive(Clone, Copy)]
pub(crate) enum CasePart {
    Policy,
    Script,
    Replies,
}

/// An object whose call is to fail.
#[derive(Clone, Copy)]
pub(crate) enum Failing {
    Shelf,
    Input,
    Output,
}

/// What a line says.
#[derive(Clone, Copy)]
pub(crate) enum CaseLine<'a> {
    Nothing,
    Unread,
    Case(&'a [u8]),
    Words(&'a [u8]),
    Status(u8),
    Of(CasePart),
    Text(&'a [u8]),
    Repeated(Repeated<'a>),
    Room(u32),
    Fails(Failing, u32),
}

/// A run of the program and how it is to end.
#[derive(Drop)]
pub struct Case {
    pub name: Vec<u8>,
    pub words: Vec<String>,
    pub policy: Vec<u8>,
    pub script: Vec<u8>,
    pub replies: Vec<u8>,
    pub status: u8,
    pub room: u32,
    pub shelf_fails: u32,
    pub input_fails: u32,
    pub output_fails: u32,
    part: CasePart,
}

/// The room of an output where none is said.
const ROOM: u32 = 4_194_304;

impl Case {
    /// A run over empty texts, which is to end without a text.
    pub fn new(alloc: Global, name: &[u8]) -> Result<Case, AllocError> {
        let words = vec![in alloc;
            String::from_str(alloc, "run")?,
            String::from_str(alloc, "P")?,
        ]?;
        Ok(Case {
            name: name.to_vec(alloc)?,
            words,
            policy: Vec::new(alloc),
            script: Vec::new(alloc),
            replies: Vec::new(alloc),
            status: 0,
            room: ROOM,
            shelf_fails: 0,
            input_fails: 0,
            output_fails: 0,
            part: CasePart::Policy,
        })
    }
}

/// The bytes before the first space and those behind it; all of them and none where there is no
/// space.
fn cut(line: &[u8]) -> (&[u8], &[u8]) {
    let Some(at) = line.iter().position(|b| *b == b' ') else {
        return (line, &[]);
    };
    let (word, rest) = line.split_at(at);
    match rest {
        [_, more @ ..] => (word, more),
        [] => (word, &[]),
    }
}

/// The status that is wanted, 0 to 255.
fn read_status(text: &[u8]) -> CaseLine<'_> {
    match read_between(0, 255, text) {
        Some(n) => CaseLine::Status(n as u8),
        None => CaseLine::Unread,
    }
}

/// A line that stands for lines: the two bounds of its `{i}`, and its text behind them.
fn read_repeated<'a>(text: &'a [u8], end: &'a [u8]) -> CaseLine<'a> {
    let (from, rest) = cut(text);
    let (to, text) = cut(rest);
    match (
        read_between(0, 20_000_000, from),
        read_between(0, 20_000_000, to),
    ) {
        (Some(from), Some(to)) => CaseLine::Repeated(Repeated {
            from,
            to,
            text,
            end,
        }),
        _ => CaseLine::Unread,
    }
}

/// `fails N`: the call of this side that is to fail, from 1; 0 is none.
fn read_fails(failing: Failing, text: &[u8]) -> CaseLine<'_> {
    match cut(text) {
        (b"fails", number) => match read_between(0, 20_000_000, number) {
            Some(n) => CaseLine::Fails(failing, n),
            None => CaseLine::Unread,
        },
        _ => CaseLine::Unread,
    }
}

/// How many bytes the output takes before it fails.
fn read_room(text: &[u8]) -> CaseLine<'_> {
    match read_between(0, ROOM, text) {
        Some(n) => CaseLine::Room(n),
        None => CaseLine::Unread,
    }
}

/// The head of a part, which stands alone on its line.
fn read_part(part: CasePart, rest: &[u8]) -> CaseLine<'_> {
    if rest.is_empty() {
        CaseLine::Of(part)
    } else {
        CaseLine::Unread
    }
}

/// What a line with a first word says.
fn read_words<'a>(word: &'a [u8], rest: &'a [u8]) -> CaseLine<'a> {
    match word {
        b"case" => CaseLine::Case(rest),
        b"words" => CaseLine::Words(rest),
        b"status" => read_status(rest),
        b"policy" => read_part(CasePart::Policy, rest),
        b"script" => read_part(CasePart::Script, rest),
        b"replies" => read_part(CasePart::Replies, rest),
        b"lines" => read_repeated(rest, b"\n"),
        b"joined" => read_repeated(rest, b""),
        b"text" => CaseLine::Repeated(Repeated {
            from: 1,
            to: 1,
            text: rest,
            end: b"",
        }),
        b"room" => read_room(rest),
        b"shelf" => read_fails(Failing::Shelf, rest),
        b"input" => read_fails(Failing::Input, rest),
        b"output" => read_fails(Failing::Output, rest),
        _ => CaseLine::Unread,
    }
}

/// What a line says.
pub(crate) fn read_line(line: &[u8]) -> CaseLine<'_> {
    match line {
        [] | [b'#', ..] => CaseLine::Nothing,
        [b' ', b' ', b' ', b' ', text @ ..] => CaseLine::Text(text),
        _ => {
            let (word, rest) = cut(line);
            read_words(word, rest)
        }
    }
}

impl Case {
    /// The text that the lines at hand are added to.
    fn text(&mut self) -> &mut Vec<u8> {
        match self.part {
            CasePart::Policy => &mut self.policy,
            CasePart::Script => &mut self.script,
            CasePart::Replies => &mut self.replies,
        }
    }

    /// Notes which call of one side is to fail.
    fn fail(&mut self, failing: Failing, call: u32) {
        match failing {
            Failing::Shelf => self.shelf_fails = call,
            Failing::Input => self.input_fails = call,
            Failing::Output => self.output_fails = call,
        }
    }
}

/// Adds a word of the command.
fn add_word(words: &mut Vec<String>, word: String) -> Result<(), AllocError> {
    words.push(word)?;
    Ok(())
}

/// The words of a command.
fn words_of(alloc: Global, text: &[u8]) -> Result<Vec<String>, Fault> {
    let mut words = Vec::new(alloc);
    for word in Words::new(text) {
        let bytes = if word == b"''".as_slice() {
            Vec::new(alloc)
        } else {
            word.to_vec(alloc)?
        };
        let Ok(word) = String::from_utf8(bytes) else {
            return Err(Fault::Line);
        };
        add_word(&mut words, word)?;
    }
    Ok(words)
}

/// Takes in what a line says of a case.
pub(crate) fn take_in(case: &mut Case, said: CaseLine<'_>) -> Result<(), Fault> {
    match said {
        CaseLine::Nothing => {}
        CaseLine::Unread | CaseLine::Case(_) => return Err(Fault::Line),
        CaseLine::Words(text) => case.words = words_of(*case.name.allocator(), text)?,
        CaseLine::Status(n) => case.status = n,
        CaseLine::Of(part) => case.part = part,
        CaseLine::Text(text) => {
            add_text(case.text(), text)?;
            case.text().extend_from_slice(b"\n")?;
        }
        CaseLine::Repeated(repeated) => add_repeated(case.text(), &repeated)?,
        CaseLine::Room(n) => case.room = n,
        CaseLine::Fails(failing, call) => case.fail(failing, call),
    }
    Ok(())
}

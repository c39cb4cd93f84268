//! A shelf in memory.
ghost use Rattle.std.specs.Prelude.{◌≡◌, ◌<◌, ◌≤◌, if◌then◌else◌, length, None, Some, IsSome, IfNone, IfSome, OnOk};
ghost use Rattle.std.specs.Io.{ReadsAtMost};
ghost use Rattle.std.specs.Io.KnownBytes.{ReadConsumes};
ghost use Rattle.gt_io.specs.Causes.{AtMostOnce, CountsEnd, HasCause};
ghost use Rattle.gt_io.specs.Shelf.{HasFindCause};
ghost use Rattle.gt_io.specs.Memory.{one_more, fails_next};
ghost use Rattle.gt_io.specs.MemoryShelf.{asked_for, broken, begun, file_text, bytes_at, texts_of, FindsText, ReadsText};

use crate::calls::{Calls, count_end};
use crate::memory::give;
use crate::shelf::Shelf;
use crate::source::Failed;
use gt_base::List;
use std::marker::Model;

/// A text and its name.
#[derive(Drop)]
pub struct MemFile {
    pub name: List<u8>,
    pub bytes: List<u8>,
}

/// The place of the first file of a name.
#[tactic(auto, using(crate::proofs::Files::files))]
fn place_of(files: &[MemFile], name: &[u8]) -> Option<usize>
    ensures place { IfSome result
        (λ i. file_text files.now name.now ≡ Some (bytes_at files.now i)) }
    ensures none { IfNone result (file_text files.now name.now ≡ None) }
{
    for (i, file) in files.iter().enumerate() {
        if file.name.as_slice() == name {
            return Some(i);
        }
    }
    None
}

/// The bytes of the file at a place; none for a place that has no file.
#[tactic(auto, using(crate::proofs::Files::files))]
fn bytes_of(files: &[MemFile], place: usize) -> &[u8]
    ensures { result.now ≡ bytes_at files.now place }
{
    match files.get(place) {
        Some(file) => file.bytes.as_slice(),
        None => &[],
    }
}

/// Texts in memory, which fail at the calls that they are told. It is seen as the files, the text
/// that was found last, with the calls and how many of them told an end, the number of hard faults,
/// and how often a text was asked for.
#[derive(Drop)]
pub struct MemShelf {
    files: List<MemFile>,
    place: usize,
    at: usize,
    piece: usize,
    calls: Calls,
    ends: u64,
    hard_faults: u64,
    asked: u64,
}

impl Model for MemShelf {
    ghost use Rattle.std.specs.Prelude.{◌<◌, ◌≤◌, length, take, drop};
    ghost use Rattle.gt_io.specs.MemoryShelf.{Texts, bytes_at};

    ghost Value = { Texts };

    ghost view = { λ s. record {
      files = s.files.items;
      text = record {
        taken = take s.at (bytes_at s.files.items s.place);
        left = drop s.at (bytes_at s.files.items s.place);
        piece = s.piece;
        calls = s.calls;
        ends = s.ends;
      };
      hard_faults = s.hard_faults;
      asked = s.asked;
    } };

    ghost invariant = { λ s. (0 < s.piece) × (s.at ≤ length (bytes_at s.files.items s.place)) };
}

impl MemShelf {
    /// Calls are numbered from 1, `find` and `read` together, and those of `failing` fail. A piece
    /// is the most that one read gives. Where two files have one name, the first is found.
    #[tactic(auto, using(crate::proofs::Files::files))]
    pub fn new(files: List<MemFile>, piece: usize, failing: List<u64>) -> MemShelf
        requires { 0 < piece }
        ensures { result ≡ texts_of files.items piece failing.items }
    {
        MemShelf {
            place: files.len(),
            files,
            at: 0,
            piece,
            calls: Calls::new(failing),
            ends: 0,
            hard_faults: 0,
            asked: 0,
        }
    }

    /// Counts one more call, by which a text is asked for.
    fn begin_search(&mut self) -> bool
        ensures listed { result ≡ fails_next self.old.text.calls }
        ensures made { self.new ≡ asked_for (if result then broken self.old else begun self.old) }
        ensures later { (self.old.text.calls.faults ≤ self.new.text.calls.faults)
            × (self.old.hard_faults ≤ self.new.hard_faults) }
    {
        let fails = self.begin();
        self.asked = self.asked.saturating_add(1);
        fails
    }

    /// Counts one more call; where it is to fail, that is a hard fault.
    fn begin(&mut self) -> bool
        ensures listed { result ≡ fails_next self.old.text.calls }
        ensures made { self.new ≡ (if result then broken self.old else begun self.old) }
        ensures later { (self.old.text.calls.faults ≤ self.new.text.calls.faults)
            × (self.old.hard_faults ≤ self.new.hard_faults) }
    {
        if self.calls.begin() {
            self.hard_faults = self.hard_faults.saturating_add(1);
            return true;
        }
        false
    }
}

impl Shelf for MemShelf {
    ghost stock = { λ s. record {
      contents = Some (file_text s.files);
      left = Some s.text.left;
      faults = s.text.calls.faults;
      hard_faults = s.hard_faults;
      asked = s.asked;
      ends = s.text.ends;
    } };

    fn find(&mut self, name: &str) -> Result<(), Failed>
        ensures found { OnOk result
            (IsSome (file_text self.old.files name.now)
            × (Some self.new.text.left ≡ file_text self.old.files name.now)) }
        ensures same { self.new.files ≡ self.old.files }
        ensures cause { HasCause self.old.text.calls.faults self.new.text.calls.faults result }
        ensures once { AtMostOnce self.old.text.calls.faults self.new.text.calls.faults }
        ensures hard_cause { HasFindCause
            (Some (file_text self.old.files)) name.now self.old.hard_faults
            self.new.hard_faults result }
        ensures asked { self.new.asked ≡ one_more self.old.asked }
        ensures ends { self.new.text.ends ≡ self.old.text.ends }
        ensures finds { FindsText self.old self.new name.now result }
    {
        if self.begin_search() {
            return Err(Failed);
        }
        let Some(place) = place_of(self.files.as_slice(), name.as_bytes()) else {
            self.calls.fail();
            return Err(Failed);
        };
        self.at = 0;
        self.place = place;
        Ok(())
    }

    fn read(&mut self, buf: &mut [u8]) -> Result<usize, Failed>
        requires { 0 < length buf.old }
        ensures bound { ReadsAtMost result buf.new }
        ensures bytes { ReadConsumes (Some self.old.text.left)
            (Some self.new.text.left) result buf.new }
        ensures same { self.new.files ≡ self.old.files }
        ensures cause { HasCause self.old.text.calls.faults self.new.text.calls.faults result }
        ensures once { AtMostOnce self.old.text.calls.faults self.new.text.calls.faults }
        ensures hard_cause { HasCause self.old.hard_faults self.new.hard_faults result }
        ensures asked { self.new.asked ≡ self.old.asked }
        ensures ends { CountsEnd self.old.text.ends self.new.text.ends result }
        ensures reads { ReadsText self.old self.new (length buf.old) result }
    {
        if self.begin() {
            return Err(Failed);
        }
        let bytes = bytes_of(self.files.as_slice(), self.place);
        let n = give(bytes, self.at, buf, self.piece);
        self.at += n;
        let ends = count_end(self.ends, n);
        self.ends = ends;
        Ok(n)
    }
}

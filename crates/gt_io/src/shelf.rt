//! A shelf of texts, each found by its name and then read.
ghost use Rattle.std.specs.Prelude.{◌≡◌, ◌<◌, ◌≤◌, ℕ, List, length, vec_len, IsSome, IsSomeAnd, OnOk, IfOk, IfSome, IsErrOf};
ghost use Rattle.std.specs.Io.{ReadsAtMost};
ghost use Rattle.std.specs.Io.KnownBytes.{ReadConsumes, IsAtEnd};
ghost use Rattle.gt_io.specs.Causes.{AtMostOnce, CountsEnd, HasCause, HasReadCause};
ghost use Rattle.gt_io.specs.Memory.{one_more};
ghost use Rattle.gt_io.specs.Shelf.{Stock, AsksOnce, HasFindCause, HasTextCause};

use crate::source::{Failed, READ_PIECE, ReadFault, add_piece};
use std::alloc::Global;

/// Texts by their names. What is read is what is left of the text that was found last. A name that
/// the shelf does not have is a failure as others are, but no hard fault.
pub trait Shelf {
    /// The text of each name and the bytes left of the text that was found last, where it tells,
    /// how often it has failed, how often but for names that it tells to be missing, how often it
    /// was asked for a text, and how often it has told the end of one.
    ghost stock: { Self → Stock };

    /// Finds a text, for the reads that follow. A missing name is a failure.
    fn find(&mut self, name: &str) -> Result<(), Failed>
        ensures found { OnOk result
            (IfSome (stock self.old).contents
            (λ text_of. IsSome (text_of name.now) × ((stock self.new).left ≡ text_of name.now))) }
        ensures same { (stock self.new).contents ≡ (stock self.old).contents }
        ensures cause { HasCause (stock self.old).faults (stock self.new).faults result }
        ensures once { AtMostOnce (stock self.old).faults (stock self.new).faults }
        ensures hard_cause { HasFindCause (stock self.old).contents name.now
            (stock self.old).hard_faults (stock self.new).hard_faults result }
        ensures asked { (stock self.new).asked ≡ one_more (stock self.old).asked }
        ensures ends { (stock self.new).ends ≡ (stock self.old).ends };

    /// Reads some bytes of the text that was found last, from where it was left; none exactly at
    /// its end.
    fn read(&mut self, buf: &mut [u8]) -> Result<usize, Failed>
        requires { 0 < length buf.old }
        ensures bound { ReadsAtMost result buf.new }
        ensures bytes { ReadConsumes (stock self.old).left (stock self.new).left result buf.new }
        ensures same { (stock self.new).contents ≡ (stock self.old).contents }
        ensures cause { HasCause (stock self.old).faults (stock self.new).faults result }
        ensures once { AtMostOnce (stock self.old).faults (stock self.new).faults }
        ensures hard_cause { HasCause (stock self.old).hard_faults
            (stock self.new).hard_faults result }
        ensures asked { (stock self.new).asked ≡ (stock self.old).asked }
        ensures ends { CountsEnd (stock self.old).ends (stock self.new).ends result };
}

/// The whole text of a name, if it is at most `limit` bytes. A name that the shelf does not have is
/// a failure. The shelf is asked for one text, and behind a call that failed or told the end there
/// is none.
pub fn find_all<S: Shelf>(
    alloc: Global,
    shelf: &mut S,
    name: &str,
    limit: usize,
) -> Result<Vec<u8>, ReadFault>
    ensures whole { IfOk result
        (λ bytes. IfSome (S.stock shelf.old).contents
        (λ text_of. text_of name.now ≡ Some bytes.items)) }
    ensures end { OnOk result (IsAtEnd (S.stock shelf.new).left) }
    ensures within { IfOk result (λ bytes. vec_len bytes ≤ limit) }
    ensures long { IsErrOf result ReadFault.TooLong
        → IfSome (S.stock shelf.old).contents
        (λ text_of. IsSomeAnd (text_of name.now) (λ xs. limit < length xs)) }
    ensures same { (S.stock shelf.new).contents ≡ (S.stock shelf.old).contents }
    ensures cause { HasReadCause (S.stock shelf.old).faults (S.stock shelf.new).faults result }
    ensures once { AsksOnce (S.stock shelf.old) (S.stock shelf.new) }
    ensures hard_cause { HasTextCause (S.stock shelf.old).contents name.now
        (S.stock shelf.old).hard_faults (S.stock shelf.new).hard_faults result }
{
    shelf.find(name)?;
    let mut bytes = Vec::new(alloc);
    let mut buf = [0u8; READ_PIECE];
    'pieces: loop {
        let n = shelf.read(&mut buf)?;
        if n == 0 {
            return Ok(bytes);
        }
        add_piece(&mut bytes, &buf[..n], limit)?;
    }
}

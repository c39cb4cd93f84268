//! Room for bytes that was taken before.
ghost use Rattle.std.specs.Prelude.{◌≡◌, ◌≤◌, ◌+◌, ◌↔◌, ℕ, [], length, IsTrue, IfOk};
ghost use Rattle.gt_base.specs.Roomy.{Roomy};
ghost use Rattle.request_text.specs.Rooms.{Puts};

use gt_base::{List, Memory};
use std::alloc::Global;
use std::marker::Model;

/// How many bytes a page has room for.
pub const PAGE_SIZE: usize = 65_536;

/// Where bytes are put into room that was taken before.
pub(crate) trait Room {
    /// Its bytes, and how many more fit.
    ghost room: { Self → Roomy ℕ };

    /// Adds a piece at the end. It takes no memory.
    fn put(&mut self, piece: &[u8])
        requires { length piece.now ≤ (room self.old).spare }
        ensures { Puts (room self.old) (room self.new) piece.now };
}

impl Room for List<u8> {
    ghost room = { λ l. l };

    fn put(&mut self, piece: &[u8]) {
        self.extend_from_slice(piece);
    }
}

/// A page of a text: it is filled in room that was taken before, and cleared. It is seen as its
/// bytes and how many more fit.
pub struct Page {
    bytes: Vec<u8>,
}

impl Drop for Page {
    fn drop(self) {
        let Page { bytes: _ } = self;
    }
}

impl Model for Page {
    ghost use Rattle.std.specs.Prelude.{◌-◌, ℕ, vec_capacity, vec_len};
    ghost use Rattle.gt_base.specs.Roomy.{Roomy};

    ghost Value = { Roomy ℕ };

    ghost view = { λ p. record {
      items = p.bytes.items;
      spare = vec_capacity p.bytes - vec_len p.bytes;
    } };
}

impl Page {
    /// An empty page with room for 65,536 bytes.
    pub fn new(alloc: Global) -> Result<Page, Memory>
        ensures empty { IfOk result (λ page. page.items ≡ []) }
        ensures room { IfOk result (λ page. page.spare ≡ PAGE_SIZE) }
    {
        Ok(Page {
            bytes: Vec::with_capacity(alloc, PAGE_SIZE)?,
        })
    }

    /// Its bytes.
    pub fn as_slice(&self) -> &[u8]
        ensures { result.now ≡ self.now.items }
    {
        self.bytes.as_slice()
    }

    /// Whether so many more bytes fit.
    pub(crate) fn fits(&self, n: usize) -> bool
        ensures { IsTrue result ↔ n ≤ self.now.spare }
    {
        n <= self.bytes.capacity() - self.bytes.len()
    }

    /// Takes all bytes out. Their room is kept.
    pub fn clear(&mut self)
        ensures empty { self.new.items ≡ [] }
        ensures room { self.new.spare ≡ self.old.spare + length self.old.items }
    {
        self.bytes.clear();
    }
}

impl Room for Page {
    ghost room = { λ p. p };

    fn put(&mut self, piece: &[u8]) {
        match self.bytes.extend_from_slice(piece) {
            Ok(()) => {}
            Err(_) => unreachable!(),
        }
    }
}

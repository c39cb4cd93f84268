//! A book as the machine that connections ask.
ghost use Rattle.std.specs.Prelude.{◌≡◌, IfOk};
ghost use Rattle.core_machine.specs.Books.{IsBook, HasOnlyModel};

use crate::books::Book;
use gt_base::Memory;
use std::alloc::Global;
use std::marker::Model;

/// A book that connections ask. It is seen as the book, which lies on the heap, so that a turn of
/// the lock moves a pointer and not the book.
pub struct Ledger {
    pub(crate) book: Box<Book>,
}

impl Drop for Ledger {
    fn drop(self) {
        let Ledger { book: _ } = self;
    }
}

impl Model for Ledger {
    ghost use Rattle.core_machine.specs.Books.{BookView, book_code};

    ghost Value = { BookView };

    ghost coded = { book_code };

    ghost view = { λ l. l.book.value };
}

impl Ledger {
    /// The ledger of a book; for want of memory the book is gone.
    pub fn new(alloc: Global, book: Book) -> Result<Ledger, Memory>
        ensures { IfOk result (λ ledger. ledger ≡ book) }
    {
        let book = Box::new(alloc, book)?;
        Ok(Ledger { book })
    }

    /// What every ledger keeps.
    pub fn keeps(&self)
        ensures kept { IsBook self.now }
        ensures only { HasOnlyModel self.now }
    {
        self.book.keeps();
    }

    /// The book.
    pub fn book(&self) -> &Book
        ensures { result.now ≡ self.now }
    {
        &self.book
    }
}

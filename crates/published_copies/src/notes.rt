//! How a reader is told what the writer knows.
use crate::views::ReaderView;
use atomic_table::{Join, Split};

/// The writer keeps what it tells.
pub struct Telling;

impl<R> Split<ReaderView<R>> for Telling {
    ghost left = { λ v. v };

    ghost right = { λ v. v };
}

/// The reader knows what it was told.
pub struct Learning;

impl<R> Join<ReaderView<R>> for Learning {
    ghost use Rattle.published_copies.specs.Views.{blank};

    ghost both = { λ v told. told };

    ghost spent = { blank };
}

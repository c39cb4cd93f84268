//! What the writer and a reader know of the published entries. No value of a view is made.
use crate::replica::Replica;
use crossbeam_utils::rule::{Outcome, Protocol};
use gt_base::Entry;
use std::collections::LinkedList;

/// The root, where it was told, and the entries that were seen.
pub struct ReaderView<R> {
    pub root: Option<R>,
    pub seen: LinkedList<Entry>,
}

/// The published entries are sound and only grow, over one root.
pub struct Growing;

impl<T: Replica> Protocol<T, ReaderView<T::Root>> for Growing {
    ghost use Rattle.published_copies.specs.Views.{Shows, blank};

    ghost holds = { λ p. Shows (T.sound (T.state p)) (T.root (T.state p)) (T.list (T.state p)) };

    ghost first = { blank };
}

/// A look at the published entries, or their change.
pub struct Sees;

impl<T: Replica> Outcome<T, ReaderView<T::Root>> for Sees {
    ghost use Rattle.published_copies.specs.Views.{Sighted};

    ghost then = { λ v x y w.
        Sighted (T.sound (T.state y)) (T.root (T.state x)) (T.list (T.state x)) (T.root (T.state y))
        (T.list (T.state y)) v w };
}

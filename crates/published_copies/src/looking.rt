//! Readers.
ghost use Rattle.std.specs.Prelude.{◌≡◌, MatchResult};
ghost use Rattle.published_copies.specs.Views.{Sighted};

use crate::replica::Replica;
use crate::views::{Growing, ReaderView, Sees};
use left_right::reader::{Reader, Reading};
use std::marker::Model;

/// A reader that is not looking. It is seen as what it knows.
pub struct Sight<T: Replica> {
    pub(crate) reader: Reader<T, ReaderView<T::Root>, Growing>,
}

impl<T: Replica> Model for Sight<T> {
    ghost use Rattle.published_copies.specs.declared.views.ReaderView.{ReaderView};

    ghost Value = { ReaderView T.Root };

    ghost use Rattle.left_right.specs.Sides.{view as known};

    ghost view = { λ s. known s.reader.place };
}

impl<T: Replica> Drop for Sight<T> {
    fn drop(self) {
        let Sight { reader: _ } = self;
    }
}

/// A reader with the replica that it looks at. End it by `leave`.
pub struct Looking<T: Replica> {
    reading: Reading<T, ReaderView<T::Root>, Growing>,
}

impl<T: Replica> Model for Looking<T> {
    ghost use Rattle.published_copies.specs.Views.{Looked};

    ghost Value = { Looked T T.Root };

    ghost use Rattle.left_right.specs.Sides.{view as known};

    ghost view = { λ l. record { view = known l.reading.place; replica = l.reading.part.value } };
}

impl<T: Replica> Sight<T> {
    /// Looks at the replica that was published last. The reader comes back where there is none any
    /// more.
    pub fn look(self) -> Result<Looking<T>, Sight<T>>
        ensures { MatchResult result
            (λ l. Sighted (T.sound (T.state l.replica)) (T.root (T.state l.replica))
            (T.list (T.state l.replica)) (T.root (T.state l.replica)) (T.list (T.state l.replica))
            self l.view)
            (λ s. s ≡ self) }
    {
        let Sight { reader } = self;
        match reader.enter_as::<Sees>() {
            Ok(reading) => Ok(Looking { reading }),
            Err(reader) => Err(Sight { reader }),
        }
    }
}

impl<T: Replica> Looking<T> {
    /// The replica.
    pub fn get(&self) -> &T
        ensures { result.now ≡ self.now.replica }
    {
        self.reading.get()
    }

    /// The reader again.
    pub fn leave(self) -> Sight<T>
        ensures { result ≡ self.view }
    {
        let Looking { reading } = self;
        Sight {
            reader: reading.leave(),
        }
    }
}

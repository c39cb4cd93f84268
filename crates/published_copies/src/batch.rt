//! Entries that are published at once.
ghost use Rattle.std.specs.Prelude.{◌≡◌, IfOk};

use gt_base::{Entry, Memory, Step};
use std::alloc::{AllocError, Global};
use std::marker::Model;
use std::sync::Arc;

/// Entries that are published at once, which both copies share. They are seen as their list.
pub struct Batch {
    entries: Arc<Vec<Entry>>,
}

impl Model for Batch {
    ghost use Rattle.std.specs.Prelude.{List};
    ghost use Rattle.gt_base.specs.declared.requests.Entry.{Entry};

    ghost Value = { List Entry };

    ghost use Rattle.std.specs.Arc.{arc_value};

    ghost view = { λ b. (arc_value b.entries).items };
}

impl Drop for Batch {
    fn drop(self) {
        let Batch { entries: _ } = self;
    }
}

/// An equal entry. For want of memory there is none.
fn copy_of(entry: &Entry) -> Result<Entry, Memory>
    ensures { IfOk result (λ copy. copy ≡ entry.now) }
{
    let what = match &entry.what {
        Step::Tick { upto, to } => Step::Tick {
            upto: *upto,
            to: *to,
        },
        Step::Ask {
            actor,
            request,
            reply,
        } => Step::Ask {
            actor: *actor,
            request: *request,
            reply: reply.copied()?,
        },
    };
    Ok(Entry {
        who: entry.who,
        what,
    })
}

impl Batch {
    /// Copies of these entries. For want of memory there are none.
    pub fn of(alloc: Global, entries: &[Entry]) -> Result<Batch, Memory>
        ensures { IfOk result (λ b. b ≡ entries.now) }
    {
        let mut all = Vec::with_capacity(alloc, entries.len())?;
        for entry in entries {
            all.push(copy_of(entry)?)?;
        }
        match Arc::new(alloc, all) {
            Ok(entries) => Ok(Batch { entries }),
            Err(_) => Err(AllocError),
        }
    }

    /// The same entries once more, which takes no room for them.
    pub fn shared(&self) -> Result<Batch, Memory>
        ensures { IfOk result (λ b. b ≡ self.now) }
    {
        Ok(Batch {
            entries: Arc::try_clone(&self.entries)?,
        })
    }

    /// The entries.
    pub fn as_slice(&self) -> &[Entry]
        ensures { result.now ≡ self.now }
    {
        self.entries.as_slice()
    }
}

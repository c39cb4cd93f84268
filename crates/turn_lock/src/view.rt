//! What a seat at the table knows, and what lies in the slot. No value of `Account`, `Stage` or
//! `SeatView` is made.
use gt_base::Entry;
use std::collections::LinkedList;
use std::snapshot::Snapshot;

/// What a pass has drawn and seen, and the entries that it added.
pub struct Account {
    pub number: u64,
    pub draws: u64,
    pub seen: LinkedList<Entry>,
    pub own: LinkedList<Entry>,
}

/// Where a seat stands between two turns.
pub enum Stage {
    /// It has no ticket.
    Idle,
    /// With this ticket.
    Waits(u64),
    /// With this ticket, which is served, while the value is home.
    Keeps(u64),
    /// With this ticket, and the list of the value that is out.
    Holds(u64, LinkedList<Entry>),
}

/// What a seat knows.
pub struct SeatView<M> {
    /// The value that the lock began with.
    pub root: Option<M>,
    /// The next number that a pass can have, or 0.
    pub next: u64,
    pub stage: Stage,
    /// Its own account, and those of the passes that were joined to it.
    pub accounts: LinkedList<Account>,
}

/// What the slot contains.
pub enum Spot<M> {
    /// The value, while no pass holds the turn.
    Home(M),
    /// A list that is told to the step that adds an entry.
    Told(Snapshot<M>),
    /// The value is out.
    Away,
}

/// What the table is told once.
pub struct Origin<M> {
    pub value: Snapshot<M>,
    pub passes: u64,
}

impl<M> Drop for Origin<M> {
    fn drop(self) {
        let Self {
            value: _,
            passes: _,
        } = self;
    }
}

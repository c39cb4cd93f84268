//! Certificates: what is claimed to have happened at each instant.
ghost use Rattle.std.specs.Prelude.{◌≡◌, [], ◌∷◌, ◌++◌, length, OnOk, OnErr};

use gt_base::{Instant, List, Memory, Prioritised, Signal};
use std::alloc::Global;
use std::marker::Model;

/// What a certificate says of one instant: its events in an order that is to support them, and its
/// signals.
pub struct Listing {
    pub at: Instant,
    pub events: List<Prioritised>,
    pub signals: List<Signal>,
}

impl Drop for Listing {
    fn drop(self) {
        let Listing {
            at: _,
            events: _,
            signals: _,
        } = self;
    }
}

impl Model for Listing {
    ghost use Rattle.why_check.specs.Certificates.{Listed};

    ghost Value = { Listed };

    ghost view = { λ l. record { at = l.at; events = l.events.items; signals = l.signals.items } };
}

/// A list of instants, each with its events and signals. It is seen as that list.
pub struct Cert {
    pub(crate) alloc: Global,
    pub(crate) listings: List<Listing>,
}

impl Drop for Cert {
    fn drop(self) {
        let Cert {
            alloc: _,
            listings: _,
        } = self;
    }
}

impl Model for Cert {
    ghost use Rattle.std.specs.Prelude.{List};
    ghost use Rattle.why_check.specs.Certificates.{Listed};

    ghost Value = { List Listed };

    ghost view = { λ c. c.listings.items };
}

impl Cert {
    /// The empty certificate, which takes no memory yet.
    pub fn new(alloc: Global) -> Cert
        ensures { result ≡ [] }
    {
        Cert {
            alloc,
            listings: List::new(alloc),
        }
    }

    /// Adds an instant at the end. After a refusal the certificate is as it was.
    pub fn add(
        &mut self,
        t: Instant,
        events: List<Prioritised>,
        signals: List<Signal>,
    ) -> Result<(), Memory>
        ensures ok { OnOk result (self.new ≡ self.old
            ++ record { at = t; events = events.items; signals = signals.items } ∷ []) }
        ensures err { OnErr result (self.new ≡ self.old) }
    {
        self.listings.reserve(1)?;
        self.listings.push(Listing {
            at: t,
            events,
            signals,
        });
        Ok(())
    }

    /// How many instants it lists.
    pub fn len(&self) -> usize
        ensures { result ≡ length self.now }
    {
        self.listings.len()
    }

    /// The instants with what they list, in order.
    pub fn listings(&self) -> &[Listing]
        ensures { result.now ≡ self.now }
    {
        self.listings.as_slice()
    }
}

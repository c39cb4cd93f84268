//! The end of a stretch of minutes, planned before it is made.
ghost use Rattle.std.specs.Prelude.{◌≡◌, false, map, IfOk};
ghost use Rattle.gtrbac_model.specs.Sessions.{signal_of};

use crate::activations::Activation;
use crate::dropping::signals_of;
use gt_base::{Instant, List, Memory, Signal};
use std::alloc::Global;
use std::marker::Model;

/// What the end of the minutes after `now`, up to `to`, drops. It is seen as the two instants, the
/// activations that are dropped at `to`, and their end signals.
pub struct Drops {
    pub(crate) after: Instant,
    pub(crate) to: Instant,
    pub(crate) gone: Vec<Activation>,
    pub(crate) signals: List<Signal>,
}

impl Model for Drops {
    ghost use Rattle.session_table.specs.Plans.{DropsView};

    ghost Value = { DropsView };

    ghost view = { λ d. record {
      after = d.after;
      to = d.to;
      gone = d.gone.items;
      signals = d.signals.items;
    } };
}

impl Drop for Drops {
    fn drop(self) {
        let Drops {
            after: _,
            to: _,
            gone: _,
            signals: _,
        } = self;
    }
}

impl Drops {
    /// The plan that drops these activations.
    pub(crate) fn new(
        alloc: Global,
        after: Instant,
        to: Instant,
        gone: Vec<Activation>,
    ) -> Result<Drops, Memory>
        ensures { IfOk result
            (λ d. d
            ≡ record {
              after = after;
              to = to;
              gone = gone.items;
              signals = map (signal_of false) gone.items;
            }) }
    {
        let signals = signals_of(alloc, &gone)?;
        Ok(Drops {
            after,
            to,
            gone,
            signals,
        })
    }

    /// The end signals, one for each activation that is dropped. It takes no memory.
    pub fn signals(&self) -> &List<Signal>
        ensures { result.now.items ≡ self.now.signals }
    {
        &self.signals
    }
}

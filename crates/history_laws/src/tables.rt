//! The table of sessions and the queue after each step.
ghost use Rattle.std.specs.Prelude.{ℕ, List};
ghost use Rattle.gt_base.specs.declared.requests.Entry.{Entry};
ghost use Rattle.gtrbac_model.specs.Policy.{Policy};
ghost use Rattle.gtrbac_model.specs.Status.{Model};
ghost use Rattle.history_laws.specs.Pending.{PendingIsRaised, PendingAfterAsk, HeadsAfterTick, StretchStays};
ghost use Rattle.history_laws.specs.Ticking.{TickAddsOneSet};
ghost use Rattle.history_laws.specs.Tables.{TablesGoOn, QueueGoesOn, QuietCloses};

/// After a tick the table is the one before it, closed minute by minute, and after a request what
/// its reply makes of it; a tick queues nothing, and a request what its reply says.
pub fn steps_go_on()
    ensures tables { (p : Policy) (birth : ℕ) (h : List Entry) (m : Model)
        → TablesGoOn p birth h m }
    ensures queue { (h : List Entry) (t : ℕ) → QueueGoesOn h t }
{}

/// Minutes that end no activation leave the sessions and the activations, and charge each
/// activation its minutes, day by day.
pub fn quiet_closes()
    ensures { QuietCloses }
{}

/// While nothing happens after a history's now, a later instant raises what is on its way to it;
/// and what each step puts on its way.
pub fn pending_is_raised()
    ensures raised { PendingIsRaised }
    ensures asks { PendingAfterAsk }
    ensures ticks { HeadsAfterTick }
{}

/// Over a stretch in which nothing happens no fluent changes, nor the instant of its last change.
pub fn stretch_stays()
    ensures { StretchStays }
{}

/// A tick over quiet minutes to the next stop keeps a history legal, and its model is the old one
/// with one set more.
pub fn tick_adds_one_set()
    ensures { TickAddsOneSet }
{}

//! What follows from what every policy keeps.
ghost use Rattle.gtrbac_model.specs.WholePolicy.{IsPolicy};
ghost use Rattle.history_laws.specs.Policies.{QuietSettles, EmptyIsQuiet, PassedAreQuiet};
ghost use Rattle.history_laws.specs.Small.{small};

/// Over an empty base only the empty set is settled, and it leaves the status; so the minutes with
/// an empty base, and those that a tick passes over, are quiet.
pub fn quiet_minutes()
    ensures settles { QuietSettles }
    ensures empty { EmptyIsQuiet }
    ensures passed { PassedAreQuiet }
{}

/// A small policy keeps what every policy keeps, so that this is seen to be possible.
pub fn small_is_policy()
    ensures { IsPolicy small }
{}

//! Laws of activations and their signals.
ghost use Rattle.history_laws.specs.Activations.{ActiveInOrder, SignalsTell};

/// After each close, and after each request made then, an activation belongs to an open session of
/// its user, to a role that is on and that the user may activate.
pub fn active_in_order()
    ensures { ActiveInOrder }
{}

/// Each signal of an instant is of an activation that began or ended in the minute before.
pub fn signals_tell()
    ensures { SignalsTell }
{}

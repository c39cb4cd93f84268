//! Laws of what lies ahead.
ghost use Rattle.forecast.specs.Ahead.{AheadIsOne, ChangeIsOne};

/// Of a safe policy just one run lies ahead of each history, and each fluent has just one first
/// change there.
pub fn ahead_is_one()
    ensures one { AheadIsOne }
    ensures change { ChangeIsOne }
{}

//! What the words of duration limits have to do with those of the model.
ghost use Rattle.std.specs.Prelude.{ℕ};
ghost use Rattle.gtrbac_model.specs.Policy.{Policy};
ghost use Rattle.gtrbac_model.specs.Status.{Model};
ghost use Rattle.duration_limits.specs.Since.{ReadsRows};
ghost use Rattle.duration_limits.specs.Following.{RipeIsAged, SinceBySteps};

/// What the rows of ages say.
pub fn ages_read_rows()
    ensures { ReadsRows }
{}

/// A limit is ripe exactly where it has run for long enough and its period, if it has one, is
/// there.
pub fn ripe_is_aged()
    ensures { RipeIsAged }
{}

/// At the birth each fluent has the birth, and at a later instant those that change there have that
/// instant; so kept, ages are those of the model.
pub fn ages_follow_changes()
    ensures { (p : Policy) (birth : ℕ) (m : Model) → SinceBySteps p birth m }
{}

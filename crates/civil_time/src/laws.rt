//! Laws of civil minutes.
ghost use Rattle.civil_time.specs.Laws.{MinutesMatch, TextsAreRead};

/// The calendars of the model and of jiff have the same dates, and civil minutes, instants and
/// texts go one to one.
pub fn minutes_match()
    ensures { MinutesMatch }
{}

/// Computing what a text says gives an instant exactly where the text is the text of it.
pub fn texts_are_read()
    ensures { TextsAreRead }
{}

//! Each law stands on a function without a body.
ghost use Rattle.text_laws.specs.Rests.{RestsAreCut, ExprsAreCut};
ghost use Rattle.text_laws.specs.Made.{PoliciesAreMade};
ghost use Rattle.text_laws.specs.Texts.{TextsSay, FirstFaultIsTold};
ghost use Rattle.text_laws.specs.Lengths.{PrintedStayShort, PeriodsStayShort, OthersAreShort};

/// The rest of a line after some words begins after these words and the blanks behind them, and it
/// ends with the last word. The expression of a period line is the rest after four words.
pub fn rests_are_cut()
    ensures rests { RestsAreCut }
    ensures expressions { ExprsAreCut }
{}

/// An expression is written with at most 20 bytes more than it was read from, and a period line
/// with at most 51 more. No other line that is written has more than 2,000 bytes.
pub fn lines_stay_short()
    ensures expressions { PrintedStayShort }
    ensures periods { PeriodsStayShort }
    ensures others { OthersAreShort }
{}

/// Reading the lines of a text answers what they say one after the other, each in the version that
/// the lines before it tell; or the fault of a line behind lines without one, with its number.
pub fn texts_are_read()
    ensures say { TextsSay }
    ensures fault { FirstFaultIsTold }
{}

/// The periods, limits, edges, entries and triggers of a policy are what its lines say, in their
/// order.
pub fn policies_are_made()
    ensures { PoliciesAreMade }
{}

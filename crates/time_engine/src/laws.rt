//! What timelines have to do with histories and their models.
ghost use Rattle.time_engine.specs.Histories.{BornFollows, BaseFollows, RaisedFollows, CloseIsLegal, CloseFollows, AskKeepsFollowing, WaitingFollow};

/// At its birth a timeline follows the empty history.
pub fn born_follows()
    ensures { BornFollows }
{}

/// While nothing happens after now, an instant has the base that the timeline says, and raises
/// something exactly where the timeline does.
pub fn bases_follow()
    ensures bases { BaseFollows }
    ensures raised { RaisedFollows }
{}

/// Closing a timeline by a plan is a legal tick, and the timeline after it follows the longer
/// history.
pub fn closes_follow()
    ensures legal { CloseIsLegal }
    ensures follows { CloseFollows }
{}

/// A request leaves a timeline following its history, with the pair that it queues.
pub fn asks_follow()
    ensures { AskKeepsFollowing }
{}

/// The signals of a history are those that wait in the timeline, where the table of sessions says
/// so at now and the minutes passed over end no activation.
pub fn signals_follow()
    ensures { WaitingFollow }
{}

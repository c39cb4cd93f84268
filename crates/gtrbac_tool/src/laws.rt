//! What the end of a run means, and what is asked behind it.
ghost use Rattle.gtrbac_tool.specs.Reasons.{ReasonsExist, TellingsAreExplained};
ghost use Rattle.gtrbac_tool.specs.Meanings.{OneEnd, SomeEnd, OneAnswer, RunsMean, LongMeans, RunsArePlays};

/// A script has exactly one end over a safe policy, and a question behind it exactly one answer. It
/// ends with 6 exactly where it is too long, and else with 7 exactly where the run comes to a line
/// with a fault, with 9 exactly where it comes to a line that asks for a step with a full history,
/// and with 0 exactly where all its lines are played. The history of a run plays the moves that the
/// lines ask for.
pub fn run_means()
    ensures one { OneEnd }
    ensures some { SomeEnd }
    ensures answer { OneAnswer }
    ensures runs { RunsMean }
    ensures long { LongMeans }
    ensures plays { RunsArePlays }
{}

/// What is told of an event that stands in a settled set has a reason: the base, or a first trigger
/// that raises it. Where the event is blocked, its converse stands in the set, and so at a greatest
/// priority. So it is of what is told at the end of each run, at its birth too.
pub fn reasons_exist()
    ensures sets { ReasonsExist }
    ensures told { TellingsAreExplained }
{}

//! Laws of the lines of scripts and of connections.
ghost use Rattle.request_text.specs.Laws.{PhrasesAreSpelled, LinesAreRead, LongIsTold, RequestsAreTold, RepliesAnswer, RepliesCanBeWritten, WalksAreBrief, RepliesAreTold, LogsAreTold};

/// A phrase is read exactly from the words that spell it.
pub fn phrases_are_spelled()
    ensures { PhrasesAreSpelled }
{}

/// Reading a line by its words is what the spellings of phrases say of it: nothing, just the phrase
/// that it is spelled by in numbers of the policy, or the fault that comes first in their order.
pub fn lines_are_read()
    ensures { LinesAreRead }
{}

/// A line of more than 512 bytes is never silent.
pub fn long_is_told()
    ensures { LongIsTold }
{}

/// A request of the policy is read from the line that it writes, so its line tells it.
pub fn requests_are_told()
    ensures { RequestsAreTold }
{}

/// What a request is answered is of its kind, so each reply of a legal history is.
pub fn replies_answer()
    ensures { RepliesAnswer }
{}

/// What is answered in a legal history of named moves can be written: its numbers are the policy's,
/// and its walk leads along and has at most 999 edges.
pub fn replies_can_be_written()
    ensures { RepliesCanBeWritten }
{}

/// A walk over the edges of a policy has at most 999 of them, since they have no cycle; so the line
/// of a reply has at most `LONGEST_REPLY` bytes.
pub fn walks_are_brief()
    ensures { WalksAreBrief }
{}

/// The text of a reply tells the reply, where it is of its request's kind.
pub fn replies_are_told()
    ensures { RepliesAreTold }
{}

/// The log of a legal history of named moves, none of them the operator's, tells its birth and its
/// entries.
pub fn logs_are_told()
    ensures { LogsAreTold }
{}

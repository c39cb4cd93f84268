//! Laws of the lines of a policy.
ghost use Rattle.policy_lines.specs.Laws.{NumbersAreDecimal, SayingsAreRead, WrittenIsRead, LinesAreCut};

/// A word is a number exactly where it is the decimal text of the number.
pub fn numbers_are_decimal()
    ensures { NumbersAreDecimal }
{}

/// Reading a line by its words is what the spellings of sayings say of it: it says nothing, or just
/// the saying that it is spelled by, or it has the fault that comes first in their order.
pub fn sayings_are_read()
    ensures { SayingsAreRead }
{}

/// A saying in range is read from the line that it writes, if the line has at most 4,096 bytes.
pub fn written_is_read()
    ensures { WrittenIsRead }
{}

/// Lines without a line feed are the lines of the text that they make, and each saying in range is
/// written in one line.
pub fn lines_are_cut()
    ensures { LinesAreCut }
{}

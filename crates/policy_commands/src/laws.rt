//! What the answers of `check` and `fmt` mean.
ghost use Rattle.policy_commands.specs.Meanings.{SafeMeans, UnsafeMeans, FaultMeans, FmtFaultMeans, FmtKeeps, CanonicalLinesFit, FmtKeepsBrief};

/// `check` says safe exactly of the texts of safe policies, each of which has exactly one history
/// with one execution model for each birth and each list of at most 1,000,000 named moves; it ends
/// with 3 exactly over the policies that are not safe, and with 2 exactly over the texts with a
/// fault.
pub fn check_means()
    ensures safe { SafeMeans }
    ensures cycle { UnsafeMeans }
    ensures fault { FaultMeans }
{}

/// `fmt` ends with 2 exactly over the texts with a fault. What it wrote stands for the same policy,
/// and it writes it again as it stands, where no line of it has more than 4,096 bytes. So it is
/// where each period line that was read has at most 4,040.
pub fn fmt_means()
    ensures fault { FmtFaultMeans }
    ensures keeps { FmtKeeps }
    ensures fit { CanonicalLinesFit }
    ensures brief { FmtKeepsBrief }
{}

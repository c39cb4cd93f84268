//! What the work of a worker tells of the whole history.
ghost use Rattle.policy_words.specs.Naming.{NamedPolicy};
ghost use Rattle.connection_laws.specs.Services.{service};
ghost use Rattle.line_server.specs.Working.{IsTellingOfWorkers};

use gt_base::Machine;
use gt_io::Link;

/// The links of a worker are told over the history of the closed desk, and their own entries are
/// its part of it, one link after the other.
pub fn workers_are_told<M: Machine, L: Link>()
    ensures { (root : M) (np : NamedPolicy)
        → IsTellingOfWorkers M L.traffic
        (service np (M.list root) (M.legal root) (M.now_of root)) }
{}

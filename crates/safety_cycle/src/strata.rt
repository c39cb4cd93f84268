//! What the judge answers: levels of the nodes, or why there are none.
ghost use Rattle.std.specs.Prelude.{◌≡◌, ◌<◌, length, slice_index};

use least_walk::EdgeList;
use std::alloc::AllocError;
use std::marker::Model;

/// Levels of the nodes, which do not fall along an edge and rise along a marked one.
pub struct Strata {
    pub(crate) levels: Vec<u32>,
}

impl Drop for Strata {
    fn drop(self) {
        let Strata { levels: _ } = self;
    }
}

impl Model for Strata {
    ghost use Rattle.std.specs.Prelude.{ℕ, List};

    ghost Value = { List ℕ };

    ghost view = { λ s. s.levels.items };
}

impl Strata {
    /// The level of a node of the graph that was judged.
    pub fn level(&self, node: u32) -> u32
        requires { node < length self.now }
        ensures { result ≡ slice_index self.now node }
    {
        self.levels[node as usize]
    }
}

/// Why there are no levels.
#[derive(Drop)]
pub enum Verdict {
    /// The least marked edge that lies on a cycle, followed by the least walk from its end back to
    /// its begin.
    Cycle { edges: EdgeList },
    /// Want of memory.
    Memory,
}

impl From<AllocError> for Verdict {
    ghost use Rattle.safety_cycle.specs.declared.strata.Verdict.{Verdict};

    ghost from_gives = { λ e v. v ≡ Verdict.Memory };

    fn from(_e: AllocError) -> Verdict {
        Verdict::Memory
    }
}

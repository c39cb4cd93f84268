//! What is wrong with the lines of a policy together.
ghost use Rattle.std.specs.Prelude.{◌≡◌};
ghost use Rattle.policy_book.specs.declared.faults.BookFault.TheVariants as book_faults;

use gt_base::{HierEdge, List, Memory, Name};
use policy_words::Kind;

/// The first fault of lines that each say something: of the least line, on one line in this order;
/// a cycle of edges where no line has a fault.
#[derive(Drop)]
pub enum BookFault {
    /// A name of the line is declared by no line.
    Unknown {
        line: u32,
    },
    /// The line declares a name, joins an ordered pair of roles or caps a kind and role for the
    /// second time.
    Twice {
        line: u32,
    },
    /// The line is the first that takes its kind over its limit.
    TooMany {
        line: u32,
        what: Kind,
    },
    /// The least edge that lies on a cycle and the least walk from its junior to its senior; and
    /// the names of their seniors, the first of them again at the end.
    HierarchyCycle {
        edges: List<HierEdge>,
        names: List<Name>,
    },
    /// Want of memory.
    Memory,
}

impl From<Memory> for BookFault {
    ghost from_gives = { λ _ fault. fault ≡ book_faults.Memory };

    fn from(_: Memory) -> BookFault {
        BookFault::Memory
    }
}

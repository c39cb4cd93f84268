//! The kinds of caps in their order, and the cap of each kind that a role has.
ghost use Rattle.std.specs.Prelude.{◌≡◌};
ghost use Rattle.policy_words.specs.CapKinds.{cap_kinds, cap_of, with_cap, no_caps};

use crate::sayings::CapKind;
use gt_base::Caps;

/// A role without caps.
pub fn uncapped() -> Caps
    ensures { result ≡ no_caps }
{
    Caps {
        total: None,
        user: None,
        length: None,
        day: None,
    }
}

impl CapKind {
    /// All kinds, in the order in which the canonical text has them.
    pub fn all() -> [CapKind; 4]
        ensures { result ≡ cap_kinds }
    {
        [CapKind::Total, CapKind::User, CapKind::Length, CapKind::Day]
    }

    /// The cap of this kind that a role has.
    pub fn of(self, caps: Caps) -> Option<u32>
        ensures { result ≡ cap_of self caps }
    {
        match self {
            CapKind::Total => caps.total,
            CapKind::User => caps.user,
            CapKind::Length => caps.length,
            CapKind::Day => caps.day,
        }
    }

    /// The caps with this one of the kind.
    pub fn with(self, n: u32, caps: Caps) -> Caps
        ensures { result ≡ with_cap self n caps }
    {
        match self {
            CapKind::Total => Caps {
                total: Some(n),
                ..caps
            },
            CapKind::User => Caps {
                user: Some(n),
                ..caps
            },
            CapKind::Length => Caps {
                length: Some(n),
                ..caps
            },
            CapKind::Day => Caps {
                day: Some(n),
                ..caps
            },
        }
    }
}

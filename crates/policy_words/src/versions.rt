//! Which version a text of a policy has.
ghost use Rattle.std.specs.Prelude.{◌≡◌};
ghost use Rattle.policy_words.specs.Seen.{seen_said};
ghost use Rattle.policy_words.specs.Versions.{version_after};

use crate::sayings::Said;

/// The version of a text, as far as the lines before a place tell it.
#[derive(Clone, Copy, PartialEq, Eq)]
pub enum TextVersion {
    /// Only silent lines stand before: the next line may be the version's, and without one the text
    /// has version 1.
    Open,
    /// Version 1, in which every edge of the hierarchy is linked at first and no line names one.
    One,
    /// Version 2, in which lines may link and unlink edges.
    Two,
}

impl TextVersion {
    /// The version after a line that says this; without a version line a text has version 1.
    pub fn after(self, said: &Said) -> TextVersion
        ensures { result ≡ version_after self (seen_said said.now) }
    {
        match (self, said) {
            (_, Said::Version(n)) => {
                if *n == 2 {
                    TextVersion::Two
                } else {
                    TextVersion::One
                }
            }
            (TextVersion::Open, _) => TextVersion::One,
            (version, _) => version,
        }
    }
}

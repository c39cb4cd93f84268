//! Names and instants as words.
ghost use Rattle.std.specs.Prelude.{◌≡◌, option_map};
ghost use Rattle.gt_base.specs.Names.{name_in};
ghost use Rattle.civil_time.specs.Text.{civil_in};
ghost use Rattle.policy_lines.specs.Cursors.{name_at};

use civil_time::read_civil;
use gt_base::{Instant, Name};
use gt_text::Words;

/// The name that a word is.
pub fn read_name(word: &[u8]) -> Option<Name>
    ensures { result ≡ name_in word.now }
{
    Name::new(word)
}

/// The name that the next word is.
pub fn next_name(words: &mut Words<'_>) -> Option<Name>
    ensures { option_map (λ n. (n, words.new)) result ≡ name_at words.old }
{
    read_name(words.next()?)
}

/// The instant that a word is.
pub fn read_instant(word: &[u8]) -> Option<Instant>
    ensures { result ≡ civil_in word.now }
{
    read_civil(word)
}

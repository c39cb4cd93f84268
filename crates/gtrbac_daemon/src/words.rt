//! The words of the program.
ghost use Rattle.std.specs.Prelude.{◌≡◌, map, option_map, string_bytes};
ghost use Rattle.gtrbac_daemon.specs.Words.{policy_named, named_behind, mode_named};

use policy_commands::is_dashed;

/// The name of the policy that the words are, none where they are no command.
pub(crate) fn policy_word(words: &[String]) -> Option<&str>
    ensures { option_map (λ name. name.now) result ≡ policy_named (map string_bytes words.now) }
{
    match words {
        [name] => {
            if is_dashed(name.as_str()) {
                None
            } else {
                Some(name.as_str())
            }
        }
        _ => None,
    }
}

/// How the program serves a policy.
#[derive(Clone, Copy, PartialEq, Eq)]
pub enum Mode {
    /// Workers that each serve one connection after the other.
    Plain,
    /// Workers, and viewers that answer what changes nothing.
    Views,
    /// One thread that serves many connections side by side.
    Poll,
}

/// How the words say that the policy is served: with two words of which the first is `views` or
/// `poll` as that says, else plainly. Whether they are a command at all is told by the call that
/// serves.
pub fn mode_of(words: &[String]) -> Mode
    ensures { result ≡ mode_named (map string_bytes words.now) }
{
    match words {
        [verb, _] => {
            if verb.as_str() == "views" {
                Mode::Views
            } else if verb.as_str() == "poll" {
                Mode::Poll
            } else {
                Mode::Plain
            }
        }
        _ => Mode::Plain,
    }
}

/// The name of the policy behind this verb, none where the words are no such command.
pub(crate) fn word_behind<'a>(wanted: &str, words: &'a [String]) -> Option<&'a str>
    ensures { option_map (λ name. name.now) result
        ≡ named_behind wanted.now (map string_bytes words.now) }
{
    match words {
        [verb, name] => {
            if verb.as_str() == wanted && !is_dashed(name.as_str()) {
                Some(name.as_str())
            } else {
                None
            }
        }
        _ => None,
    }
}

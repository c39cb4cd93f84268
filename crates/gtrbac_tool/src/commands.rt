//! The commands over a policy, as the words say them.
ghost use Rattle.std.specs.Prelude.{◌≡◌, map, option_map, string_bytes};
ghost use Rattle.gtrbac_tool.specs.Commands.{question_by, command_by, command_of, named_by, seen_command};

use crate::questions::{Question, forecast, why};
use policy_commands::is_dashed;

/// A command, with the name of a policy.
#[derive(Clone, Copy)]
pub(crate) enum Command<'a> {
    Check(&'a str),
    Fmt(&'a str),
    /// It plays a script, with a question behind it or none.
    Run(&'a str, Option<Question>),
}

impl Command<'_> {
    /// The name of its policy.
    pub fn name(&self) -> &str
        ensures { result.now ≡ named_by (seen_command self.now) }
    {
        match self {
            Command::Check(name) | Command::Fmt(name) | Command::Run(name, _) => name,
        }
    }
}

/// The command of a verb that nothing is asked behind.
fn by_verb<'a>(verb: &str, name: &'a str) -> Option<Command<'a>>
    ensures { option_map seen_command result ≡ command_by verb.now name.now }
{
    if verb == "check" {
        Some(Command::Check(name))
    } else if verb == "fmt" {
        Some(Command::Fmt(name))
    } else if verb == "run" {
        Some(Command::Run(name, None))
    } else {
        None
    }
}

/// What is asked by the words behind the name.
fn question(verb: &str, words: &[String]) -> Option<Question>
    ensures { result ≡ question_by verb.now (map string_bytes words.now) }
{
    if verb == "forecast" {
        forecast(words)
    } else if verb == "why" {
        why(words)
    } else {
        None
    }
}

/// The command that the words are, none where they are no command.
pub(crate) fn spoken(words: &[String]) -> Option<Command<'_>>
    ensures { option_map seen_command result ≡ command_of (map string_bytes words.now) }
{
    match words {
        [verb, name] => {
            if is_dashed(name.as_str()) {
                None
            } else {
                by_verb(verb.as_str(), name.as_str())
            }
        }
        [verb, name, more @ ..] => {
            if is_dashed(name.as_str()) {
                None
            } else {
                let question = question(verb.as_str(), more)?;
                Some(Command::Run(name.as_str(), Some(question)))
            }
        }
        _ => None,
    }
}

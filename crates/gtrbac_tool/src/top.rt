//! The one call of the program: from words, shelf and input to the output and the exit status.
ghost use Rattle.std.specs.Prelude.{◌≡◌, ◌≤◌, ⊤, None, map, string_bytes, length, IsSome, IsTrue};
ghost use Rattle.policy_commands.specs.Policies.{safe_in};
ghost use Rattle.policy_commands.specs.declared.finding.TheConstants.{MAX_POLICY};
ghost use Rattle.gtrbac_tool.specs.Commands.{plays_script, seen_command, IsPlainRun};
ghost use Rattle.gtrbac_tool.specs.Summary.{IsNoGen};
ghost use Rattle.gtrbac_tool.specs.Ends.{ScriptEnds, AskedEnds, JudgedEnds, TextEnds};
ghost use Rattle.gtrbac_tool.specs.Late.{asks_of};
ghost use Rattle.gtrbac_tool.specs.Scenes.{scene};
ghost use Rattle.gtrbac_tool.specs.Causes.{AsksForScript, IsAskedOf};
ghost use Rattle.gtrbac_tool.specs.Reading.{Works};
ghost use Rattle.gtrbac_tool.specs.Tool.{RunsTool};

use crate::ahead::{Inquiry, asks_of};
use crate::commands::{Command, spoken};
use crate::questions::Question;
use crate::replying::show;
use crate::starting::play;
use crate::summing::{generate, recipe_of};
use gt_io::{ReadFault, Shelf, Sink, Source, read_all};
use policy_commands::{Admitted, FoundText, admit, check, find_text, lay_out, print};
use policy_safety::Safe;
use std::alloc::Global;

/// The most bytes of a script.
pub(crate) const MAX_SCRIPT: usize = 16_777_216;

/// Reads the script, and plays it.
fn run_script<I: Source, K: Sink>(
    alloc: Global,
    safe: Safe,
    asked: Option<Inquiry>,
    input: &mut I,
    out: &mut K,
) -> u8
    ensures { Works I.intake (asked ≡ None) ⊤ ⊤ (λ failed. ScriptEnds failed safe asked) input.old
        input.new result (K.output out.old) (K.output out.new) }
{
    match read_all(alloc, input, MAX_SCRIPT) {
        Ok(script) => play(alloc, safe, asked, &script, out),
        Err(ReadFault::Memory) => 8,
        Err(ReadFault::Failed) => print(out, 4, b"read fault\n"),
        Err(ReadFault::TooLong) => print(out, 6, b"too long: script\n"),
    }
}

/// Plays a script over a safe policy, where that has all the names of what is asked.
fn run_safe<I: Source, K: Sink>(
    alloc: Global,
    safe: Safe,
    question: Option<Question>,
    input: &mut I,
    out: &mut K,
) -> u8
    ensures { Works I.intake (question ≡ None) ⊤ (IsSome (asks_of safe question))
        (λ failed. AskedEnds failed safe (asks_of safe question)) input.old input.new result
        (K.output out.old) (K.output out.new) }
{
    match asks_of(safe.policy(), question) {
        Some(asked) => run_script(alloc, safe, asked, input, out),
        None => print(out, 13, b"unknown name\n"),
    }
}

/// Plays a script over the policy of a text.
fn run<I: Source, K: Sink>(
    alloc: Global,
    text: &[u8],
    question: Option<Question>,
    input: &mut I,
    out: &mut K,
) -> u8
    requires { length text.now ≤ MAX_POLICY }
    ensures { Works I.intake (question ≡ None) ⊤ (IsAskedOf question text.now)
        (λ failed. JudgedEnds failed question (safe_in text.now)) input.old input.new result
        (K.output out.old) (K.output out.new) }
{
    match admit(alloc, text) {
        Ok(Admitted::Safe(safe)) => run_safe(alloc, safe, question, input, out),
        Ok(Admitted::Ended(end)) => show(Ok(end), out),
        Err(_) => 8,
    }
}

/// Runs a command over the text of its policy and the input.
fn run_over<I: Source, K: Sink>(
    alloc: Global,
    command: &Command<'_>,
    text: &[u8],
    input: &mut I,
    out: &mut K,
) -> u8
    requires { length text.now ≤ MAX_POLICY }
    ensures { Works I.intake (IsPlainRun (seen_command command.now))
        (IsTrue (plays_script (seen_command command.now)))
        (AsksForScript (seen_command command.now) text.now)
        (λ failed. TextEnds failed (seen_command command.now) text.now) input.old input.new result
        (K.output out.old) (K.output out.new) }
{
    match command {
        Command::Check(_) => show(check(alloc, text), out),
        Command::Fmt(_) => show(lay_out(alloc, text), out),
        Command::Run(_, question) => run(alloc, text, *question, input, out),
    }
}

/// Runs the command over a policy that the words are, and prints to `out`; the usage line where
/// they are none.
fn run_command<S: Shelf, I: Source, K: Sink>(
    alloc: Global,
    words: &[String],
    shelf: &mut S,
    input: &mut I,
    out: &mut K,
) -> u8
    requires { IsNoGen (map string_bytes words.now) }
    ensures { RunsTool (map string_bytes words.now) result
        (scene S.stock I.intake K.output shelf.old input.old out.old)
        (scene S.stock I.intake K.output shelf.new input.new out.new) }
{
    let Some(command) = spoken(words) else {
        return print(
            out,
            1,
            b"usage: gtrbac check POLICY | fmt POLICY | run POLICY | gen SEED SIZE | forecast POLICY DAYS COND | why POLICY EVENT\n",
        );
    };
    match find_text(alloc, shelf, command.name()) {
        Ok(FoundText::Text(text)) => run_over(alloc, &command, &text, input, out),
        Ok(FoundText::Ended(end)) => show(Ok(end), out),
        Err(_) => 8,
    }
}

/// Runs the command that the words are, over a shelf of texts by name and an input, and prints to
/// `out`. The commands are `check POLICY`, which says whether a policy is safe, `fmt POLICY`, which
/// lays it out, `run POLICY`, which reads a script from the input to its end and prints its
/// replies, `forecast POLICY DAYS COND`, which prints behind these when the answer of the condition
/// changes within so many days, if no request comes any more, and `why POLICY EVENT`, which prints
/// behind them how many instants a certificate of what happened has, and why the event is in force
/// or blocked at the end; the policy is found on the shelf. `gen SEED SIZE` makes a policy and a
/// script, plays them and prints a summary; it reads neither shelf nor input. It answers the exit
/// status:
///
/// - 0: the policy is safe, or was laid out, or the script was run to its end;
/// - 1: the words are no command, and the usage line was printed;
/// - 2: a line of the policy has a fault, or its lines have one together, which was printed;
/// - 3: the policy is not safe, and its least conflict cycle was printed; `fmt` does not judge
///   this;
/// - 4: the shelf or the input failed, or the shelf has no such policy;
/// - 5: the output failed, with a proper prefix of the text written;
/// - 6: the policy has more than 4,194,304 bytes or the script more than 16,777,216;
/// - 7: a line of the script is no script line, and the replies before it were printed;
/// - 8: there was no memory, and nothing was written, but by `run` perhaps a prefix of the text;
/// - 9: a step was asked for with 1,000,000 entries in the history;
/// - 13: the policy does not declare a name of the condition or event, or has no such edge.
pub fn tool<S: Shelf, I: Source, K: Sink>(
    alloc: Global,
    words: &[String],
    shelf: &mut S,
    input: &mut I,
    out: &mut K,
) -> u8
    ensures { RunsTool (map string_bytes words.now) result
        (scene S.stock I.intake K.output shelf.old input.old out.old)
        (scene S.stock I.intake K.output shelf.new input.new out.new) }
{
    match recipe_of(words) {
        Some(recipe) => generate(alloc, recipe, out),
        None => run_command(alloc, words, shelf, input, out),
    }
}

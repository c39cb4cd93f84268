//! Where the run of a script begins, and what is told of it.
ghost use Rattle.std.specs.Prelude.{◌≡◌, ◌+◌, ◌^◌, ◌<◌, ◌≤◌, ⊤, length, IfOk, MatchResult, None};
ghost use Rattle.gt_text.specs.Lines.{lines_of};
ghost use Rattle.policy_commands.specs.declared.ends.End.{End as EndOf};
ghost use Rattle.policy_commands.specs.Ends.{seen_end};
ghost use Rattle.gtrbac_tool.specs.declared.script.Ran.TheVariants.{Unborn};
ghost use Rattle.gtrbac_tool.specs.declared.top.TheConstants.{MAX_SCRIPT};
ghost use Rattle.gtrbac_tool.specs.EndTexts.{no_birth, script_fault};
ghost use Rattle.gtrbac_tool.specs.Script.{start_of, EndsFrom};
ghost use Rattle.gtrbac_tool.specs.Late.{AnswersFrom};
ghost use Rattle.gtrbac_tool.specs.Started.{IsUnborn, started_so, number_of, Leads};
ghost use Rattle.gtrbac_tool.specs.Ends.{PlaysTo};
ghost use Rattle.gtrbac_tool.specs.Writing.{PrintsEnd};

use crate::ahead::{Inquiry, answered};
use crate::replying::show;
use crate::script::{Ran, fault_word, from_birth, stopped};
use gt_base::{Actor, Instant, List, Memory};
use gt_io::Sink;
use gt_text::Lines;
use policy_book::Policy;
use policy_commands::End;
use policy_safety::Safe;
use request_text::{Line, LineFault, read_line};
use std::alloc::Global;

/// Where a run begins: nowhere, since all lines are silent; at a birth, in the line of a number; or
/// not at all, since the first line that is not silent is no script line, or none with a minute.
#[derive(Clone, Copy)]
pub(crate) enum Start {
    Never,
    Born(Instant, u32),
    Bad(LineFault, u32),
    Unborn(u32),
}

/// Finds where a run begins; the lines are then those behind.
pub(crate) fn find_start(policy: &Policy, lines: &mut Lines<'_>) -> Start
    requires { length lines.old < 2 ^ 32 }
    ensures start { start_of policy.now 1 lines.old ≡ started_so result lines.new }
    ensures count { number_of result + length lines.new ≤ length lines.old }
{
    let mut number: u32 = 0;
    while let Some(line) = lines.next() {
        number += 1;
        match read_line(policy, Actor::Operator, true, line) {
            Ok(said) => match said {
                Line::Silent => {}
                Line::At(birth) => return Start::Born(birth, number),
                Line::Be(_) => return Start::Unborn(number),
                Line::Ask(_) => return Start::Unborn(number),
            },
            Err(fault) => return Start::Bad(fault, number),
        }
    }
    Start::Never
}

/// How a script ended at a first line that is no birth; 8 where there was no memory for that.
fn unborn_at(alloc: Global, number: u32, what: &[u8]) -> Result<Ran, u8>
    ensures { MatchResult result
        (λ ran. (end : EndOf) × (ran ≡ Unborn end)
        × (seen_end end ≡ script_fault number what.now)) (λ s. s ≡ 8) }
{
    match stopped(alloc, List::new(alloc), 7, number, what) {
        Ok(end) => Ok(Ran::Unborn(end)),
        Err(_) => Err(8),
    }
}

/// Runs a script over a safe policy, and hands the book on. Where the replies leave in pieces, they
/// are written as they come. Else the status with which it ended on the way: 5 where the output
/// failed, 8 where there was no memory. The script has fewer than 4,294,967,296 bytes.
pub(crate) fn begin<K: Sink>(
    alloc: Global,
    safe: Safe,
    script: &[u8],
    pieces: bool,
    out: &mut K,
) -> Result<Ran, u8>
    requires { length script.now < 2 ^ 32 }
    ensures { Leads safe (start_of safe 1 (lines_of script.now)) pieces result (K.output out.old)
        (K.output out.new) }
{
    let mut lines = Lines::new(script);
    match find_start(safe.policy(), &mut lines) {
        Start::Never => Ok(Ran::Unborn(End {
            status: 0,
            text: List::new(alloc),
        })),
        Start::Born(birth, number) => from_birth(alloc, safe, birth, lines, number, pieces, out),
        Start::Bad(fault, number) => unborn_at(alloc, number, fault_word(fault)),
        Start::Unborn(number) => unborn_at(alloc, number, b"birth"),
    }
}

/// Plays a script over a safe policy, and writes the replies as they come. The script has fewer
/// than 4,294,967,296 bytes.
fn play_and_reply<K: Sink>(alloc: Global, safe: Safe, script: &[u8], out: &mut K) -> u8
    requires { length script.now < 2 ^ 32 }
    ensures { PrintsEnd ⊤ (EndsFrom safe (start_of safe 1 (lines_of script.now))) result
        (K.output out.old) (K.output out.new) }
{
    match begin(alloc, safe, script, true, out) {
        Ok(Ran::Unborn(end)) => show(Ok(end), out),
        Ok(Ran::Born(_, end)) => show(Ok(end), out),
        Err(status) => status,
    }
}

/// The end at a script in which no line says anything.
fn no_birth(alloc: Global) -> Result<End, Memory>
    ensures { IfOk result (λ end. seen_end end ≡ no_birth) }
{
    Ok(End {
        status: 0,
        text: List::from(b"no birth\n".to_vec(alloc)?),
    })
}

/// The end of a script that ended before a birth, of which something is asked.
fn unborn(alloc: Global, end: End) -> Result<End, Memory>
    ensures { IfOk result (λ told. IsUnborn (seen_end end) (seen_end told)) }
{
    if end.status == 0 {
        no_birth(alloc)
    } else {
        Ok(end)
    }
}

/// Plays a script over a safe policy, and prints its end with what is asked behind it. The script
/// has fewer than 4,294,967,296 bytes.
fn play_and_answer<K: Sink>(
    alloc: Global,
    safe: Safe,
    asked: Inquiry,
    script: &[u8],
    out: &mut K,
) -> u8
    requires { length script.now < 2 ^ 32 }
    ensures { PrintsEnd ⊥ (AnswersFrom safe asked (start_of safe 1 (lines_of script.now))) result
        (K.output out.old) (K.output out.new) }
{
    match begin(alloc, safe, script, false, out) {
        Ok(Ran::Unborn(end)) => show(unborn(alloc, end), out),
        Ok(Ran::Born(book, end)) => show(answered(alloc, &book, end, asked), out),
        Err(status) => status,
    }
}

/// Plays a script over a safe policy, and prints its end with what is asked behind it; where
/// nothing is, it writes the replies as they come.
pub(crate) fn play<K: Sink>(
    alloc: Global,
    safe: Safe,
    asked: Option<Inquiry>,
    script: &[u8],
    out: &mut K,
) -> u8
    requires { length script.now ≤ MAX_SCRIPT }
    ensures { PrintsEnd (asked ≡ None) (PlaysTo safe asked script.now) result (K.output out.old)
        (K.output out.new) }
{
    match asked {
        None => play_and_reply(alloc, safe, script, out),
        Some(asked) => play_and_answer(alloc, safe, asked, script, out),
    }
}

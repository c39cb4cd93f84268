//! The run of a script over a book.
ghost use Rattle.std.specs.Prelude.{◌≡◌, ◌+◌, ◌^◌, ◌<◌, [], length, Ok, OnOk, IfOk, MatchBool, MatchResult};
ghost use Rattle.core_machine.specs.Books.{SameRoot, IsNamedFor};
ghost use Rattle.request_text.specs.declared.lines.Line.TheVariants.{Ask};
ghost use Rattle.request_text.specs.Replies.{fault_word};
ghost use Rattle.gtrbac_model.specs.Safety.{IsSafe};
ghost use Rattle.policy_commands.specs.declared.ends.End.{End as EndOf};
ghost use Rattle.policy_commands.specs.Ends.{seen_end, ending};
ghost use Rattle.gtrbac_tool.specs.declared.script.Ran.TheVariants.{Born};
ghost use Rattle.gtrbac_tool.specs.EndTexts.{behind, script_line};
ghost use Rattle.gtrbac_tool.specs.Script.{Arrives, IsFilled, born, said};
ghost use Rattle.gtrbac_tool.specs.RunStates.{run_state_of, IsActorOf, played_as, PlaysAs};
ghost use Rattle.gtrbac_tool.specs.Started.{Leads};

use crate::replying::hand_out;
use core_machine::Book;
use gt_base::{Actor, Instant, List, Memory, Request, StepFault, Who};
use gt_io::Sink;
use gt_text::{Lines, push_number};
use policy_commands::End;
use policy_safety::Safe;
use request_text::{Line, LineFault, push_reply, read_line};
use std::alloc::{AllocError, Global};

/// The one worker and the one connection of a script.
const SCRIPT: Who = Who { worker: 0, conn: 1 };

/// Where a run stands: its book, who acts, and the replies so far.
#[derive(Drop)]
pub(crate) struct Run {
    pub(crate) alloc: Global,
    pub(crate) book: Book,
    pub(crate) actor: Actor,
    pub(crate) text: List<u8>,
}

/// How a line was played: the run goes on, a step was asked for with a full history, or the line is
/// no script line.
#[derive(Clone, Copy)]
pub(crate) enum Played {
    On,
    Full,
    Bad(LineFault),
}

/// Ticks until now is at least the minute, and says whether it got there: it does not where the
/// history is full before.
fn go(book: &mut Book, minute: Instant) -> Result<bool, Memory>
    ensures root { OnOk result (SameRoot book.old book.new) }
    ensures way { IfOk result
        (λ there. MatchBool there
        (Arrives book.old.birth minute book.old.entries book.new.entries)
        (IsFilled book.old.birth minute book.old.entries book.new.entries)) }
{
    while book.now().minute() < minute.minute() {
        match book.tick(SCRIPT, minute) {
            Ok(_) => {}
            Err(StepFault::StepsFull) => return Ok(false),
            Err(StepFault::Memory) => return Err(AllocError),
        }
    }
    book.keeps();
    Ok(true)
}

/// Asks the request for the actor and adds its reply, and says so; it does neither where the
/// history is full.
fn put(run: &mut Run, request: Request) -> Result<bool, Memory>
    requires { IsNamedFor run.old.book run.old.actor request }
    ensures root { OnOk result (SameRoot run.old.book run.new.book) }
    ensures actor { OnOk result (run.new.actor ≡ run.old.actor) }
    ensures did { IfOk result
        (λ done. PlaysAs run.old.book.named run.old.book.birth (Ok (Ask request))
        (played_as done) (run_state_of run.old.book run.old.actor run.old.text.items)
        (run_state_of run.new.book run.new.actor run.new.text.items)) }
{
    run.book.keeps();
    match run.book.ask(SCRIPT, run.actor, request) {
        Ok(reply) => {
            push_reply(&mut run.text, run.book.policy(), &reply)?;
            Ok(true)
        }
        Err(StepFault::StepsFull) => Ok(false),
        Err(StepFault::Memory) => Err(AllocError),
    }
}

/// On where the step was made; else the history is full.
fn after_step(done: bool) -> Played
    ensures { result ≡ played_as done }
{
    if done { Played::On } else { Played::Full }
}

/// Reads one line of the script and does what it says: nothing, a step to its minute, another
/// actor, or a request, whose reply is written behind the text.
pub(crate) fn play_line(run: &mut Run, line: &[u8]) -> Result<Played, Memory>
    requires { IsActorOf run.old.book run.old.actor }
    ensures root { OnOk result (SameRoot run.old.book run.new.book) }
    ensures actor { OnOk result (IsActorOf run.new.book run.new.actor) }
    ensures did { IfOk result
        (λ how. PlaysAs run.old.book.named run.old.book.birth (said run.old.book.named line.now)
        how (run_state_of run.old.book run.old.actor run.old.text.items)
        (run_state_of run.new.book run.new.actor run.new.text.items)) }
{
    match read_line(run.book.policy(), Actor::Operator, true, line) {
        Ok(said) => match said {
            Line::Silent => Ok(Played::On),
            Line::Be(actor) => {
                run.actor = actor;
                run.text.push_all(b"ok\n")?;
                Ok(Played::On)
            }
            Line::At(minute) => Ok(after_step(go(&mut run.book, minute)?)),
            Line::Ask(request) => Ok(after_step(put(run, request)?)),
        },
        Err(fault) => Ok(Played::Bad(fault)),
    }
}

/// The word of a line's fault.
pub(crate) fn fault_word(fault: LineFault) -> &'static [u8]
    ensures { result.now ≡ fault_word fault }
{
    match fault {
        LineFault::Long => b"long",
        LineFault::Syntax => b"syntax",
        LineFault::Name => b"name",
    }
}

/// What is told of a line of a script at which a run stops.
fn stop_line(alloc: Global, number: u32, what: &[u8]) -> Result<Vec<u8>, Memory>
    ensures { IfOk result (λ line. line.items ≡ script_line number what.now) }
{
    let mut line = Vec::new(alloc);
    line.extend_from_slice(b"script ")?;
    push_number(&mut line, u64::from(number))?;
    line.extend_from_slice(b": ")?;
    line.extend_from_slice(what)?;
    line.extend_from_slice(b"\n")?;
    Ok(line)
}

/// The end at a line of a script, behind the text so far.
pub(crate) fn stopped(
    alloc: Global,
    mut text: List<u8>,
    status: u8,
    number: u32,
    what: &[u8],
) -> Result<End, Memory>
    ensures { IfOk result
        (λ end. seen_end end ≡ behind text.items (ending status (script_line number what.now))) }
{
    let line = stop_line(alloc, number, what)?;
    text.push_all(line.as_slice())?;
    Ok(End { status, text })
}

/// How a script was run: it ended before a birth, or from its birth on, with its book. The end has
/// what of the text was not handed out.
#[derive(Drop)]
pub(crate) enum Ran {
    Unborn(End),
    Born(Book, End),
}

/// How a run ended at a line; 8 where there was no memory for that.
fn ended(run: Run, status: u8, number: u32, what: &[u8]) -> Result<Ran, u8>
    ensures { MatchResult result
        (λ ran. (end : EndOf) × (ran ≡ Born run.book end)
        × (seen_end end ≡ behind run.text.items (ending status (script_line number what.now))))
        (λ s. s ≡ 8) }
{
    let Run {
        alloc,
        book,
        actor: _,
        text,
    } = run;
    match stopped(alloc, text, status, number, what) {
        Ok(end) => Ok(Ran::Born(book, end)),
        Err(_) => Err(8),
    }
}

/// Plays the lines out over a book without an entry; the line before them had this number. Where
/// the replies leave in pieces, they are written as they come. Else the status with which it ended
/// on the way: 5 where the output failed, 8 where there was no memory.
fn play_out<K: Sink>(
    mut run: Run,
    mut lines: Lines<'_>,
    before: u32,
    pieces: bool,
    out: &mut K,
) -> Result<Ran, u8>
    requires actor { run.actor ≡ Actor.Operator }
    requires empty { (run.book.entries ≡ []) × (run.text.items ≡ []) }
    requires count { before + length lines < 2 ^ 32 }
    requires safe { IsSafe run.book.named.policy.triggers }
    ensures { Leads run.book.named (born run.book.birth (before + 1) lines.entry) pieces result
        (K.output out.old) (K.output out.new) }
{
    let mut number = before;
    while let Some(line) = lines.next() {
        number += 1;
        run.book.keeps();
        match play_line(&mut run, line) {
            Ok(played) => match played {
                Played::On => {
                    run.book.keeps();
                    match hand_out(&mut run.text, pieces, out) {
                        Ok(()) => {}
                        Err(_) => return Err(5),
                    }
                }
                Played::Full => {
                    run.book.keeps();
                    return ended(run, 9, number, b"steps full");
                }
                Played::Bad(fault) => {
                    run.book.keeps();
                    return ended(run, 7, number, fault_word(fault));
                }
            },
            Err(_) => return Err(8),
        }
    }
    run.book.keeps();
    let Run {
        alloc: _,
        book,
        actor: _,
        text,
    } = run;
    Ok(Ran::Born(book, End { status: 0, text }))
}

/// The run of the lines behind the birth's, which had this number, over a safe policy.
pub(crate) fn from_birth<K: Sink>(
    alloc: Global,
    safe: Safe,
    birth: Instant,
    lines: Lines<'_>,
    before: u32,
    pieces: bool,
    out: &mut K,
) -> Result<Ran, u8>
    requires count { before + length lines < 2 ^ 32 }
    ensures { Leads safe (born birth (before + 1) lines.entry) pieces result (K.output out.old)
        (K.output out.new) }
{
    safe.keeps();
    match Book::new(alloc, safe, birth) {
        Ok(book) => {
            let run = Run {
                alloc,
                book,
                actor: Actor::Operator,
                text: List::new(alloc),
            };
            play_out(run, lines, before, pieces, out)
        }
        Err(_) => Err(8),
    }
}

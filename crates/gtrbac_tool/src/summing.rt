//! The command `gen`.
ghost use Rattle.std.specs.Prelude.{◌≡◌, ◌^◌, ◌<◌, ◌≤◌, ◌++◌, ◌∷◌, [], codes, length, IfOk, IfSome, IfNone, OnOk, map, string_bytes};
ghost use Rattle.std.specs.List.{count_by};
ghost use Rattle.gt_text.specs.Lines.{lines_of};
ghost use Rattle.policy_commands.specs.Ends.{seen_end};
ghost use Rattle.gtrbac_tool.specs.Script.{start_of};
ghost use Rattle.gtrbac_tool.specs.Summary.{IsGen, IsNoGen, GenEnds, SummedFrom, summed, gen_line, steps_line, end_line};
ghost use Rattle.policy_words.specs.Naming.{NamedPolicy};
ghost use Rattle.gtrbac_tool.specs.Writing.{PrintsEnd};
ghost use Rattle.gtrbac_tool.specs.Counted.{seen_recipe, word_text, permits, replies, counts, tally_line, tally};

use crate::replying::show;
use crate::script::Ran;
use crate::starting::begin;
use civil_time::write_civil;
use core_machine::Book;
use gt_base::{Decision, Entry, List, Memory, Reply, Step};
use gt_io::Sink;
use gt_text::{push_number, read_between, read_number};
use policy_commands::{Admitted, End, admit};
use policy_gen::{MAX_SIZE, make};
use policy_safety::Safe;
use std::alloc::Global;

/// What `gen` is asked: a seed, and a size from 1 to 100,000.
#[derive(Clone, Copy)]
pub(crate) struct Recipe {
    pub(crate) seed: u64,
    pub(crate) size: u32,
}

/// The word that a reply begins with, where it is counted.
#[derive(Clone, Copy)]
pub(crate) enum ReplyWord {
    Ok,
    Permit,
    Deny,
    Refused,
}

/// The recipe that two words write in digits.
fn recipe_in(seed: &str, size: &str) -> Option<Recipe>
    ensures some { IfSome result (λ r. IsGen (codes "gen" ∷ seed.now ∷ size.now ∷ [])
        (seen_recipe r)) }
    ensures none { IfNone result (IsNoGen (codes "gen" ∷ seed.now ∷ size.now ∷ [])) }
{
    let seed = read_number(seed.as_bytes())?;
    let size = read_between(1, MAX_SIZE, size.as_bytes())?;
    Some(Recipe { seed, size })
}

/// The recipe that the words are, none where they are no `gen`.
pub(crate) fn recipe_of(words: &[String]) -> Option<Recipe>
    ensures some { IfSome result (λ r. IsGen (map string_bytes words.now) (seen_recipe r)) }
    ensures none { IfNone result (IsNoGen (map string_bytes words.now)) }
{
    match words {
        [verb, seed, size] => {
            if verb.as_str() == "gen" {
                recipe_in(seed.as_str(), size.as_str())
            } else {
                None
            }
        }
        _ => None,
    }
}

/// The word that a line of the summary begins with, the first word of the replies that it counts.
fn text_of(word: ReplyWord) -> &'static [u8]
    ensures { result.now ≡ word_text word }
{
    match word {
        ReplyWord::Ok => b"ok",
        ReplyWord::Permit => b"permit",
        ReplyWord::Deny => b"deny",
        ReplyWord::Refused => b"refused",
    }
}

/// Whether a decision is a permit, whichever its walk.
fn permits(decision: &Decision) -> bool
    ensures { result ≡ permits decision.now }
{
    match decision {
        Decision::Permit { walk: _ } => true,
        Decision::NoActive | Decision::NoGrant | Decision::Shut { edge: _ } => false,
    }
}

/// Whether a reply begins with the word.
fn begins(word: ReplyWord, reply: &Reply) -> bool
    ensures { result ≡ replies word reply.now }
{
    match (word, reply) {
        (ReplyWord::Ok, Reply::Done | Reply::Active(_)) => true,
        (ReplyWord::Permit, Reply::Decided(decision)) => permits(decision),
        (ReplyWord::Deny, Reply::Decided(decision)) => !permits(decision),
        (ReplyWord::Refused, Reply::Refused(_)) => true,
        _ => false,
    }
}

/// Whether a step is a request whose reply begins with the word.
fn counts(word: ReplyWord, step: &Step) -> bool
    ensures { result ≡ counts word step.now }
{
    match step {
        Step::Tick { upto: _, to: _ } => false,
        Step::Ask {
            actor: _,
            request: _,
            reply,
        } => begins(word, reply),
    }
}

/// How many requests have a reply that begins with the word.
fn count(entries: &[Entry], word: ReplyWord) -> usize
    ensures { result ≡ count_by (λ e. counts word e.what) entries.now }
{
    entries
        .iter()
        .filter(|entry| counts(word, &entry.what))
        .count()
}

/// Adds the line of a word, with how many replies begin with it.
fn push_count(text: &mut Vec<u8>, entries: &[Entry], word: ReplyWord) -> Result<(), Memory>
    ensures { OnOk result (text.new.items ≡ text.old.items ++ tally_line word entries.now) }
{
    text.extend_from_slice(text_of(word))?;
    text.extend_from_slice(b" ")?;
    push_number(text, count(entries, word) as u64)?;
    text.extend_from_slice(b"\n")
}

/// Adds the first line of the summary: `gen SEED SIZE`.
fn push_recipe(text: &mut Vec<u8>, recipe: Recipe) -> Result<(), Memory>
    ensures { OnOk result (text.new.items ≡ text.old.items ++ gen_line (seen_recipe recipe)) }
{
    text.extend_from_slice(b"gen ")?;
    push_number(text, recipe.seed)?;
    text.extend_from_slice(b" ")?;
    push_number(text, u64::from(recipe.size))?;
    text.extend_from_slice(b"\n")
}

/// Adds the line of the length of the history, in entries.
fn push_steps(text: &mut Vec<u8>, entries: &[Entry]) -> Result<(), Memory>
    ensures { OnOk result (text.new.items ≡ text.old.items ++ steps_line entries.now) }
{
    text.extend_from_slice(b"steps ")?;
    push_number(text, entries.len() as u64)?;
    text.extend_from_slice(b"\n")
}

/// Adds the last line of the summary: the minute now.
fn push_now(text: &mut Vec<u8>, book: &Book) -> Result<(), Memory>
    ensures { OnOk result (text.new.items ≡ text.old.items
        ++ end_line book.now.birth book.now.entries) }
{
    text.extend_from_slice(b"end ")?;
    text.extend_from_slice(&write_civil(book.now()))?;
    text.extend_from_slice(b"\n")
}

/// The summary of a book: the recipe, the length of the history, how many replies begin with each
/// of the four words, and the instant now.
fn tally(alloc: Global, recipe: Recipe, book: &Book) -> Result<Vec<u8>, Memory>
    ensures { IfOk result
        (λ text. text.items ≡ tally (seen_recipe recipe) book.now.birth book.now.entries) }
{
    let entries = book.entries().as_slice();
    let mut text = Vec::new(alloc);
    push_recipe(&mut text, recipe)?;
    push_steps(&mut text, entries)?;
    push_count(&mut text, entries, ReplyWord::Ok)?;
    push_count(&mut text, entries, ReplyWord::Permit)?;
    push_count(&mut text, entries, ReplyWord::Deny)?;
    push_count(&mut text, entries, ReplyWord::Refused)?;
    push_now(&mut text, book)?;
    Ok(text)
}

/// The summary in place of the replies where the script was played to its end, and else the run's
/// own end.
fn sum_up(alloc: Global, recipe: Recipe, book: &Book, end: End) -> Result<End, Memory>
    ensures { IfOk result
        (λ told. (np : NamedPolicy)
        → seen_end told
        ≡ summed np (seen_recipe recipe) book.now.birth book.now.entries (seen_end end)) }
{
    if end.status != 0 {
        return Ok(end);
    }
    Ok(End {
        status: 0,
        text: List::from(tally(alloc, recipe, book)?),
    })
}

/// Plays the script, and prints its summary. The script has fewer than 4,294,967,296 bytes.
fn play_and_sum<K: Sink>(
    alloc: Global,
    recipe: Recipe,
    safe: Safe,
    script: &[u8],
    out: &mut K,
) -> u8
    requires { length script.now < 2 ^ 32 }
    ensures { PrintsEnd ⊥ (SummedFrom safe (seen_recipe recipe) (start_of safe 1 (lines_of script.now)))
        result (K.output out.old) (K.output out.new) }
{
    match begin(alloc, safe, script, false, out) {
        Ok(Ran::Unborn(end)) => show(Ok(end), out),
        Ok(Ran::Born(book, end)) => show(sum_up(alloc, recipe, &book, end), out),
        Err(status) => status,
    }
}

/// Makes the policy and the script of a recipe, plays them, and prints a summary. It reads nothing.
pub(crate) fn generate<K: Sink>(alloc: Global, recipe: Recipe, out: &mut K) -> u8
    requires { (1 ≤ recipe.size) × (recipe.size ≤ MAX_SIZE) }
    ensures { PrintsEnd ⊥ (GenEnds (seen_recipe recipe)) result (K.output out.old)
        (K.output out.new) }
{
    let Ok(made) = make(alloc, recipe.seed, recipe.size) else {
        return 8;
    };
    match admit(alloc, made.policy.as_slice()) {
        Ok(Admitted::Safe(safe)) => play_and_sum(alloc, recipe, safe, made.script.as_slice(), out),
        Ok(Admitted::Ended(end)) => show(Ok(end), out),
        Err(_) => 8,
    }
}

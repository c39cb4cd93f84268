//! The rest of a line after some words.
ghost use Rattle.std.specs.Prelude.{◌≡◌, ◌≤◌, length};
ghost use Rattle.policy_words.specs.Rests.{unindented, past_word, trimmed, rest_after};
ghost use Rattle.policy_words.specs.Reading.{expr_of_line};

use gt_text::{is_blank, without_return};

/// The text without the blanks before it.
fn unindented(mut text: &[u8]) -> &[u8]
    ensures rest { result.now ≡ unindented text.now }
    ensures fewer { length result.now ≤ length text.now }
{
    while let [b, rest @ ..] = text {
        if !is_blank(*b) {
            break;
        }
        text = rest;
    }
    text
}

/// What follows the first word.
fn past_word(mut text: &[u8]) -> &[u8]
    ensures rest { result.now ≡ past_word text.now }
    ensures fewer { length result.now ≤ length text.now }
{
    while let [b, rest @ ..] = text {
        if is_blank(*b) {
            break;
        }
        text = rest;
    }
    text
}

/// The text without the blanks at its end.
fn trimmed(mut text: &[u8]) -> &[u8]
    ensures rest { result.now ≡ trimmed text.now }
    ensures fewer { length result.now ≤ length text.now }
{
    while let [front @ .., b] = text {
        if !is_blank(*b) {
            break;
        }
        text = front;
    }
    text
}

/// What follows four words and the blanks behind them.
fn after_four(line: &[u8]) -> &[u8]
    ensures rest { result.now ≡ rest_after 4 line.now }
    ensures fewer { length result.now ≤ length line.now }
{
    let second = past_word(unindented(line));
    let third = past_word(unindented(second));
    let fourth = past_word(unindented(third));
    unindented(past_word(unindented(fourth)))
}

/// The expression of a line of a period: what follows four words, without the blanks round it.
pub(crate) fn expression(line: &[u8]) -> &[u8]
    ensures rest { result.now ≡ expr_of_line line.now }
    ensures fewer { length result.now ≤ length line.now }
{
    trimmed(after_four(without_return(line)))
}

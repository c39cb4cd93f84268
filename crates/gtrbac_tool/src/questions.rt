//! What may be asked behind a script, read from words.
ghost use Rattle.std.specs.Prelude.{◌≡◌, ◌∷◌, [], map, string_bytes};
ghost use Rattle.gtrbac_tool.specs.Late.{one_said, two_said, fluent_said, cond_said, event_said, forecast_in, why_in};

use gt_base::Name;
use gt_text::read_between;
use policy_lines::{cond_verb, event_verb, read_name};
use policy_words::{NamedCond, NamedEvent, NamedFluent, Sort};

/// What is asked, by names.
#[derive(Clone, Copy)]
pub(crate) enum Question {
    /// When the answer of the condition changes, within so many days, 1 to 36,525.
    Forecast(u32, NamedCond),
    /// Why the event is in force, or blocked.
    Why(NamedEvent),
}

/// The one name that the words are.
fn one(names: &[String]) -> Option<Name>
    ensures { result ≡ one_said (map string_bytes names.now) }
{
    match names {
        [name] => read_name(name.as_bytes()),
        _ => None,
    }
}

/// The names that two words are.
fn both(first: &[u8], second: &[u8]) -> Option<(Name, Name)>
    ensures { result ≡ two_said (first.now ∷ second.now ∷ []) }
{
    Some((read_name(first)?, read_name(second)?))
}

/// The two names that the words are.
fn two(names: &[String]) -> Option<(Name, Name)>
    ensures { result ≡ two_said (map string_bytes names.now) }
{
    match names {
        [first, second] => both(first.as_bytes(), second.as_bytes()),
        _ => None,
    }
}

/// The fluent whose names the words are.
fn fluent(sort: Sort, names: &[String]) -> Option<NamedFluent>
    ensures { result ≡ fluent_said sort (map string_bytes names.now) }
{
    match sort {
        Sort::Enabling => Some(NamedFluent::Enabled(one(names)?)),
        Sort::Arming => Some(NamedFluent::Limit(one(names)?)),
        Sort::Assigning => {
            let (user, role) = two(names)?;
            Some(NamedFluent::Assigned(user, role))
        }
        Sort::Granting => {
            let (perm, role) = two(names)?;
            Some(NamedFluent::Granted(perm, role))
        }
        Sort::Linking => {
            let (senior, junior) = two(names)?;
            Some(NamedFluent::Edge(senior, junior))
        }
    }
}

/// The condition of a verb and the names behind it.
fn cond_of(verb: &[u8], names: &[String]) -> Option<NamedCond>
    ensures { result ≡ cond_said (verb.now ∷ map string_bytes names.now) }
{
    let (on, sort) = cond_verb(verb)?;
    let fluent = fluent(sort, names)?;
    Some(NamedCond { on, fluent })
}

/// The condition that the words are.
fn cond(words: &[String]) -> Option<NamedCond>
    ensures { result ≡ cond_said (map string_bytes words.now) }
{
    match words {
        [verb, names @ ..] => cond_of(verb.as_bytes(), names),
        [] => None,
    }
}

/// The days of a word and the condition behind it.
fn forecast_of(days: &[u8], words: &[String]) -> Option<Question>
    ensures { result ≡ forecast_in (days.now ∷ map string_bytes words.now) }
{
    let days = read_between(1, 36_525, days)?;
    Some(Question::Forecast(days, cond(words)?))
}

/// The days and the condition that the words are.
pub(crate) fn forecast(words: &[String]) -> Option<Question>
    ensures { result ≡ forecast_in (map string_bytes words.now) }
{
    match words {
        [days, words @ ..] => forecast_of(days.as_bytes(), words),
        [] => None,
    }
}

/// The event of a verb and the names behind it.
fn event_of(verb: &[u8], names: &[String]) -> Option<NamedEvent>
    ensures { result ≡ event_said (verb.now ∷ map string_bytes names.now) }
{
    let (on, sort) = event_verb(verb)?;
    let fluent = fluent(sort, names)?;
    Some(NamedEvent { on, fluent })
}

/// The event that the words are.
fn event(words: &[String]) -> Option<NamedEvent>
    ensures { result ≡ event_said (map string_bytes words.now) }
{
    match words {
        [verb, names @ ..] => event_of(verb.as_bytes(), names),
        [] => None,
    }
}

/// The event, without a priority, that the words are.
pub(crate) fn why(words: &[String]) -> Option<Question>
    ensures { result ≡ why_in (map string_bytes words.now) }
{
    Some(Question::Why(event(words)?))
}

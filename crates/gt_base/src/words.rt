//! Sets of fluents as ascending words of 64 bits, each of fluents that stand side by side in one
//! row.
ghost use Rattle.std.specs.Prelude.{◌≡◌, ◌≤◌, ◌+◌, ◌*◌, ◌^◌, ◌%◌, ◌<◌, ◌++◌, true, false, flat_map, OnOk, IfOk, IfErr, vec_capacity, vec_len};
ghost use Rattle.std.specs.List.{list_any};
ghost use Rattle.gt_base.specs.declared.events.Fluent.TheVariants.{Granted};
ghost use Rattle.gt_base.specs.declared.events.PermId.{PermId as PermView};
ghost use Rattle.gt_base.specs.declared.events.RoleId.{RoleId as RoleView};
ghost use Rattle.gt_base.specs.Orders.{fluent_cmp};
ghost use Rattle.gt_base.specs.Sets.{has, members, set_of, with_member, without};
ghost use Rattle.gt_base.specs.Words.{row_of, first_of, word_place, fluent_in, fluents_of, set_of_words, is_of_perms, AreWords, WordStandsAt, GoesAt};

use crate::events::{Fluent, LimitId, PermId, RoleId, UserId};
use crate::lists::Memory;

/// A row: the fluents of one kind and, where they have two names, with the same second name.
#[derive(Clone, Copy, PartialEq, Eq, PartialOrd, Ord)]
pub(crate) enum Row {
    Roles,
    UsersOf(RoleId),
    PermsOf(RoleId),
    Limits,
    Edges,
}

/// The place of a word: its row, and how many words of 64 fluents stand below it in the row.
#[derive(Clone, Copy, PartialEq, Eq, PartialOrd, Ord)]
pub(crate) struct WordPlace {
    pub(crate) row: Row,
    pub(crate) below: u32,
}

/// Which of the 64 fluents at a place are on: a bit each, the lowest for the lowest first name.
#[derive(Clone, Copy)]
pub(crate) struct FlagWord {
    pub(crate) place: WordPlace,
    pub(crate) bits: u64,
}

/// The row that the fluent stands in.
fn row_of(f: Fluent) -> Row
    ensures { result ≡ row_of f }
{
    match f {
        Fluent::Enabled(_) => Row::Roles,
        Fluent::Assigned(_, role) => Row::UsersOf(role),
        Fluent::Granted(_, role) => Row::PermsOf(role),
        Fluent::Limit(_) => Row::Limits,
        Fluent::Edge(_) => Row::Edges,
    }
}

/// The fluent's first name, by which it stands in its row.
fn first_of(f: Fluent) -> u32
    ensures { result ≡ first_of f }
{
    match f {
        Fluent::Enabled(role) => role.0,
        Fluent::Assigned(user, _) => user.0,
        Fluent::Granted(perm, _) => perm.0,
        Fluent::Limit(limit) => limit.0,
        Fluent::Edge(edge) => edge,
    }
}

/// The place of the fluent's word.
fn place_of(f: Fluent) -> WordPlace
    ensures place { result ≡ word_place f }
    ensures within { result.below < 2 ^ 26 }
{
    WordPlace {
        row: row_of(f),
        below: first_of(f) / 64,
    }
}

/// The word that has the fluent's bit alone.
fn bit_of(f: Fluent) -> u64
    ensures { result ≡ 2 ^ (first_of f % 64) }
{
    1 << (first_of(f) % 64)
}

/// The fluent of the row with this first name.
fn fluent_in(row: Row, first: u32) -> Fluent
    ensures { result ≡ fluent_in row first }
{
    match row {
        Row::Roles => Fluent::Enabled(RoleId(first)),
        Row::UsersOf(role) => Fluent::Assigned(UserId(first), role),
        Row::PermsOf(role) => Fluent::Granted(PermId(first), role),
        Row::Limits => Fluent::Limit(LimitId(first)),
        Row::Edges => Fluent::Edge(first),
    }
}

/// Where the word of this place stands, or where it goes in.
fn find(words: &[FlagWord], place: WordPlace) -> Result<usize, usize>
    requires { AreWords words.now }
    ensures found { IfOk result (WordStandsAt place words.now) }
    ensures absent { IfErr result (GoesAt place words.now) }
{
    words.binary_search_by_key(
        &place,
        |word: &FlagWord| -> WordPlace
            ensures { result ≡ word.now.place }
        { word.place },
    )
}

/// Whether the fluent is on.
pub(crate) fn is_on(words: &[FlagWord], f: Fluent) -> bool
    requires { AreWords words.now }
    ensures { result ≡ has (set_of_words words.now) f }
{
    match find(words, place_of(f)) {
        Ok(i) => words[i].bits & bit_of(f) != 0,
        Err(_) => false,
    }
}

/// Whether no word is of a row of permissions: then none grants anything.
pub(crate) fn grant_nothing(words: &[FlagWord]) -> bool
    ensures { result ≡ true → (p : PermView) (r : RoleView)
        → has (set_of_words words.now) (Granted p r) ≡ false }
{
    !has_perms(words)
}

/// Whether a word is of a row of permissions.
fn has_perms(words: &[FlagWord]) -> bool
    ensures { result ≡ list_any (λ w. is_of_perms w.place.row) words.now }
{
    words.iter().any(|w| is_of_perms(w.place.row))
}

/// Whether the row is one of permissions.
fn is_of_perms(row: Row) -> bool
    ensures { result ≡ is_of_perms row }
{
    matches!(row, Row::PermsOf(_))
}

/// Sets the fluent on. One further word at most.
pub(crate) fn turn_on(words: &mut Vec<FlagWord>, f: Fluent)
    requires words { AreWords words.old.items }
    requires room { vec_len words.old < vec_capacity words.old }
    ensures words { AreWords words.new.items }
    ensures set { set_of_words words.new.items ≡ with_member (set_of_words words.old.items) f }
    ensures capacity { vec_capacity words.old ≤ vec_capacity words.new }
    ensures len { vec_len words.new ≤ vec_len words.old + 1 }
{
    let place = place_of(f);
    let bits = bit_of(f);
    match find(words, place) {
        Ok(i) => words[i].bits |= bits,
        Err(i) => match words.insert(i, FlagWord { place, bits }) {
            Ok(()) => {}
            Err(_) => unreachable!(),
        },
    }
}

/// Sets the fluent off. Its word stays, so that nothing moves when one of its fluents is set on
/// again.
pub(crate) fn turn_off(words: &mut Vec<FlagWord>, f: Fluent)
    requires { AreWords words.old.items }
    ensures words { AreWords words.new.items }
    ensures set { set_of_words words.new.items ≡ without (set_of_words words.old.items) f }
    ensures capacity { vec_capacity words.new ≡ vec_capacity words.old }
    ensures len { vec_len words.new ≡ vec_len words.old }
{
    if let Ok(i) = find(words, place_of(f)) {
        words[i].bits &= !bit_of(f);
    }
}

/// Adds the fluents of the words that are on.
pub(crate) fn add_all(fluents: &mut Vec<Fluent>, words: &[FlagWord]) -> Result<(), Memory>
    requires { AreWords words.now }
    ensures { OnOk result (fluents.new.items ≡ fluents.old.items ++ flat_map fluents_of words.now) }
{
    for word in words {
        add_fluents(fluents, *word)?;
    }
    Ok(())
}

/// Adds the fluents of the word that are on.
fn add_fluents(fluents: &mut Vec<Fluent>, word: FlagWord) -> Result<(), Memory>
    requires { word.place.below < 2 ^ 26 }
    ensures { OnOk result (fluents.new.items ≡ fluents.old.items ++ fluents_of word) }
{
    for bit in 0..64 {
        if word.bits >> bit & 1 == 1 {
            fluents.push(fluent_in(word.place.row, word.place.below * 64 + bit))?;
        }
    }
    Ok(())
}

/// The same fluents, each once, in ascending order.
pub(crate) fn ascending(mut fluents: Vec<Fluent>) -> Vec<Fluent>
    ensures { result.items ≡ members (set_of {R = fluent_cmp} fluents.items) }
{
    fluents.sort_unstable();
    fluents.dedup();
    fluents
}

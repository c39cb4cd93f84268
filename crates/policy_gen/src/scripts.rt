//! The text of the made script, by the numbers that are drawn.
ghost use Rattle.std.specs.Prelude.{◌≡◌, ◌≤◌, ◌<◌, ◌+◌, ◌*◌, ◌++◌, ◌∷◌, [], codes, flat_map, OnOk};
ghost use Rattle.gt_text.specs.Words.{as_text};
ghost use Rattle.policy_gen.specs.Draws.{draw};
ghost use Rattle.policy_gen.specs.declared.made.TheConstants.{MAX_SIZE};
ghost use Rattle.policy_gen.specs.Texts.{one, opening, all_for_each, request_line, time_line, round_lines, script_lines};
ghost use Rattle.std.specs.List.{range_with_len};
ghost use Rattle.gt_base.specs.declared.limits.TheConstants.{LAST_MINUTE};
ghost use Rattle.policy_gen.specs.Steps.{round_from, four_after, lines_at, seen_round};

use crate::draws::Draws;
use crate::policies::{push_one, push_two};
use civil_time::write_civil;
use gt_base::{Instant, Memory};

/// 2026-01-05T08:00, the minute of the script's first line.
pub const FIRST_MINUTE: u32 = 13_681_920;

/// What a round does: how many minutes time goes on, the user with its session, a second number,
/// and the choice of a request.
#[derive(Clone, Copy)]
pub(crate) struct Round {
    pub(crate) minutes: u32,
    pub(crate) user: u32,
    pub(crate) other: u32,
    pub(crate) choice: u32,
}

/// Draws a round, of k users.
fn next_round(draws: &mut Draws, k: u32) -> Round
    requires { (1 ≤ k) × (k ≤ 200) }
    ensures round { seen_round result ≡ round_from k draws.old }
    ensures next { draws.new ≡ four_after draws.old }
    ensures minutes { result.minutes ≤ 60 }
{
    let minutes = draws.draw_up_to(60);
    let user = draws.draw_up_to(k);
    let other = draws.draw_up_to(k);
    let choice = draws.draw() % 4;
    Round {
        minutes,
        user,
        other,
        choice,
    }
}

/// Adds the line of a minute.
fn push_time(text: &mut Vec<u8>, minute: u32) -> Result<(), Memory>
    requires { minute ≤ LAST_MINUTE }
    ensures { OnOk result (text.new.items ≡ text.old.items ++ (time_line minute ++ 10 ∷ [])) }
{
    let time = write_civil(Instant::new(minute).unwrap());
    text.extend_from_slice(b"@ ")?;
    text.extend_from_slice(&time)?;
    text.extend_from_slice(b"\n")
}

/// Adds the line by which a user acts.
fn push_user(text: &mut Vec<u8>, user: u32) -> Result<(), Memory>
    ensures { OnOk result (text.new.items ≡ text.old.items
        ++ (one (codes "as u") user ++ 10 ∷ [])) }
{
    push_one(text, b"as u", user)?;
    text.extend_from_slice(b"\n")
}

/// Adds what a round asks.
fn push_request(text: &mut Vec<u8>, round: Round) -> Result<(), Memory>
    ensures { OnOk result (text.new.items ≡ text.old.items ++ request_line (seen_round round)) }
{
    match round.choice {
        0 => push_two(text, b"activate ", round.user, b" r", round.user),
        1 => push_two(text, b"check ", round.user, b" p", round.other),
        2 => push_two(text, b"deactivate ", round.user, b" r", round.user),
        _ => push_one(text, b"status enabled r", round.other),
    }
}

/// Adds the lines of a round that is played at the minute.
fn push_round(text: &mut Vec<u8>, minute: u32, round: Round) -> Result<(), Memory>
    requires { minute ≤ LAST_MINUTE }
    ensures { OnOk result (text.new.items ≡ text.old.items
        ++ as_text (lines_at minute (seen_round round))) }
{
    push_time(text, minute)?;
    push_user(text, round.user)?;
    push_request(text, round)?;
    text.extend_from_slice(b"\n")
}

/// Adds the lines by which a user opens a session.
fn push_opening(text: &mut Vec<u8>, user: u32) -> Result<(), Memory>
    ensures { OnOk result (text.new.items ≡ text.old.items ++ as_text (opening user)) }
{
    push_user(text, user)?;
    text.extend_from_slice(b"open\n")
}

/// Adds the lines by which the users 1 to k open their sessions.
fn push_openings(text: &mut Vec<u8>, k: u32) -> Result<(), Memory>
    requires { k ≤ 200 }
    ensures { OnOk result (text.new.items ≡ text.old.items ++ as_text (all_for_each opening k)) }
{
    for n in 0..k {
        push_opening(text, n + 1)?;
    }
    Ok(())
}

/// Adds the rounds.
fn push_rounds(text: &mut Vec<u8>, seed: u64, k: u32, rounds: u32) -> Result<(), Memory>
    requires users { (1 ≤ k) × (k ≤ 200) }
    requires rounds { rounds ≤ MAX_SIZE }
    ensures { OnOk result (text.new.items ≡ text.old.items
        ++ as_text (flat_map (round_lines seed k) (range_with_len 0 rounds))) }
{
    let mut draws = Draws::new(seed);
    let mut minute = FIRST_MINUTE;
    for n in 0..rounds {
        let round = next_round(&mut draws, k);
        minute += round.minutes;
        push_round(text, minute, round)?;
    }
    Ok(())
}

/// Adds the script of k users and of as many rounds.
pub(crate) fn push_script(text: &mut Vec<u8>, seed: u64, k: u32, rounds: u32) -> Result<(), Memory>
    requires users { (1 ≤ k) × (k ≤ 200) }
    requires rounds { rounds ≤ MAX_SIZE }
    ensures { OnOk result (text.new.items ≡ text.old.items
        ++ as_text (script_lines seed k rounds)) }
{
    push_time(text, FIRST_MINUTE)?;
    push_openings(text, k)?;
    push_rounds(text, seed, k, rounds)
}

//! Lines that are read ahead of their turn, so that a pass that keeps its turn for many lines does
//! neither frame nor read them in it.
ghost use Rattle.std.specs.Prelude.{◌≡◌, ℕ, ◌<◌, ◌≤◌, List, [], ◌∷◌, length, take, IfSome, All};
ghost use Rattle.std.specs.Option.{option_to_list};
ghost use Rattle.connection_laws.specs.Fits.{FrameFits};
ghost use Rattle.connection_laws.specs.Attending.{IsRead, AreRead};

use gt_base::Actor;
use gt_io::{Framed, Framer};
use policy_book::Policy;
use request_text::{Line, LineFault, read_line};

/// So many lines are read ahead at most.
pub(crate) const MAX_AHEAD: usize = 64;

/// How many bytes were taken, and how many lines they end.
#[derive(Clone, Copy)]
pub(crate) struct Ahead {
    pub bytes: usize,
    pub lines: usize,
}

/// Takes one more byte, and reads the line that it ends.
fn read_byte(policy: &Policy, framer: &mut Framer, byte: u8) -> Option<Result<Line, LineFault>>
    ensures read { (text : List ℕ) → FrameFits framer.old text
        → AreRead policy.now text (byte ∷ []) framer.new (option_to_list result) }
    ensures said { IfSome result (IsRead policy.now) }
{
    match framer.push(byte) {
        Framed::More => None,
        Framed::Whole => Some(read_line(policy, Actor::Nobody, false, framer.line())),
        Framed::Long => Some(Err(LineFault::Long)),
    }
}

/// Takes the first bytes of a piece, and reads the lines that they end, as many as there is room
/// for.
pub(crate) fn read_ahead(
    policy: &Policy,
    framer: &mut Framer,
    piece: &[u8],
    said: &mut [Result<Line, LineFault>],
) -> Ahead
    ensures read { (text : List ℕ) → FrameFits framer.old text → AreRead policy.now text
        (take result.bytes piece.now) framer.new (take result.lines said.new) }
    ensures said { All (IsRead policy.now) (take result.lines said.new) }
    ensures within { (result.bytes ≤ length piece.now) × (result.lines ≤ length said.new)
        × (result.lines ≤ result.bytes) }
    ensures some { 0 < length piece.now → 0 < length said.new → 0 < result.bytes }
{
    let mut at = 0;
    let mut lines = 0;
    while at < piece.len() && lines < said.len() {
        let (_, rest) = piece.split_at(at);
        at += framer.push_front(rest);
        if at < piece.len() {
            let read = read_byte(policy, framer, piece[at]);
            at += 1;
            if let Some(line) = read {
                said[lines] = line;
                lines += 1;
            }
        }
    }
    Ahead { bytes: at, lines }
}

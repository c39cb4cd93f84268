//! How ends and replies are printed.
ghost use Rattle.std.specs.Prelude.{◌≡◌, ◌<◌, true, length, IsTrue, OnOk, OnErr};
ghost use Rattle.gt_io.specs.Causes.{AppendsPart, HasCause};
ghost use Rattle.gtrbac_tool.specs.Writing.{Prints, Sends};

use gt_base::{List, Memory};
use gt_io::{Failed, Sink, write_all};
use policy_commands::{End, print};

/// How many bytes of replies may wait before they are written.
const REPLY_PIECE: usize = 65_536;

/// Prints the end, where there was memory for it.
pub(crate) fn show<K: Sink>(end: Result<End, Memory>, out: &mut K) -> u8
    ensures { Prints end result (K.output out.old) (K.output out.new) }
{
    match end {
        Ok(end) => print(out, end.status, end.text.as_slice()),
        Err(_) => 8,
    }
}

/// Writes the text that waits, where it is long and leaves in pieces.
pub(crate) fn hand_out<K: Sink>(
    text: &mut List<u8>,
    pieces: bool,
    out: &mut K,
) -> Result<(), Failed>
    ensures sent { OnOk result (Sends pieces text.old.items text.new.items (K.output out.old)
        (K.output out.new)) }
    ensures part { OnErr result ((pieces ≡ true)
        × AppendsPart (K.output out.old).written (K.output out.new).written text.old.items) }
    ensures short { IsTrue pieces → OnOk result (length text.new.items < REPLY_PIECE) }
    ensures cause { HasCause (K.output out.old).faults (K.output out.new).faults result }
{
    if !pieces || text.len() < REPLY_PIECE {
        return Ok(());
    }
    write_all(out, text.as_slice())?;
    text.clear();
    Ok(())
}

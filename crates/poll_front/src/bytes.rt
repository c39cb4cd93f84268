//! The reads and writes of an open link.
ghost use Rattle.std.specs.Prelude.{◌≡◌, ◌<◌, ◌≤◌, ℕ, length, Ok};
ghost use Rattle.connection_laws.specs.Acting.{told_bytes};
ghost use Rattle.gt_io.specs.Ports.{IsOpen, ReadsPort};
ghost use Rattle.poll_front.specs.Fronts.{IsLive, PushesOut, FillsUp};

use crate::ends::PollEnd;
use crate::states::{LinkState, MAX_READ, RunCounters, Yield};
use connection_laws::reply_of;
use gt_io::{Failed, Got, Ports, Took};

/// Writes the text from the byte `at` on, as far as the link takes it now.
fn push_out<P: Ports>(ports: &mut P, link: u32, text: &[u8], at: &mut usize) -> Result<(), Yield>
    requires live { IsLive (P.harbour ports.old) link }
    requires within { at.old ≤ length text.now }
    ensures { PushesOut (P.harbour ports.old) (P.harbour ports.new) link text.now at.old at.new
        result }
{
    while *at < text.len() {
        let (_, rest) = text.split_at(*at);
        match ports.write(link, rest) {
            Ok(Took::Bytes(n)) => *at += n,
            Ok(Took::NotYet) => return Err(Yield::Later),
            Err(_) => return Err(Yield::End(PollEnd::WriteFault)),
        }
    }
    Ok(())
}

/// Writes what is left of the reply to the last line.
pub(crate) fn write_out<P: Ports>(
    ports: &mut P,
    link: u32,
    state: &mut LinkState,
) -> Result<(), Yield>
    requires { IsLive (P.harbour ports.old) link
        × (state.old.at ≤ length (told_bytes state.old.told)) }
    ensures same { state.new ≡ record state.old { at = state.new.at } }
    ensures pushes { PushesOut (P.harbour ports.old) (P.harbour ports.new) link
        (told_bytes state.old.told) state.old.at state.new.at result }
{
    push_out(ports, link, reply_of(&state.told), &mut state.at)
}

/// Reads some bytes, `left` at most.
fn read_some<P: Ports>(ports: &mut P, link: u32, buf: &mut [u8], left: usize) -> Result<Got, Failed>
    requires open { IsOpen (P.harbour ports.old) link }
    requires buf { 0 < length buf.old }
    requires left { 0 < left }
    ensures reads { ReadsPort (P.harbour ports.old) (P.harbour ports.new) link buf.new result }
    ensures few { (n : ℕ) → result ≡ Ok (Got.Bytes n) → n ≤ left }
{
    let room = left.min(buf.len());
    ports.read(link, &mut buf[..room])
}

/// Reads the bytes that are to be acted on next.
pub(crate) fn fill<P: Ports>(ports: &mut P, link: u32, state: &mut LinkState) -> Result<(), Yield>
    requires live { IsLive (P.harbour ports.old) link }
    requires left { 0 < state.old.left }
    requires none { state.old.from ≡ state.old.upto }
    requires within { state.old.upto ≤ MAX_READ }
    ensures fills { FillsUp (P.harbour ports.old) (P.harbour ports.new) link state.old state.new
        result }
    ensures size { length state.new.chunk ≡ MAX_READ }
{
    match read_some(ports, link, &mut state.chunk, state.left) {
        Ok(Got::Bytes(n)) => {
            state.left -= n;
            state.from = 0;
            state.upto = n;
            Ok(())
        }
        Ok(Got::Finished) => Err(Yield::End(PollEnd::Ended)),
        Ok(Got::NotYet) => Err(Yield::Later),
        Err(_) => Err(Yield::End(PollEnd::ReadFault)),
    }
}

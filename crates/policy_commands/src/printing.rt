//! The end of a program on its output.
ghost use Rattle.policy_commands.specs.Ends.{ending};
ghost use Rattle.policy_commands.specs.Printing.{IsPrinted};

use gt_io::{Sink, write_all};

/// Prints a text and answers the status; an output that fails has status 5.
pub fn print<K: Sink>(out: &mut K, status: u8, text: &[u8]) -> u8
    ensures { IsPrinted result (ending status text.now) (K.output out.old).written
        (K.output out.new).written
        (K.output out.old).faults (K.output out.new).faults }
{
    match write_all(out, text) {
        Ok(()) => status,
        Err(_) => 5,
    }
}

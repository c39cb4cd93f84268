//! What is written at the end of a run with viewers.
ghost use Rattle.std.specs.Prelude.{◌≡◌, ◌⊎◌, ◌++◌, ℕ, Some, IfOk};
ghost use Rattle.request_text.specs.Replies.{log_text};
ghost use Rattle.gtrbac_daemon.specs.Runs.{IsWritten};
ghost use Rattle.gtrbac_daemon.specs.Pages.{IsBlankPage};
ghost use Rattle.gtrbac_daemon.specs.Views.{late_line, views_text};

use crate::printing::write_up;
use core_machine::Ledger;
use gt_base::Memory;
use gt_io::Sink;
use gt_text::push_number;
use policy_commands::print;
use request_text::Page;
use std::alloc::Global;

/// The line that names a number above the length.
fn name_late(alloc: Global, n: u64, len: u64) -> Result<Vec<u8>, Memory>
    ensures { IfOk result (λ line. line.items ≡ late_line (Some n) len) }
{
    let mut line = Vec::new(alloc);
    line.extend_from_slice(b"views: ")?;
    push_number(&mut line, n)?;
    line.extend_from_slice(b" > ")?;
    push_number(&mut line, len)?;
    line.extend_from_slice(b"\n")?;
    Ok(line)
}

/// Writes the log of a ledger and then a line, at whose end 14 is due.
fn write_late<K: Sink>(page: &mut Page, ledger: &Ledger, line: &[u8], out: &mut K) -> u8
    requires { IsBlankPage page.old }
    ensures { IsWritten 14
        (log_text ledger.now.named ledger.now.birth ledger.now.entries ++ line.now) result
        (K.output out.old).written (K.output out.new).written (K.output out.old).faults
        (K.output out.new).faults }
{
    let status = write_up(page, ledger, 14, out);
    if status == 14 {
        print(out, 14, line)
    } else {
        status
    }
}

/// Writes the log of a ledger, at whose end this status is due, and at 14 the line that names the
/// late number after it. Where there is no memory for that line, 8 is due.
pub(crate) fn write_views<K: Sink>(
    alloc: Global,
    page: &mut Page,
    ledger: &Ledger,
    due: u8,
    late: Option<u64>,
    out: &mut K,
) -> u8
    requires { IsBlankPage page.old }
    ensures { (d : ℕ) × ((d ≡ due) ⊎ ((d ≡ 8) × (due ≡ 14)))
        × IsWritten d
        (views_text ledger.now.named ledger.now.birth ledger.now.entries d late) result
        (K.output out.old).written (K.output out.new).written (K.output out.old).faults
        (K.output out.new).faults }
{
    match late {
        Some(n) if due == 14 => {
            match name_late(alloc, n, ledger.book().entries().len() as u64) {
                Ok(line) => write_late(page, ledger, line.as_slice(), out),
                Err(_) => write_up(page, ledger, 8, out),
            }
        }
        _ => write_up(page, ledger, due, out),
    }
}

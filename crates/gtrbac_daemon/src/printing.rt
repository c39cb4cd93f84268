//! What is written at the end.
ghost use Rattle.std.specs.Prelude.{◌≡◌, ◌≤◌, IfOk, OnOk, OnErr};
ghost use Rattle.std.specs.Io.KnownBytes.{Appends};
ghost use Rattle.gt_io.specs.Causes.{HasCause, AppendsPart};
ghost use Rattle.request_text.specs.Fitting.{FitPages};
ghost use Rattle.request_text.specs.Replies.{log_text};
ghost use Rattle.request_text.specs.declared.entries.TheConstants.{LONGEST_ENTRY};
ghost use Rattle.gtrbac_daemon.specs.Runs.{or_failed, IsWritten};
ghost use Rattle.gtrbac_daemon.specs.Pages.{IsBlankPage, WritesPage, text_from};

use core_machine::Ledger;
use gt_base::Entry;
use gt_io::{Failed, Sink, write_all};
use policy_book::Policy;
use request_text::{Page, put_birth, put_entries};

/// What is printed where the words are no command.
pub(crate) const USAGE: &[u8] = b"usage: gtrbacd POLICY | views POLICY | poll POLICY\n";

/// The status of an output that failed, where this one was due.
fn failed_at(due: u8) -> u8
    ensures { result ≡ or_failed due }
{
    if due == 8 { 8 } else { 5 }
}

/// Puts the lines of the first entries behind what stands on the page, as far as they fit, writes
/// the page and clears it. It answers the entries that are left.
fn write_page<'a, K: Sink>(
    out: &mut K,
    page: &mut Page,
    policy: &Policy,
    entries: &'a [Entry],
) -> Result<&'a [Entry], Failed>
    requires fit { FitPages policy.now.policy entries.now }
    requires room { LONGEST_ENTRY ≤ page.old.spare }
    ensures page { IfOk result
        (λ left. WritesPage policy.now page.old page.new entries.now left.now
        (K.output out.old).written
        (K.output out.new).written) }
    ensures part { OnErr result
        (AppendsPart (K.output out.old).written (K.output out.new).written
        (text_from policy.now page.old.items entries.now)) }
    ensures cause { HasCause (K.output out.old).faults (K.output out.new).faults result }
{
    let left = put_entries(page, policy, entries);
    write_all(out, page.as_slice())?;
    page.clear();
    Ok(left)
}

/// Writes what stands on the page and the lines of the entries, page after page.
fn write_pages<K: Sink>(
    out: &mut K,
    page: &mut Page,
    policy: &Policy,
    entries: &[Entry],
) -> Result<(), Failed>
    requires fit { FitPages policy.now.policy entries.now }
    requires room { LONGEST_ENTRY ≤ page.old.spare }
    ensures all { OnOk result
        (Appends (K.output out.old).written (K.output out.new).written
        (text_from policy.now page.old.items entries.now)) }
    ensures part { OnErr result
        (AppendsPart (K.output out.old).written (K.output out.new).written
        (text_from policy.now page.old.items entries.now)) }
    ensures cause { HasCause (K.output out.old).faults (K.output out.new).faults result }
{
    let mut left = write_page(out, page, policy, entries)?;
    while !left.is_empty() {
        left = write_page(out, page, policy, left)?;
    }
    Ok(())
}

/// Writes the log of a ledger, at whose end this status is due, by an empty page. It takes no
/// memory.
pub(crate) fn write_up<K: Sink>(page: &mut Page, ledger: &Ledger, due: u8, out: &mut K) -> u8
    requires { IsBlankPage page.old }
    ensures { IsWritten due (log_text ledger.now.named ledger.now.birth ledger.now.entries) result
        (K.output out.old).written (K.output out.new).written (K.output out.old).faults
        (K.output out.new).faults }
{
    let book = ledger.book();
    book.keeps();
    put_birth(page, book.birth());
    match write_pages(out, page, book.policy(), book.entries().as_slice()) {
        Ok(()) => due,
        Err(_) => failed_at(due),
    }
}

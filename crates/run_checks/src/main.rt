//! Plays whole runs of the program `gtrbac`, which stand as cases in files of text, over a shelf,
//! an input and an output in memory, and says of each whether it ended as it was to.
#![tactic(auto)]

mod runs;

use crate::runs::Runs;
use case_files::CaseReport;
use gt_host::HostShelf;
use gt_io::{ReadFault, find_all};
use std::alloc::AllocError;
use std::env;
use std::io::Write;
use std::process::ExitCode;

/// The most bytes of a file of cases.
const MAX_FILE: usize = 4_194_304;

/// The names of the files: the words after the program's name.
fn names(rt: &HostRuntime) -> Result<Vec<String>, AllocError> {
    match env::args(rt) {
        Ok(args) => args.skip(1).collect(rt.alloc()),
        Err(_) => Err(AllocError),
    }
}

/// Plays the cases of a file.
fn play_file(rt: &HostRuntime, report: &mut CaseReport, name: &str) -> Result<(), AllocError> {
    let mut shelf = HostShelf::new(rt);
    match find_all(rt.alloc(), &mut shelf, name, MAX_FILE) {
        Ok(text) => report.play_text(rt.alloc(), &mut Runs, name.as_bytes(), &text),
        Err(ReadFault::Memory) => Err(AllocError),
        Err(_) => report.put_unread(name.as_bytes(), 0),
    }
}

/// Plays the cases of all files.
fn play_all(rt: &HostRuntime, report: &mut CaseReport) -> Result<(), AllocError> {
    let names = names(rt)?;
    for name in names.iter() {
        play_file(rt, report, name.as_str())?;
    }
    report.put_count()
}

/// Status 0 where each case was told and none failed, else 1.
fn main(rt: HostRuntime) -> ExitCode {
    let mut report = CaseReport::new(rt.alloc());
    let told = play_all(&rt, &mut report).is_ok();
    let written = rt.stdout().write_all(report.text.as_slice()).is_ok();
    if told && written && report.failed == 0 {
        ExitCode::from(0)
    } else {
        ExitCode::from(1)
    }
}

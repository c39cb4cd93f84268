//! The program `gtrbac`: commands over files, standard input and standard output.
#![tactic(auto)]

use gt_host::{HostShelf, Reading, Writing};
use gtrbac_tool::tool;
use std::alloc::AllocError;
use std::env;
use std::io::ErrorKind;
use std::process::ExitCode;

/// The words after the program's name; none, which are no command, where they are no text.
fn words(rt: &HostRuntime) -> Result<Vec<String>, AllocError> {
    match env::args(rt) {
        Ok(args) => args.skip(1).collect(rt.alloc()),
        Err(fault) if fault.kind() == ErrorKind::OutOfMemory => Err(AllocError),
        Err(_) => Ok(Vec::new(rt.alloc())),
    }
}

/// One call of `tool` over this machine; status 8 where there is no memory for the words.
fn main(rt: HostRuntime) -> ExitCode {
    let Ok(words) = words(&rt) else {
        return ExitCode::from(8);
    };
    let mut shelf = HostShelf::new(&rt);
    let mut input = Reading::new(rt.stdin());
    let mut out = Writing::new(rt.stdout());
    ExitCode::from(tool(rt.alloc(), &words, &mut shelf, &mut input, &mut out))
}

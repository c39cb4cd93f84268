//! Runs of the program.

use case_files::{Case, Ended, Player};
use gt_base::List;
use gt_io::{MemFile, MemShelf, MemSink, MemSource};
use gtrbac_tool::tool;
use std::alloc::{AllocError, Global};

/// The most bytes that one call of the shelf, the input or the output moves.
const PIECE: usize = 1_000;

/// The number of the one call that is to fail; there is no call 0.
fn call(alloc: Global, failing: u32) -> Result<List<u64>, AllocError> {
    Ok(vec![in alloc; u64::from(failing)]?.into())
}

/// The shelf of a case: its policy as the file P, and the call that fails.
fn shelf_of(alloc: Global, case: &Case) -> Result<MemShelf, AllocError> {
    let file = MemFile {
        name: b"P".to_vec(alloc)?.into(),
        bytes: case.policy.as_slice().to_vec(alloc)?.into(),
    };
    let files = vec![in alloc; file]?.into();
    Ok(MemShelf::new(files, PIECE, call(alloc, case.shelf_fails)?))
}

/// The program's one call, over a shelf, an input and an output in memory.
#[derive(Clone, Copy)]
pub(crate) struct Runs;

impl Player for Runs {
    fn play(&mut self, alloc: Global, case: &Case) -> Result<Ended, AllocError> {
        let mut shelf = shelf_of(alloc, case)?;
        let script = case.script.as_slice().to_vec(alloc)?.into();
        let mut input = MemSource::new(script, PIECE, call(alloc, case.input_fails)?);
        let failing = call(alloc, case.output_fails)?;
        let mut out = MemSink::new(alloc, case.room as usize, PIECE, failing)?;
        let status = tool(alloc, &case.words, &mut shelf, &mut input, &mut out);
        Ok(Ended {
            status,
            text: out.written().as_slice().to_vec(alloc)?,
        })
    }
}

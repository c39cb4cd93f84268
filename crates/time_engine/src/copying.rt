//! Copies a trace, set by set.
ghost use Rattle.std.specs.Prelude.{◌≡◌, IfOk};

use crate::traces::{Closed, Trace};
use gt_base::{List, Memory};
use std::alloc::Global;

/// An equal trace.
pub(crate) fn copied_trace(alloc: Global, trace: &Trace) -> Result<Trace, Memory>
    ensures { IfOk result (λ copy. copy.items ≡ trace.now.items) }
{
    let mut copy = List::new(alloc);
    copy.reserve(trace.len())?;
    for c in trace.as_slice() {
        copy.push(c.copied()?);
    }
    Ok(copy)
}

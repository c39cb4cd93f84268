//! What serves the lines of a viewer's link.
use gt_io::Gate;
use std::alloc::Global;

/// What all lines of a viewer's link are served by: where memory comes from, and the gate that each
/// request line passes, as worker `number`.
pub struct ViewServer<'a, G: Gate> {
    pub alloc: Global,
    pub gate: &'a G,
    pub number: u32,
}

impl<'a, G: Gate> Drop for ViewServer<'a, G> {
    fn drop(self) {
        let ViewServer {
            alloc: _,
            gate: _,
            number: _,
        } = self;
    }
}

//! What serves the lines of a connection.
use gt_base::Machine;
use locked_history::Desk;
use policy_book::Policy;
use std::alloc::Global;

/// What all lines of a connection are served by: the desk, the policy whose names are read, the
/// number of the connection, and the gate that is passed before each reading of the clock.
#[derive(Drop)]
pub struct Server<'a, M: Machine, R, G> {
    pub rt: &'a R,
    pub alloc: Global,
    pub desk: &'a Desk<M>,
    pub policy: &'a Policy,
    pub conn: u32,
    pub gate: &'a G,
}

//! A pass that has asks to make.
use turn_lock::Pass;

/// A pass, whether it is to keep its turn between its asks, how often it is to ask, and how often
/// it was told.
pub struct DeskPost<M> {
    pub pass: Pass<M>,
    pub stays: bool,
    pub asks: u32,
    pub told: u32,
}

//! Periodic expressions and periods.
#![tactic(auto)]

mod drafts;
mod exprs;
mod faults;
mod laws;
mod printing;
mod reading;
mod scan;

pub use exprs::{Expr, ExprPart, Period};
pub use faults::{ExprFault, ExprKind};
pub use gtrbac_model::Calendar;
pub use laws::{exprs_are_read, printed_is_read};
pub use printing::print_expr;
pub use reading::parse_expr;

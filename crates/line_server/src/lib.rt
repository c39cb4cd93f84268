//! Serves connections at the desk, with a worker for each door, in threads of their own.
#![tactic(auto)]

mod ended;
mod laws;
mod posts;
mod serve;
mod workers;

pub use connection_laws::{LinkEnd, Report};
pub use ended::{Served, WorkEnd};
pub use laws::workers_are_told;
pub use posts::{Post, run_posts, work_at};
pub use serve::serve_link;
pub use workers::{Worker, work};

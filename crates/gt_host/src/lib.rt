//! The trusted edge: standard streams, files, connections over TCP and the wall clock. They tell
//! nothing of what they hold, and count their faults.
#![tactic(auto)]

mod clock;
mod conn;
mod files;
mod lookout;
mod port;
mod ports;
mod stop;
mod streams;
mod tcp;

pub use clock::HostClock;
pub use files::HostShelf;
pub use ports::HostPorts;
pub use streams::{Reading, Writing};
pub use tcp::{HostDoor, HostLink};

#[cfg(test)]
mod tests;

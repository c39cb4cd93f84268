//! Checks of the lines of scripts and connections, of replies, and of the log, on small policies.
#![tactic(auto)]

#[cfg(test)]
mod building;
#[cfg(test)]
mod entries;
#[cfg(test)]
mod faults;
#[cfg(test)]
mod lines;
#[cfg(test)]
mod longest;
#[cfg(test)]
mod named;
#[cfg(test)]
mod replies;

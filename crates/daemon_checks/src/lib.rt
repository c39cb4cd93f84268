//! Runs of the server over a shelf, links, ports, doors and clocks in memory, each told as one text
//! and compared with its whole text: with workers, with workers and a viewer, and polling.
#![tactic(auto)]

#[cfg(test)]
mod crews;
#[cfg(test)]
mod cut_tests;
#[cfg(test)]
mod fakes;
#[cfg(test)]
mod gates;
#[cfg(test)]
mod long_tests;
#[cfg(test)]
mod poll_tests;
#[cfg(test)]
mod polls;
#[cfg(test)]
mod telling;
#[cfg(test)]
mod tests;
#[cfg(test)]
mod view_tests;

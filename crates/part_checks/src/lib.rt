//! Small tests of parts. They stand in a crate of their own, since a crate with tests is proved
//! twice.
#![tactic(auto)]

#[cfg(test)]
mod agendas;
#[cfg(test)]
mod ages;
#[cfg(test)]
mod copies;
#[cfg(test)]
mod making;
#[cfg(test)]
mod memory;
#[cfg(test)]
mod walks;

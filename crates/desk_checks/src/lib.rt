//! Desks that are tried: over a small machine that tells its instant and numbers its sessions, with
//! two threads by a join and with as many as there are passes; and over a book.
#![tactic(auto)]

#[cfg(test)]
mod answers;
#[cfg(test)]
mod book_tests;
#[cfg(test)]
mod books;
#[cfg(test)]
mod desks;
#[cfg(test)]
mod pair;
mod posts;
#[cfg(test)]
mod serving;
#[cfg(test)]
mod shifts;
#[cfg(test)]
mod tally;
#[cfg(test)]
mod thread_tests;

pub use posts::DeskPost;

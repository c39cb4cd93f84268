//! Checks against plain searches, on random inputs: the least walk and the judge on small graphs,
//! settling on small rules, and timelines that jump from one stirring instant to the next against
//! closing minute after minute.
#![tactic(auto)]

#[cfg(test)]
mod building;
#[cfg(test)]
mod comparing;
#[cfg(test)]
mod drawing;
#[cfg(test)]
mod moving;
#[cfg(test)]
mod random_graphs;
#[cfg(test)]
mod random_rules;

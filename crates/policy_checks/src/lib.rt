//! Tests of lines of policies, and of policies that lines make.
#![tactic(auto)]

#[cfg(test)]
mod building;
#[cfg(test)]
mod lines;

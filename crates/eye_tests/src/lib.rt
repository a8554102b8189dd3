//! Tests of eyes over cells and a queue that threads share. There is no code to run here.
#![tactic(auto)]

#[cfg(test)]
mod fixture;
#[cfg(test)]
mod rows;
#[cfg(test)]
mod seated;
#[cfg(test)]
mod team;

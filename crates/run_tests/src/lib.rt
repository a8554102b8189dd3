//! Runs of scripts and calls of the program over stores in memory, tested. There is no code to run here.
#![tactic(auto)]

#[cfg(test)]
mod tests;

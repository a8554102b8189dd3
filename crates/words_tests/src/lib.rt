//! Tests of the command words. There is no code to run here.
#![tactic(auto)]

#[cfg(test)]
mod words;

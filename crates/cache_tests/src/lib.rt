//! Tests of the cache of one thread, and of looks, frames and fetches over it. There is no code to run here.
#![tactic(auto)]

#[cfg(test)]
mod fetches;
#[cfg(test)]
mod fixture;
#[cfg(test)]
mod frames;
#[cfg(test)]
mod looks;
#[cfg(test)]
mod runs;

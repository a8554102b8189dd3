//! Tests of cells and queues that threads share. There is no code to run here.
#![tactic(auto)]

#[cfg(test)]
mod faults;
#[cfg(test)]
mod fixture;
#[cfg(test)]
mod held;
#[cfg(test)]
mod pairs;
#[cfg(test)]
mod queues;
#[cfg(test)]
mod single;
#[cfg(test)]
mod threads;
#[cfg(test)]
mod unput;
#[cfg(test)]
mod voxels;

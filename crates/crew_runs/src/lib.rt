//! Calls of the program by threads over stores in memory, tested. There is no code to run here.
#![tactic(auto)]

#[cfg(test)]
mod demo;
#[cfg(test)]
mod faults;
#[cfg(test)]
mod fixture;
#[cfg(test)]
mod gates;
#[cfg(test)]
mod runs;
#[cfg(test)]
mod views;
#[cfg(test)]
mod words;

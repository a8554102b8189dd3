//! Tests of the words: passes with numbers that take turns, and cells that are pinned, loaded, marked and turned out over shared
//! words. There is no code to run here.
#![tactic(auto)]

#[cfg(test)]
mod closing;
#[cfg(test)]
mod counter;
#[cfg(test)]
mod fixture;
#[cfg(test)]
mod hand;
#[cfg(test)]
mod live;
#[cfg(test)]
mod numbers;
#[cfg(test)]
mod quiet;
#[cfg(test)]
mod steps;
#[cfg(test)]
mod telling;
#[cfg(test)]
mod threads;

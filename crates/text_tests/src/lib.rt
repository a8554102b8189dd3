//! Tests of what is read and written as text: attributes, scripts, and reports. There is no code to run here.
#![tactic(auto)]

#[cfg(test)]
mod attributes;
#[cfg(test)]
mod lines;
#[cfg(test)]
mod pyramids;
#[cfg(test)]
mod reports;
#[cfg(test)]
mod scripts;
#[cfg(test)]
mod views;

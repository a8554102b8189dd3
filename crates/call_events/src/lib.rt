//! Words about calls and their events: what an acquire, a get and a set of a pass are, over whatever cache. There is no code to run
//! here: contracts of the crates above cite the definitions.
#![tactic(auto)]

//! Tests of the crates that cells stand on: lists and names, grids, maps from pixels to voxels, blocks, and a cell from and to a
//! store. There is no code to run here.
#![tactic(auto)]

#[cfg(test)]
mod blocks;
#[cfg(test)]
mod cells;
#[cfg(test)]
mod fixture;
#[cfg(test)]
mod grids;
#[cfg(test)]
mod lists;
#[cfg(test)]
mod maps;
#[cfg(test)]
mod views;

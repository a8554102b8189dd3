//! Raw blocks of the [N5 format](https://github.com/saalfeldlab/n5), of unsigned voxels on three axes.
//!
//! A block is a mode, the number of axes and three sides, and then the elements, the first axis fastest; all numbers
//! stand high byte first. Blocks are read straight into a frame of 64-bit numbers and written straight from one, in
//! one pass, without memory.
#![tactic(auto)]

mod block_err;
mod head;
mod laws;
mod read;
mod rows;
mod write;

pub use block_err::BlockErr;
pub use laws::{good_blocks_have_one_list_of_values, written_blocks_are_good};
pub use read::read_block;
pub use write::write_block;

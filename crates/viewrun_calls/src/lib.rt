//! The calls of the program on one thread: the levels of a pyramid, and the run of a script over a volume larger than memory.
#![tactic(auto)]

mod call;
mod ending;
mod laws;
mod named;
mod pictures;
mod solo;
mod source;
mod volume;
mod work;

pub use call::{Ended, viewrun_alone};
pub use ending::end_call;
pub use laws::clean_calls_are_one;
pub use named::script_name;
pub use pictures::{put_shots, view_count};
pub use solo::write_shots;
pub use source::script_of;
pub use volume::{open_volume, volume_keys};
pub use work::{Done, Worked};

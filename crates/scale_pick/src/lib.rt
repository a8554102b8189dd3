//! Views of a pyramid: which voxel and which byte a pixel shows, which level a view wants, and when a picture is right.
#![tactic(auto)]

mod laws;
mod note;
mod painted;
mod pick;
mod picture;
mod run;
mod shade;
mod strategy;
mod view;

pub use laws::{
    blocking_is_complete, looks_are_noted, pictures_show_moments, reads_are_of_moments,
};
pub use note::Note;
pub use painted::Painted;
pub use pick::best;
pub use picture::{Memory, Picture};
pub use run::Run;
pub use shade::{Shades, shown};
pub use strategy::Strategy;
pub use view::View;

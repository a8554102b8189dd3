// What became of a frame.
ghost use Rattle.std.specs.Prelude.{◌≡◌, ◌↔◌, IsTrue};
ghost use Rattle.scale_pick.specs.Painted.{painted_of, not_ready_of, IsComplete};

use crate::Picture;

/// What became of a frame: the level that it wanted, whether each pixel is of that level, and how many aren't.
#[derive(Clone, Copy, Debug, PartialEq, Eq)]
pub struct Painted {
    pub wanted: u8,
    pub complete: bool,
    pub not_ready: u32,
}

impl Painted {
    /// What became of a frame that wanted this level, by its picture. One byte is read for each pixel.
    pub fn of(picture: &Picture, wanted: u8) -> Painted
        ensures painted { result ≡ painted_of wanted picture.now }
        ensures complete { IsTrue result.complete ↔ IsComplete wanted picture.now }
    {
        let not_ready = not_ready(picture, wanted);
        Painted {
            wanted,
            complete: not_ready == 0,
            not_ready,
        }
    }
}

/// How many pixels are of another level, or of none.
fn not_ready(picture: &Picture, wanted: u8) -> u32
    ensures { result ≡ not_ready_of wanted picture.now }
{
    picture
        .mask()
        .iter()
        .filter(|mask| **mask != wanted)
        .count() as u32
}

// What an actor does in one line.
use crate::name::Name;
use scale_pick::View;

/// What an actor does in one line.
#[derive(Drop)]
pub enum Command {
    /// Asks for the value of a voxel, at a position (x, y, z) of a level.
    Get {
        level: u8,
        pos: [u64; 3],
    },
    /// Gives a voxel a value.
    Set {
        level: u8,
        pos: [u64; 3],
        value: u64,
    },
    /// Paints a picture and keeps it under a name. With no range in the script it shows 0 to 255.
    View {
        name: Name,
        view: View,
    },
    /// Serves so many requests for cells, or as many as there are.
    Fetch {
        count: u32,
    },
}

// Scripts as their readers see them.
use crate::command::Command;
use cell_grid::Kind;
use plain_data::{Items, Text};

/// The volume that a script opens.
#[derive(Drop)]
pub enum Head {
    /// A volume of one level, by its sides and the sides of its cells, in voxels along x, y and z.
    Raw {
        root: Text,
        kind: Kind,
        dims: [u64; 3],
        cell: [u32; 3],
    },
    /// A pyramid, whose attributes say the rest.
    Pyramid {
        root: Text,
    },
}

/// A script: the volume that it opens, the range of values that its pictures show, and the commands of
/// each actor of each phase.
#[derive(Drop)]
pub struct Script {
    pub head: Head,
    pub range: Option<[u64; 2]>,
    pub phases: Items<Items<Items<Command>>>,
}

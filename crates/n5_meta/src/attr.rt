// The attributes of a dataset.
use cell_grid::Kind;

/// The attributes of a dataset of three axes: the sides of its box and of a block in voxels, first axis first, and
/// the kind of its voxels.
#[derive(Clone, Copy, Debug, PartialEq, Eq)]
pub struct Attr {
    pub dims: [u64; 3],
    pub cell: [u32; 3],
    pub kind: Kind,
}

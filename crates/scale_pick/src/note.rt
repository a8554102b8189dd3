// What is learned while a picture is painted.

/// What a frame learns from one of its events: a cell wasn't ready, or a voxel had a number.
#[derive(Clone, Copy, Debug, PartialEq, Eq)]
pub enum Note {
    NotReady { cell: u32 },
    Read { cell: u32, at: u32, value: u64 },
}
